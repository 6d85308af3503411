//! Image files, written and read back.

use crate::images::rows::{Numbers, ONE_RET, RET, file_of, image, numbers};
use crate::items::NOP;
use lfi_image_file::{ImageFault, read_image};
use lfi_module::{Extent, ModuleNumber, PageSize, Profile, WordCount};
use std::alloc::Global;
use std::process::Abort;

/// The file of the image of pages that end with these words.
fn file(
    rt: &(impl Abort + AllocGlobal),
    extent: Extent,
    slot: ModuleNumber,
    pages: &[u32],
) -> Vec<u8> {
    file_of(rt, &image(rt, extent, slot, pages))
}

/// The numbers of the image that is read of a file.
fn read_back(alloc: Global, file: &[u8]) -> Result<Numbers, ImageFault> {
    let mut reader = file;
    match read_image(alloc, &mut reader) {
        Ok(image) => Ok(numbers(&image)),
        Err(fault) => Err(fault),
    }
}

/// The file of two NOPs in slot 3, entered at word 1.
const TWO_NOPS: [u8; 32] = [
    0x4C, 0x46, 0x49, 0x31, 2, 0, 0, 0, 1, 0, 0, 0, 1, 0, 0, 0, 0, 0, 0, 0, 7, 0, 0, 0, 0x1F, 0x20,
    0x03, 0xD5, 0x1F, 0x20, 0x03, 0xD5,
];

#[test]
fn files_are_read_back(rt: HostRuntime) {
    let (one, small) = (Profile::One, PageSize::SMALL);
    let one_word = Extent::of(WordCount::of(1), 0, one, small);
    let two_words = Extent::of(WordCount::of(2), 1, one, small);
    let two_pages = Extent::of(WordCount::of(1025), 1024, one, small);
    let rows: [(Extent, ModuleNumber, &[u32], &[u8], usize, Numbers); 3] = [
        (
            one_word,
            ModuleNumber::at(0),
            &[RET],
            &ONE_RET,
            28,
            [1, 1, 0, 0, RET, RET],
        ),
        (
            two_words,
            ModuleNumber::at(3),
            &[NOP],
            &TWO_NOPS,
            32,
            [2, 2, 1, 3, NOP, NOP],
        ),
        (
            two_pages,
            ModuleNumber::at(15),
            &[NOP, RET],
            &[],
            24 + 4100,
            [1025, 1025, 1024, 15, NOP, RET],
        ),
    ];
    for (place, (extent, slot, pages, start, len, want)) in rows.iter().enumerate() {
        let file = file(&rt, *extent, *slot, *pages);
        let is_written = file.len() == *len && file.starts_with(*start);
        assert!(rt;
            is_written && read_back(rt.alloc(), &file) == Ok(*want),
            "row {place}"
        );
    }
}

#[test]
fn every_slot_and_a_full_page(rt: HostRuntime) {
    let extent = Extent::of(WordCount::of(1024), 1023, Profile::One, PageSize::SMALL);
    for slot in 0..16u16 {
        let number = ModuleNumber::at(slot as usize);
        let file = file(&rt, extent, number, &[NOP]);
        let want = [1024, 1024, 1023, u32::from(slot), NOP, NOP];
        assert!(rt; read_back(rt.alloc(), &file) == Ok(want), "slot {slot}");
    }
}

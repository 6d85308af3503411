//! What the tests share: the image file of one RET, and images of NOPs with other words at the ends of their pages.

use crate::items::page_ending;
use lfi_image::{Builder, CompleteImage, JudgedPage};
use lfi_image_file::{ImageFault, read_image, write_image};
use lfi_module::{Extent, ModuleNumber};
use lfi_rules::Fault;
use std::alloc::Global;
use std::process::Abort;

/// RET.
pub const RET: u32 = 0xD65F_03C0;

/// The image file of one RET in slot 0, entered at word 0.
pub const ONE_RET: [u8; 28] = [
    0x4C, 0x46, 0x49, 0x31, 1, 0, 0, 0, 0, 0, 0, 0, 1, 0, 0, 0, 0, 0, 0, 0, 1, 0, 0, 0, 0xC0, 0x03,
    0x5F, 0xD6,
];

/// Judges the page that is due, of NOPs and this word at its end, and appends it. What comes back is the page's fault.
pub fn append(rt: &(impl Abort + AllocGlobal), builder: &mut Builder, last: u32) -> Option<Fault> {
    let (size, due) = (builder.extent().pages(), builder.due());
    let page = page_ending(rt, size, due, last);
    assert!(rt; page.size() == size && page.len_words() == due as usize);
    let page = JudgedPage::judge(page, builder.placed(), builder.extent());
    match builder.append(page) {
        Ok(()) => None,
        Err((fault, _)) => Some(fault),
    }
}

/// The image of pages that end with these words.
pub fn image(
    rt: &(impl Abort + AllocGlobal),
    extent: Extent,
    slot: ModuleNumber,
    pages: &[u32],
) -> CompleteImage {
    let mut builder = Builder::new(rt.alloc(), extent, slot).expect(rt, "no builder");
    for last in pages {
        append(rt, &mut builder, *last);
    }
    match builder.finish() {
        Ok(image) => image,
        Err(_) => panic!(rt; "words are missing"),
    }
}

/// An image in numbers: how many words it has and how many are placed, the entry, the slot, and the last two words, or
/// the only one twice.
pub type Numbers = [u32; 6];

/// The numbers of an image.
pub fn numbers(image: &CompleteImage) -> Numbers {
    let words = image.words().number();
    [
        words,
        image.placed(),
        image.entry(),
        u32::from(image.slot().number()),
        image.word(words.saturating_sub(2)),
        image.word(words - 1),
    ]
}

/// The file of an image.
pub fn file_of(rt: &(impl Abort + AllocGlobal), image: &CompleteImage) -> Vec<u8> {
    let mut file = Vec::new(rt.alloc());
    assert!(rt; write_image(image, &mut file).is_ok());
    file
}

/// The fault of a file; none where it is read.
pub fn fault_of(alloc: Global, file: &[u8]) -> Option<ImageFault> {
    let mut reader = file;
    read_image(alloc, &mut reader).err()
}

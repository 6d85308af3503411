//! What is wrong with a file, in the order in which it is asked.

use crate::images::rows::{ONE_RET, RET, fault_of};
use crate::items::UNKNOWN;
use lfi_image_file::ImageFault;
use lfi_module::{PageSize, Profile};
use lfi_rules::{Fault, Rule, check_all};
use page_buf::SealedPage;
use std::alloc::Global;
use std::process::Abort;

/// The first word is no instruction.
const FIRST_UNKNOWN: ImageFault = ImageFault::Unlawful(Fault {
    word: 0,
    rule: Rule::Spelled,
});

/// The fault of `len` bytes of the file of one RET and a 0 behind it; none where they are read.
fn fault_at(alloc: Global, len: usize) -> Option<ImageFault> {
    let mut bytes = [0; 29];
    bytes[..28].copy_from_slice(&ONE_RET);
    fault_of(alloc, &bytes[..len.min(29)])
}

#[test]
fn a_file_that_ends_early_or_late(rt: HostRuntime) {
    for len in 0..28 {
        let fault = fault_at(rt.alloc(), len);
        assert!(rt; fault == Some(ImageFault::Truncated), "{len} bytes");
    }
    let ends = (fault_at(rt.alloc(), 28), fault_at(rt.alloc(), 29));
    assert!(rt; ends == (None, Some(ImageFault::More)));
}

/// The number of the fault of the file of one RET with one byte set to another value; 0 for none.
fn number(at: usize, value: u8) -> u8 {
    match at {
        0..=3 => 1,
        4 if value == 0 => 3,
        4 | 5 => 5,
        6 if value <= 63 => 5,
        6..=11 => 3,
        12 if value == 2 => 0,
        12..=15 => 2,
        20 if value % 2 == 1 && value <= 31 => 0,
        _ => 4,
    }
}

/// Whether the file of one RET with each other value in this byte of its header has the fault of that number.
fn has_number(alloc: Global, at: usize, value: u8) -> bool {
    let mut bytes = ONE_RET;
    let Some(byte) = bytes.get_mut(at) else {
        return false;
    };
    if *byte == value {
        return true;
    }
    *byte = value;
    let found = match fault_of(alloc, &bytes) {
        Some(fault) => fault.number(),
        None => 0,
    };
    found == number(at, value)
}

/// The first value of this byte for which that isn't so.
fn first_other(alloc: Global, at: usize) -> Option<u8> {
    for value in 0..=255u8 {
        if !has_number(alloc, at, value) {
            return Some(value);
        }
    }
    None
}

#[test]
fn each_header_byte(rt: HostRuntime) {
    for at in 0..24 {
        let other = first_other(rt.alloc(), at);
        assert!(rt; other.is_none(), "byte {at} is {other:?}");
    }
}

/// The file of one word, by the profile of this number.
fn file(profile: u8, word: [u8; 4]) -> [u8; 28] {
    let mut bytes = ONE_RET;
    bytes[12] = profile;
    bytes[24..].copy_from_slice(&word);
    bytes
}

/// LDAR X0, [X18], which is a word of the second profile alone: the file says which.
const LOAD_ACQUIRE: u32 = 0xC8DF_FE40;

/// The number of a profile, a word, and the fault of its file.
const WORDS: [(u8, u32, Option<ImageFault>); 4] = [
    (1, UNKNOWN, Some(FIRST_UNKNOWN)),
    (1, LOAD_ACQUIRE, Some(FIRST_UNKNOWN)),
    (2, LOAD_ACQUIRE, None),
    (3, LOAD_ACQUIRE, Some(ImageFault::Profile)),
];

#[test]
fn code_that_is_none(rt: HostRuntime) {
    for (place, (profile, word, want)) in WORDS.iter().enumerate() {
        let fault = fault_of(rt.alloc(), &file(*profile, word.to_le_bytes()));
        assert!(rt; fault == *want, "row {place}");
    }
}

/// Whether the word of a file is lawful; none where the file has another fault than the rules tell of the word.
fn judged(
    rt: &(impl Abort + AllocGlobal),
    number: u8,
    profile: Profile,
    word: [u8; 4],
) -> Option<bool> {
    let page = SealedPage::of(rt.alloc(), PageSize::SMALL, &word).expect(rt, "no page");
    let want = check_all(&page, profile).map(ImageFault::Unlawful);
    if fault_of(rt.alloc(), &file(number, word)) == want {
        Some(want.is_none())
    } else {
        None
    }
}

/// How many words that are RET with one byte set to some value are lawful; none where the file of one has another fault
/// than its word.
fn lawful_of(rt: &(impl Abort + AllocGlobal), number: u8, profile: Profile) -> Option<u32> {
    let mut lawful = 0u32;
    for at in 0..4usize {
        for value in 0..=255u8 {
            let mut word = RET.to_le_bytes();
            word[at] = value;
            let is_lawful = judged(rt, number, profile, word)?;
            lawful = lawful.saturating_add(u32::from(is_lawful));
        }
    }
    Some(lawful)
}

#[test]
fn each_code_byte(rt: HostRuntime) {
    let one = lawful_of(&rt, 1, Profile::One).unwrap_or(0);
    let two = lawful_of(&rt, 2, Profile::Two).unwrap_or(0);
    // RET itself four times by each profile, at least.
    assert!(rt; one >= 4 && two >= 4);
}

/// Magic, profile, words and base are wrong at once. Each byte puts one right; the fault that is left after it.
/// At the fifth, one of two words is there, and it is no instruction: its page isn't whole.
const PUT_RIGHT: [(usize, u8, ImageFault); 8] = [
    (0, 0x4C, ImageFault::Magic),
    (1, 0x46, ImageFault::Magic),
    (2, 0x49, ImageFault::Magic),
    (3, 0x31, ImageFault::Profile),
    (12, 1, ImageFault::Counts),
    (4, 2, ImageFault::Base),
    (20, 1, ImageFault::Truncated),
    (4, 1, FIRST_UNKNOWN),
];

#[test]
fn the_first_fault_counts(rt: HostRuntime) {
    let mut bytes = [0; 28];
    for (at, value, want) in PUT_RIGHT.iter() {
        bytes[(*at).min(27)] = *value;
        assert!(rt;
            fault_of(rt.alloc(), &bytes) == Some(*want),
            "byte {at} is {value}"
        );
    }
}

#[test]
fn a_fault_prints_as_words(rt: HostRuntime) {
    let text = format!(in rt.alloc(); "{FIRST_UNKNOWN}, {}", ImageFault::Magic);
    assert!(rt;
        text.expect(&rt, "no text").as_str() == "word 0 breaks rule 1, it is no image file"
    );
}

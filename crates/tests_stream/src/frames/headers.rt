//! Headers, one at a time, and what they bring.

use lfi_frame::{Feed, Got, Header, Step};
use lfi_module::{Extent, ModuleNumber, PageSize, Profile, WordCount};

/// The kind, the second byte, the module, a and b of a header.
pub type Numbers = (u8, u8, u16, u32, u32);

/// The bytes of a header with these numbers.
pub fn header(numbers: Numbers) -> [u8; 12] {
    let (kind, second, module, a, b) = numbers;
    let header = Header {
        kind,
        second,
        module,
        a,
        b,
    };
    header.bytes()
}

/// Whether a header has no fault and brings this to a feed.
fn brings(numbers: Numbers, got: Got) -> bool {
    let bytes = header(numbers);
    let step = Step { used: 12, got };
    Header::read(&bytes).fault().is_none() && Feed::new().feed(&bytes) == Ok(step)
}

#[test]
fn ends_of_the_ranges(rt: HostRuntime) {
    let (small, large) = (PageSize::SMALL, PageSize::LARGE);
    let (first, last) = (ModuleNumber::at(0), ModuleNumber::at(15));
    let least = Extent::of(WordCount::of(1), 0, Profile::One, small);
    let most = Extent::of(WordCount::MOST, 4_194_303, Profile::One, small);
    let second = Extent::of(WordCount::of(2), 1, Profile::Two, small);
    let in_large = Extent::of(WordCount::of(2), 1, Profile::Two, large);
    let rows = [
        ((1, 0, 0, 1, 0), open(first, least)),
        ((4, 0, 3, 2, 1), open(ModuleNumber::at(3), second)),
        ((4, 2, 3, 2, 1), open(ModuleNumber::at(3), in_large)),
        ((1, 0, 15, 4_194_304, 4_194_303), open(last, most)),
        ((2, 0, 0, 0, 4), page(first, small, 0, 4)),
        (
            (2, 0, 2, u32::MAX, 4_096),
            page(ModuleNumber::at(2), small, u32::MAX, 4_096),
        ),
        ((5, 0, 0, 0, 4), page(first, large, 0, 4)),
        (
            (5, 0, 2, u32::MAX, 16_384),
            page(ModuleNumber::at(2), large, u32::MAX, 16_384),
        ),
        ((3, 0, 0, 0, 0), Got::Close { module: first }),
        ((3, 0, 15, 0, 0), Got::Close { module: last }),
    ];
    for (place, (numbers, got)) in rows.iter().enumerate() {
        assert!(rt; brings(*numbers, *got), "row {place}");
    }
}

/// The Open of a module.
pub fn open(module: ModuleNumber, extent: Extent) -> Got {
    Got::Open { module, extent }
}

/// The header of a page.
pub fn page(module: ModuleNumber, size: PageSize, index: u32, len: u32) -> Got {
    Got::Page {
        module,
        size,
        index,
        len,
    }
}

#[test]
fn bytes_of_a_header(rt: HostRuntime) {
    let bytes = [2, 3, 5, 7, 11, 13, 17, 19, 23, 29, 31, 37];
    let want = Header {
        kind: 2,
        second: 3,
        module: 0x0705,
        a: 0x1311_0d0b,
        b: 0x251f_1d17,
    };
    assert!(rt; Header::read(&bytes) == want && want.bytes() == bytes);
}

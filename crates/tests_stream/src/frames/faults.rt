//! Faults: what they are called, the headers that show them, and what a feed answers after one.

use crate::frames::headers::header;
use lfi_frame::{Feed, FrameFault, Header};
use std::alloc::Global;

/// A fault, its number and its text.
type Named = (FrameFault, u8, &'static str);

const NAMED: [Named; 10] = [
    (FrameFault::Kind, 1, "unknown kind of message"),
    (FrameFault::SecondByte, 2, "second byte not zero"),
    (FrameFault::Module, 3, "no such module"),
    (FrameFault::PageLength, 4, "page length out of range"),
    (FrameFault::CloseNumbers, 5, "close with numbers"),
    (FrameFault::WordCount, 6, "word count out of range"),
    (FrameFault::Entry, 7, "entry past the last word"),
    (FrameFault::NoMemory, 8, "no memory for a page"),
    (FrameFault::Ended, 9, "input ended too early"),
    (FrameFault::ReadFailed, 10, "read failed"),
];

/// Whether a fault is called so.
fn is_named(alloc: Global, row: &Named) -> bool {
    let (fault, number, text) = *row;
    match format!(in alloc; "{fault}") {
        Ok(told) => fault.number() == number && told.as_str() == text,
        Err(_) => false,
    }
}

#[test]
fn numbers_and_texts(rt: HostRuntime) {
    for (place, row) in NAMED.iter().enumerate() {
        assert!(rt; is_named(rt.alloc(), row), "row {place}");
    }
}

/// Whether a feed answers this fault to a header, to no bytes and to an end, and uses nothing.
fn answers(feed: &mut Feed, fault: FrameFault) -> bool {
    let open = header((1, 0, 0, 1, 0));
    feed.feed(&open) == Err((0, fault))
        && feed.feed(&[]) == Err((0, fault))
        && feed.end() == Err(fault)
}

/// Whether every call on a feed with a fault answers that fault and uses nothing, after a stop and another one too.
fn is_over(mut feed: Feed, fault: FrameFault) -> bool {
    let first = answers(&mut feed, fault);
    feed.stop(FrameFault::ReadFailed);
    let second = answers(&mut feed, fault);
    feed.stop(FrameFault::NoMemory);
    first && second && answers(&mut feed, fault)
}

/// The kind, the second byte, the module, a and b of a header, and its fault.
type Faulty = (u8, u8, u16, u32, u32, FrameFault);

/// Headers with one fault, and with several, of which the first counts.
const FAULTY: [Faulty; 53] = [
    // One fault.
    (6, 0, 0, 0, 0, FrameFault::Kind),
    (1, 1, 0, 1, 0, FrameFault::SecondByte),
    (1, 0, 16, 1, 0, FrameFault::Module),
    (2, 0, 0, 0, 0, FrameFault::PageLength),
    (3, 0, 0, 1, 0, FrameFault::CloseNumbers),
    (1, 0, 0, 0, 0, FrameFault::WordCount),
    (1, 0, 0, 1, 1, FrameFault::Entry),
    (0, 0, 0, 1, 0, FrameFault::Kind),
    (6, 0, 0, 1, 0, FrameFault::Kind),
    (255, 0, 0, 1, 0, FrameFault::Kind),
    (1, 1, 0, 1, 0, FrameFault::SecondByte),
    (1, 2, 0, 1, 0, FrameFault::SecondByte),
    (4, 1, 0, 1, 0, FrameFault::SecondByte),
    (4, 3, 0, 1, 0, FrameFault::SecondByte),
    (5, 2, 0, 0, 4, FrameFault::SecondByte),
    (2, 255, 0, 0, 4, FrameFault::SecondByte),
    (1, 0, 16, 1, 0, FrameFault::Module),
    (4, 0, 16, 1, 0, FrameFault::Module),
    (3, 0, 256, 0, 0, FrameFault::Module),
    (2, 0, 65_535, 0, 4, FrameFault::Module),
    (2, 0, 0, 0, 0, FrameFault::PageLength),
    (2, 0, 0, 0, 2, FrameFault::PageLength),
    (2, 0, 0, 0, 4_095, FrameFault::PageLength),
    (2, 0, 0, 0, 4_100, FrameFault::PageLength),
    (2, 0, 0, 0, 4_294_967_292, FrameFault::PageLength),
    (5, 0, 0, 0, 0, FrameFault::PageLength),
    (5, 0, 0, 0, 16_383, FrameFault::PageLength),
    (5, 0, 0, 0, 16_388, FrameFault::PageLength),
    (3, 0, 0, 1, 0, FrameFault::CloseNumbers),
    (3, 0, 0, 0, 1, FrameFault::CloseNumbers),
    (3, 0, 0, 4_294_967_295, 0, FrameFault::CloseNumbers),
    (3, 0, 0, 0, 16_777_216, FrameFault::CloseNumbers),
    (1, 0, 0, 4_194_305, 0, FrameFault::WordCount),
    (1, 0, 0, 4_294_967_295, 0, FrameFault::WordCount),
    (4, 0, 0, 4_194_305, 0, FrameFault::WordCount),
    (1, 0, 0, 1, 1, FrameFault::Entry),
    (4, 0, 0, 1, 1, FrameFault::Entry),
    (1, 0, 0, 4_194_304, 4_194_304, FrameFault::Entry),
    (1, 0, 0, 2, 4_294_967_295, FrameFault::Entry),
    // Several.
    (6, 1, 0, 0, 0, FrameFault::Kind),
    (5, 1, 16, 0, 0, FrameFault::SecondByte),
    (5, 0, 16, 0, 0, FrameFault::Module),
    (4, 1, 0, 0, 0, FrameFault::SecondByte),
    (0, 1, 16, 0, 0, FrameFault::Kind),
    (2, 1, 16, 0, 0, FrameFault::SecondByte),
    (3, 1, 16, 1, 1, FrameFault::SecondByte),
    (1, 1, 0, 0, 0, FrameFault::SecondByte),
    (2, 0, 16, 0, 0, FrameFault::Module),
    (3, 0, 16, 1, 0, FrameFault::Module),
    (1, 0, 16, 1, 1, FrameFault::Module),
    (1, 0, 0, 0, 0, FrameFault::WordCount),
    (4, 0, 0, 0, 0, FrameFault::WordCount),
    (1, 0, 0, 4_194_305, 4_194_305, FrameFault::WordCount),
];

/// Whether a header has its fault, by itself and at a feed, for which all is over then.
fn is_over_after(row: &Faulty) -> bool {
    let (kind, second, module, a, b, fault) = *row;
    let bytes = header((kind, second, module, a, b));
    let mut feed = Feed::new();
    let told = Header::read(&bytes).fault() == Some(fault) && feed.feed(&bytes) == Err((12, fault));
    told && is_over(feed, fault)
}

#[test]
fn faulty_headers(rt: HostRuntime) {
    for (place, row) in FAULTY.iter().enumerate() {
        assert!(rt; is_over_after(row), "row {place}");
    }
}

/// How many bytes of a page's header came, at most 12, and the fault of the end or the stop after them.
type Brought = (usize, FrameFault);

/// Whether all is over after a number of bytes and this fault.
fn is_over_within(row: &Brought) -> bool {
    let (used, fault) = *row;
    let page = header((2, 0, 0, 0, 8));
    let mut feed = Feed::new();
    let taken = feed.feed(&page[..used.min(12)]).is_ok();
    match fault {
        FrameFault::NoMemory => feed.stop(FrameFault::NoMemory),
        FrameFault::ReadFailed => feed.stop(FrameFault::ReadFailed),
        _ => return taken && feed.end() == Err(fault) && is_over(feed, fault),
    }
    taken && is_over(feed, fault)
}

/// An end inside a message, and stops there and between two.
const BROUGHT: [Brought; 11] = [
    (1, FrameFault::Ended),
    (1, FrameFault::NoMemory),
    (1, FrameFault::ReadFailed),
    (11, FrameFault::Ended),
    (11, FrameFault::NoMemory),
    (11, FrameFault::ReadFailed),
    (12, FrameFault::Ended),
    (12, FrameFault::NoMemory),
    (12, FrameFault::ReadFailed),
    (0, FrameFault::NoMemory),
    (0, FrameFault::ReadFailed),
];

#[test]
fn after_an_end_or_a_stop(rt: HostRuntime) {
    for (place, row) in BROUGHT.iter().enumerate() {
        assert!(rt; is_over_within(row), "row {place}");
    }
}

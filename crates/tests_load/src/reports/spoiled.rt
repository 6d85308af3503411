//! Streams of two pages with a byte of a header another one, and cut in their headers: the stage tells of them what the plain
//! program does.

use crate::build::Sent::{Close, Open, Page};
use crate::build::{GUARD_LINK, LOAD_LINK, NOP, RET, Sent, text_of};
use crate::inputs::loaded;
use crate::reports::plain::{Given, plainly};
use lfi_sequence::OpenGate;
use std::alloc::AllocError;
use std::sync::Wait;
use std::thread::Threads;

/// What is sent, and where the headers of its messages stand.
#[derive(Clone, Copy)]
struct Stream {
    sent: &'static [Sent],
    headers: &'static [usize],
}

const STREAMS: [Stream; 3] = [
    // A page that comes twice.
    Stream {
        sent: &[
            Open(0, 2048),
            Page(0, 0, 1024, RET),
            Page(0, 0, 1024, RET),
            Page(0, 1, 1024, RET),
            Close(0),
        ],
        headers: &[0, 12, 4120, 8228, 12_336],
    },
    // Page 0 ends with a load of x30, and page 1 is its guard.
    Stream {
        sent: &[
            Open(0, 1025),
            Page(0, 0, 1024, LOAD_LINK),
            Page(0, 1, 1, GUARD_LINK),
            Close(0),
        ],
        headers: &[0, 12, 4120, 4136],
    },
    // Page 1 is another word.
    Stream {
        sent: &[
            Open(0, 1025),
            Page(0, 0, 1024, LOAD_LINK),
            Page(0, 1, 1, NOP),
            Close(0),
        ],
        headers: &[0, 12, 4120, 4136],
    },
];

/// Every module may be claimed for the one connection.
const ALL: [u16; 16] = [0, 1, 2, 3, 4, 5, 6, 7, 8, 9, 10, 11, 12, 13, 14, 15];

/// Whether the stage and the reference implementation tell the same of a text.
fn is_told_alike(rt: &(impl Threads + Wait + Sync + AllocGlobal), text: &[u8]) -> bool {
    let Ok(plain) = plainly(rt.alloc(), &[Given::whole(text, &ALL)]) else {
        return false;
    };
    match loaded(rt, &[text], usize::MAX, 1, &OpenGate) {
        Ok(told) => plain == told,
        Err(_) => false,
    }
}

/// The same with another byte at a place.
fn is_spoiled_alike(
    rt: &(impl Threads + Wait + Sync + AllocGlobal),
    text: &[u8],
    place: usize,
    byte: u8,
) -> Result<bool, AllocError> {
    let mut spoiled = Vec::from_slice(rt.alloc(), text)?;
    if place < spoiled.len() {
        spoiled[place] = byte;
    }
    Ok(is_told_alike(rt, spoiled.as_slice()))
}

/// The first place of a header at which this byte makes them tell otherwise.
fn first_spoiled_otherwise(
    rt: &(impl Threads + Wait + Sync + AllocGlobal),
    text: &[u8],
    header: usize,
    byte: u8,
) -> Result<Option<usize>, AllocError> {
    for at in 0..12usize {
        let place = header.saturating_add(at);
        if !is_spoiled_alike(rt, text, place, byte)? {
            return Ok(Some(place));
        }
    }
    Ok(None)
}

/// Whether they tell the same of a stream with this byte at each place of a header.
fn are_spoiled_alike(
    rt: &(impl Threads + Wait + Sync + AllocGlobal),
    stream: &Stream,
    byte: u8,
) -> Result<bool, AllocError> {
    let text = text_of(rt.alloc(), stream.sent)?;
    for header in stream.headers {
        if first_spoiled_otherwise(rt, text.as_slice(), *header, byte)?.is_some() {
            return Ok(false);
        }
    }
    Ok(true)
}

#[test]
fn spoiled_in_every_byte_of_a_header(rt: HostRuntime) {
    for stream in &STREAMS {
        for byte in [0u8, 1, 2, 3, 4, 0x10, 0xFF] {
            assert!(rt; are_spoiled_alike(&rt, stream, byte) == Ok(true));
        }
    }
}

/// The first length in a header, from its first byte up to the byte after it, at which they tell otherwise of a text that ends there.
fn first_cut_otherwise(
    rt: &(impl Threads + Wait + Sync + AllocGlobal),
    text: &[u8],
    header: usize,
) -> Option<usize> {
    for at in 0..=12usize {
        let len = header.saturating_add(at).min(text.len());
        if !is_told_alike(rt, &text[..len]) {
            return Some(len);
        }
    }
    None
}

/// Whether they tell the same of a stream that ends at each byte of each header.
fn are_cut_alike(
    rt: &(impl Threads + Wait + Sync + AllocGlobal),
    stream: &Stream,
) -> Result<bool, AllocError> {
    let text = text_of(rt.alloc(), stream.sent)?;
    for header in stream.headers {
        if first_cut_otherwise(rt, text.as_slice(), *header).is_some() {
            return Ok(false);
        }
    }
    Ok(true)
}

#[test]
fn cut_at_every_byte_of_a_header(rt: HostRuntime) {
    for stream in &STREAMS {
        assert!(rt; are_cut_alike(&rt, stream) == Ok(true));
    }
}

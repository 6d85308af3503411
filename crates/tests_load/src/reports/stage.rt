//! Streams through the stage, and through the reference implementation beside it.

use crate::build::Sent::{Close, Open, Page};
use crate::build::{MODULE_0, RET, Sent, is_told, text_of};
use crate::inputs::{Pieces, loaded, reported, tells};
use crate::reports::cuts::cut_short;
use crate::reports::plain::{Given, plainly, tells_plainly};
use lfi_loader::NoNotices;
use lfi_model::EndCause;
use lfi_sequence::OpenGate;
use std::io::ErrorKind;
use std::sync::Wait;
use std::thread::Threads;

/// The first length at which the stage tells otherwise of a module of one word, of which some
/// bytes come, in pieces of a given size, and then its input ends so: where it fails, all others follow.
fn first_cut_otherwise(
    rt: &(impl Threads + Wait + Sync + AllocGlobal),
    most: usize,
    cause: EndCause,
) -> Option<usize> {
    for len in 0..=40usize {
        let reader = Pieces {
            left: &MODULE_0[..len],
            most,
            fails: (cause == EndCause::Failed).then_some(ErrorKind::Interrupted),
            rest: &MODULE_0[len..],
        };
        let told = reported(rt, &[reader], 1, &OpenGate, &NoNotices);
        if !is_told(rt.alloc(), told, cut_short(len, cause)) {
            return Some(len);
        }
    }
    None
}

/// The lengths of pieces, and how the input ends.
const CUT: [(usize, EndCause); 3] = [
    (usize::MAX, EndCause::End),
    (1, EndCause::End),
    (usize::MAX, EndCause::Failed),
];

#[test]
fn cut_or_failed_once_at_every_byte(rt: HostRuntime) {
    for (most, cause) in &CUT {
        assert!(rt; first_cut_otherwise(&rt, *most, *cause).is_none());
    }
}

/// What is sent in pieces of each length from 1 to a longest one, and what is told of it.
const IN_PIECES: [(&[Sent], usize, &str); 2] = [
    (
        &[Open(0, 1), Page(0, 0, 1, RET), Close(0)],
        41,
        "module 0: complete, 1 words\nstrays 0\n",
    ),
    (
        &[Open(7, 1024), Page(7, 0, 1024, RET), Close(7)],
        5,
        "module 7: complete, 1024 words\nstrays 0\n",
    ),
];

/// Whether the stage tells this of a text, in pieces of each of these lengths, from 1 on.
fn is_told_in_pieces(
    rt: &(impl Threads + Wait + Sync + AllocGlobal),
    text: &[u8],
    longest: usize,
    want: &str,
) -> bool {
    for most in 1..=longest {
        if !tells(rt, &[text], most, 1, want) {
            return false;
        }
    }
    true
}

/// Whether the stage tells what a row says of what is sent, in pieces of each length.
fn is_so(rt: &(impl Threads + Wait + Sync + AllocGlobal), row: &(&[Sent], usize, &str)) -> bool {
    let (sent, longest, want) = *row;
    match text_of(rt.alloc(), sent) {
        Ok(text) => is_told_in_pieces(rt, text.as_slice(), longest, want),
        Err(_) => false,
    }
}

#[test]
fn in_pieces_of_every_length(rt: HostRuntime) {
    for row in &IN_PIECES {
        assert!(rt; is_so(&rt, row));
    }
}

/// The modules that are claimed for a stream of which at most the first message is an Open.
fn claimed_by(kind: u8, module: u8) -> [u16; 1] {
    // No module has number 16.
    [if kind == 1 || kind == 4 {
        u16::from(module)
    } else {
        16
    }]
}

/// Whether the stage and the reference implementation tell the same of a module of one word, of which this
/// byte is another one.
fn both_tell_the_same(
    rt: &(impl Threads + Wait + Sync + AllocGlobal),
    at: usize,
    byte: u8,
) -> bool {
    let mut bytes = MODULE_0;
    if at < 40 {
        bytes[at] = byte;
    }
    let modules = claimed_by(bytes[0], bytes[2]);
    let Ok(plain) = plainly(rt.alloc(), &[Given::whole(&bytes, &modules)]) else {
        return false;
    };
    let Ok(told) = loaded(rt, &[&bytes], usize::MAX, 1, &OpenGate) else {
        return false;
    };
    plain == told
}

/// The first place of a module of one word at which this byte makes the stage and the reference implementation
/// tell otherwise than each other.
fn first_spoiled_otherwise(
    rt: &(impl Threads + Wait + Sync + AllocGlobal),
    byte: u8,
) -> Option<usize> {
    for at in 0..40usize {
        if !both_tell_the_same(rt, at, byte) {
            return Some(at);
        }
    }
    None
}

#[test]
fn spoiled_in_every_byte(rt: HostRuntime) {
    for byte in [0u8, 1, 2, 3, 4, 16, 128, 255] {
        assert!(rt; first_spoiled_otherwise(&rt, byte).is_none());
    }
}

/// Whether the stage and the reference implementation, for which these modules are claimed, both tell this of
/// a text.
pub fn both_tell(
    rt: &(impl Threads + Wait + Sync + AllocGlobal),
    bytes: &[u8],
    modules: &[u16],
    want: &str,
) -> bool {
    let plain = tells_plainly(rt.alloc(), &[Given::whole(bytes, modules)], want);
    plain && tells(rt, &[bytes], usize::MAX, 1, want)
}

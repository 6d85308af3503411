//! The stream of one module of one word, RET, in any pieces and cut anywhere.

use crate::frames::headers::{open, page};
use lfi_frame::{Feed, FrameFault, Got, Step};
use lfi_module::{Extent, ModuleNumber, PageSize, Profile, WordCount};

/// Open, one page of the word 0xd65f03c0, Close.
const ONE_RET: [u8; 40] = [
    1, 0, 0, 0, 1, 0, 0, 0, 0, 0, 0, 0, // Open of module 0: 1 word, entry 0
    2, 0, 0, 0, 0, 0, 0, 0, 4, 0, 0, 0, // Page 0, 4 bytes
    0xc0, 0x03, 0x5f, 0xd6, // RET
    3, 0, 0, 0, 0, 0, 0, 0, 0, 0, 0, 0, // Close
];

/// What it brings: the Open, the page's header, the end of the page, the Close, and nothing more.
fn messages() -> [Got; 5] {
    let module = ModuleNumber::at(0);
    let extent = Extent::of(WordCount::of(1), 0, Profile::One, PageSize::SMALL);
    [
        open(module, extent),
        page(module, PageSize::SMALL, 0, 4),
        Got::Payload { ended: true },
        Got::Close { module },
        Got::More,
    ]
}

/// What a feed tells of bytes: what came to its end, in its order, how many pieces of a payload came before the last
/// one, and the fault that it ends with.
type Fed = ([Got; 5], usize, Option<FrameFault>);

/// What a feed tells of bytes that come in pieces of this many, each used up before the next.
fn told(bytes: &[u8], piece: usize) -> Fed {
    let mut feed = Feed::new();
    let mut got = [Got::More; 5];
    let (mut count, mut parts) = (0usize, 0usize);
    let mut rest = bytes;
    let mut left = piece;
    for _ in 0..bytes.len() {
        match feed.feed(&rest[..left.min(rest.len())]) {
            Ok(Step { used, got: one }) => {
                rest = &rest[used..];
                left = if used < left { left - used } else { piece };
                match one {
                    Got::More => {}
                    Got::Payload { ended: false } => parts = parts.saturating_add(1),
                    _ => {
                        got[count.min(4)] = one;
                        count = count.saturating_add(1);
                    }
                }
            }
            Err((_, fault)) => return (got, parts, Some(fault)),
        }
    }
    (got, parts, feed.end().err())
}

/// Whether each call on one feed uses this number of bytes from there and brings this, and the stream may end then.
fn is_told(calls: &[(usize, usize, Got)]) -> bool {
    let mut feed = Feed::default();
    let mut all = true;
    for (from, used, got) in calls {
        let step = Step {
            used: *used,
            got: *got,
        };
        all = feed.feed(&ONE_RET[(*from).min(40)..]) == Ok(step) && all;
    }
    all && feed.end().is_ok()
}

#[test]
fn call_by_call(rt: HostRuntime) {
    let [open, page, payload, close, more] = messages();
    let calls = [
        (0, 12, open),
        (12, 12, page),
        (24, 4, payload),
        (28, 12, close),
        (40, 0, more),
    ];
    assert!(rt; is_told(&calls));
}

#[test]
fn in_pieces_of_any_size(rt: HostRuntime) {
    assert!(rt; told(&ONE_RET, 1) == (messages(), 3, None));
    for piece in 4..=40usize {
        let (got, _, fault) = told(&ONE_RET, piece);
        assert!(rt;
            got == messages() && fault.is_none(),
            "in pieces of {piece}"
        );
    }
}

/// The first bytes, from one length to another: how many messages they bring, with the page's header, and the fault.
type Cut = (usize, usize, usize, Option<FrameFault>);

const CUTS: [Cut; 8] = [
    (0, 0, 0, None),
    (1, 11, 0, Some(FrameFault::Ended)),
    (12, 12, 1, None),
    (13, 23, 1, Some(FrameFault::Ended)),
    (24, 27, 2, Some(FrameFault::Ended)),
    (28, 28, 3, None),
    (29, 39, 3, Some(FrameFault::Ended)),
    (40, 40, 4, None),
];

/// The first length of a row at which its bytes bring anything else, at once or byte by byte.
fn first_other(row: &Cut) -> Option<usize> {
    let (first, last, count, fault) = *row;
    let mut want = messages();
    for place in count..5 {
        want[place] = Got::More;
    }
    for len in first..=last {
        let bytes = &ONE_RET[..len.min(40)];
        let (slow, _, slow_fault) = told(bytes, 1);
        let (fast, _, fast_fault) = told(bytes, 40);
        if slow != want || slow_fault != fault || fast != want || fast_fault != fault {
            return Some(len);
        }
    }
    None
}

#[test]
fn every_cut(rt: HostRuntime) {
    for row in CUTS.iter() {
        let other = first_other(row);
        assert!(rt; other.is_none(), "at {other:?} bytes");
    }
}

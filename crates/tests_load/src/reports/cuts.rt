//! The stream of one module of one word, cut at every byte.

use crate::build::Sent::{Close, Open, Page};
use crate::build::{MODULE_0, RET, Sent, one_word, text_of};
use crate::reports::plain::{Given, tells_plainly};
use lfi_model::EndCause;
use std::alloc::Global;

/// What is told of nothing, of a part of the first header, of a part of the module, and of all of it,
/// where the input came to its end.
const ENDED: [&str; 4] = [
    "strays 0\n",
    "connection 0: fault 9\nstrays 0\n",
    "module 0: lost, fault 9\nconnection 0: fault 9\nstrays 0\n",
    "module 0: complete, 1 words\nstrays 0\n",
];

/// The same where a read failed.
const FAILED: [&str; 4] = [
    "connection 0: fault 10\nstrays 0\n",
    "connection 0: fault 10\nstrays 0\n",
    "module 0: lost, fault 10\nconnection 0: fault 10\nstrays 0\n",
    "module 0: complete, 1 words\nconnection 0: fault 10\nstrays 0\n",
];

/// The same where there was no memory.
const STARVED: [&str; 4] = [
    "connection 0: fault 8\nstrays 0\n",
    "connection 0: fault 8\nstrays 0\n",
    "module 0: no memory\nconnection 0: fault 8\nstrays 0\n",
    "module 0: complete, 1 words\nconnection 0: fault 8\nstrays 0\n",
];

/// What is told of the first `len` bytes of a module of one word.
pub fn cut_short(len: usize, cause: EndCause) -> &'static str {
    let told = match cause {
        EndCause::End => &ENDED,
        EndCause::Failed => &FAILED,
        EndCause::Starved => &STARVED,
    };
    match len {
        0 => told[0],
        1..=11 => told[1],
        12..=39 => told[2],
        _ => told[3],
    }
}

/// The first length at which the reference implementation tells otherwise of a module of one word that is cut
/// there, where its input ended so.
fn first_otherwise(alloc: Global, cause: EndCause) -> Option<usize> {
    for len in 0..=40usize {
        let given = Given::of(&MODULE_0[..len], cause, &[0]);
        if !tells_plainly(alloc, &[given], cut_short(len, cause)) {
            return Some(len);
        }
    }
    None
}

#[test]
fn cut_at_every_byte(rt: HostRuntime) {
    for cause in [EndCause::End, EndCause::Failed, EndCause::Starved] {
        assert!(rt; first_otherwise(rt.alloc(), cause).is_none());
    }
}

/// Whether what is sent has these bytes.
fn has_bytes(alloc: Global, sent: &[Sent], bytes: &[u8]) -> bool {
    match text_of(alloc, sent) {
        Ok(text) => text.as_slice() == bytes,
        Err(_) => false,
    }
}

#[test]
fn the_bytes_by_hand(rt: HostRuntime) {
    let sent = [Open(0, 1), Page(0, 0, 1, RET), Close(0)];
    assert!(rt; has_bytes(rt.alloc(), &sent, &MODULE_0) && one_word(0, RET) == MODULE_0);
}

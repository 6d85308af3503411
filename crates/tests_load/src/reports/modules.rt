//! What is placed of modules of one page and of two.

use crate::build::Sent::{Close, Full, Open, Page};
use crate::build::{GUARD_LINK, LOAD_LINK, NOP, RET, SVC, Sent, WRITE_BASE, text_of};
use crate::reports::plain::{Given, placed_of};
use std::alloc::{AllocError, Global};

/// What is sent of module 0, how many of its pages are placed, and how many words the first of them
/// has.
#[derive(Clone, Copy)]
struct Row {
    sent: &'static [Sent],
    pages: usize,
    words: usize,
}

const ROWS: [Row; 5] = [
    Row {
        sent: &[Open(0, 1), Page(0, 0, 1, RET), Close(0)],
        pages: 1,
        words: 1,
    },
    Row {
        sent: &[Open(0, 1), Page(0, 0, 1, SVC), Close(0)],
        pages: 0,
        words: 0,
    },
    Row {
        sent: &[
            Open(0, 1025),
            Full(0, 0, 1023, LOAD_LINK),
            Page(0, 1, 1, GUARD_LINK),
            Close(0),
        ],
        pages: 2,
        words: 1024,
    },
    Row {
        sent: &[
            Open(0, 1025),
            Full(0, 0, 1023, LOAD_LINK),
            Page(0, 1, 1, NOP),
            Close(0),
        ],
        pages: 1,
        words: 1024,
    },
    Row {
        sent: &[
            Open(0, 1025),
            Full(0, 0, 5, SVC),
            Page(0, 1, 1, WRITE_BASE),
            Close(0),
        ],
        pages: 0,
        words: 0,
    },
];

/// How many pages are placed of what is sent, and how many words the first of them has.
fn placed_of_sent(alloc: Global, sent: &[Sent]) -> Result<(usize, usize), AllocError> {
    let text = text_of(alloc, sent)?;
    placed_of(alloc, Given::whole(text.as_slice(), &[0]))
}

/// Whether so much of a row is placed.
fn is_placed(alloc: Global, row: &Row) -> bool {
    match placed_of_sent(alloc, row.sent) {
        Ok((pages, words)) => pages == row.pages && words == row.words,
        Err(_) => false,
    }
}

#[test]
fn placed_pages(rt: HostRuntime) {
    for row in &ROWS {
        assert!(rt; is_placed(rt.alloc(), row));
    }
}

//! Streams of one connection with what is told of them, by the stage and by the reference implementation.

use crate::build::Sent::{Close, Full, Large, Open, OpenLarge, Page, Pages};
use crate::build::{GUARD_LINK, LOAD_LINK, NOP, RET, SVC, Sent, WRITE_BASE, text_of};
use crate::reports::stage::both_tell;
use std::sync::Wait;
use std::thread::Threads;

/// SUB SP, SP, #16: asks for an access through sp next.
const MOVE_STACK: u32 = 0xD10043FF;

/// What is sent, and what is told of it.
#[derive(Clone, Copy)]
struct Row {
    sent: &'static [Sent],
    want: &'static str,
}

/// All modules.
const ALL: [u16; 16] = [0, 1, 2, 3, 4, 5, 6, 7, 8, 9, 10, 11, 12, 13, 14, 15];

/// What is told where all are open at the end.
const ALL_LOST: &str = "\
module 0: lost, fault 9
module 1: lost, fault 9
module 2: lost, fault 9
module 3: lost, fault 9
module 4: lost, fault 9
module 5: lost, fault 9
module 6: lost, fault 9
module 7: lost, fault 9
module 8: lost, fault 9
module 9: lost, fault 9
module 10: lost, fault 9
module 11: lost, fault 9
module 12: lost, fault 9
module 13: lost, fault 9
module 14: lost, fault 9
module 15: lost, fault 9
connection 0: fault 9
strays 0
";

const ROWS: [Row; 29] = [
    // Modules of one page and of two, lawful and not.
    Row {
        sent: &[Open(0, 1), Page(0, 0, 1, RET), Close(0)],
        want: "module 0: complete, 1 words\nstrays 0\n",
    },
    Row {
        sent: &[Open(0, 1), Page(0, 0, 1, NOP), Close(0)],
        want: "module 0: complete, 1 words\nstrays 0\n",
    },
    Row {
        sent: &[Open(0, 1), Page(0, 0, 1, 0xD4000000), Close(0)],
        want: "module 0: refused, word 0 rule 1\nstrays 0\n",
    },
    Row {
        sent: &[Open(0, 1), Page(0, 0, 1, MOVE_STACK), Close(0)],
        want: "module 0: refused, word 0 rule 10\nstrays 0\n",
    },
    Row {
        sent: &[
            Open(0, 1025),
            Full(0, 0, 1023, LOAD_LINK),
            Page(0, 1, 1, GUARD_LINK),
            Close(0),
        ],
        want: "module 0: complete, 1025 words\nstrays 0\n",
    },
    Row {
        sent: &[
            Open(0, 1025),
            Full(0, 0, 1023, LOAD_LINK),
            Page(0, 1, 1, NOP),
            Close(0),
        ],
        want: "module 0: refused, word 1024 rule 10\nstrays 0\n",
    },
    Row {
        sent: &[
            Open(0, 1025),
            Full(0, 0, 5, SVC),
            Page(0, 1, 1, WRITE_BASE),
            Close(0),
        ],
        want: "module 0: refused, word 5 rule 1\nstrays 0\n",
    },
    Row {
        sent: &[Open(0, 1025), Full(0, 0, 1023, MOVE_STACK), Close(0)],
        want: "module 0: incomplete, 1 of 2 pages\nstrays 0\n",
    },
    Row {
        sent: &[Open(0, 2), Page(0, 0, 2, RET), Close(0)],
        want: "module 0: complete, 2 words\nstrays 0\n",
    },
    Row {
        sent: &[Open(15, 1023), Page(15, 0, 1023, RET), Close(15)],
        want: "module 15: complete, 1023 words\nstrays 0\n",
    },
    Row {
        sent: &[Open(7, 1024), Page(7, 0, 1024, RET), Close(7)],
        want: "module 7: complete, 1024 words\nstrays 0\n",
    },
    Row {
        sent: &[Open(9, 67584), Pages(9, 66), Close(9)],
        want: "module 9: complete, 67584 words\nstrays 0\n",
    },
    // Pages that aren't due, strays, and modules that are closed early or not at all.
    Row {
        sent: &[Open(3, 1), Close(3)],
        want: "module 3: incomplete, 0 of 1 pages\nstrays 0\n",
    },
    Row {
        sent: &[Open(3, 1025), Close(3)],
        want: "module 3: incomplete, 0 of 2 pages\nstrays 0\n",
    },
    Row {
        sent: &[Open(3, 4194304), Close(3)],
        want: "module 3: incomplete, 0 of 4096 pages\nstrays 0\n",
    },
    Row {
        sent: &[Open(5, 2048), Pages(5, 1), Close(5)],
        want: "module 5: incomplete, 1 of 2 pages\nstrays 0\n",
    },
    Row {
        sent: &[Open(5, 2048), Pages(5, 1), Pages(5, 1), Close(5)],
        want: "module 5: page fault, index 0\nstrays 1\n",
    },
    Row {
        sent: &[Open(0, 1), Page(0, 1, 1, RET), Close(0)],
        want: "module 0: page fault, index 1\nstrays 1\n",
    },
    Row {
        sent: &[Open(0, 2), Page(0, 0, 1, RET), Close(0)],
        want: "module 0: page fault, index 0\nstrays 1\n",
    },
    Row {
        sent: &[
            Open(0, 1),
            Page(0, 0, 1, RET),
            Close(0),
            Open(0, 1),
            Close(0),
        ],
        want: "module 0: complete, 1 words\nstrays 2\n",
    },
    Row {
        sent: &[
            Open(3, 1),
            Open(4, 1),
            Page(4, 0, 1, RET),
            Page(3, 0, 1, RET),
            Close(4),
            Close(3),
        ],
        want: "module 3: complete, 1 words\nmodule 4: complete, 1 words\nstrays 0\n",
    },
    Row {
        sent: &[Open(1, 1), Open(0, 1), Page(0, 0, 1, RET), Close(0)],
        want: "module 0: complete, 1 words\nmodule 1: lost, fault 9\nconnection 0: fault 9\nstrays 0\n",
    },
    // Modules of large pages.
    Row {
        sent: &[
            OpenLarge(0, 4097),
            Large(0, 0, 4096, NOP),
            Large(0, 1, 1, NOP),
            Close(0),
        ],
        want: "module 0: complete, 4097 words\nstrays 0\n",
    },
    Row {
        sent: &[OpenLarge(0, 4097), Large(0, 0, 4096, NOP), Close(0)],
        want: "module 0: incomplete, 1 of 2 pages\nstrays 0\n",
    },
    Row {
        sent: &[
            OpenLarge(0, 4097),
            Large(0, 0, 4096, LOAD_LINK),
            Large(0, 1, 1, NOP),
            Close(0),
        ],
        want: "module 0: refused, word 4096 rule 10\nstrays 0\n",
    },
    Row {
        sent: &[OpenLarge(0, 4097), Full(0, 0, 0, NOP), Close(0)],
        want: "module 0: page fault, index 0\nstrays 1\n",
    },
    Row {
        sent: &[Open(0, 1), Large(0, 0, 1, NOP), Close(0)],
        want: "module 0: page fault, index 0\nstrays 1\n",
    },
    Row {
        sent: &[Large(1, 0, 1, NOP)],
        want: "strays 1\n",
    },
    // All modules, which are opened and not closed.
    Row {
        sent: &[
            Open(0, 1),
            Open(1, 1),
            Open(2, 1),
            Open(3, 1),
            Open(4, 1),
            Open(5, 1),
            Open(6, 1),
            Open(7, 1),
            Open(8, 1),
            Open(9, 1),
            Open(10, 1),
            Open(11, 1),
            Open(12, 1),
            Open(13, 1),
            Open(14, 1),
            Open(15, 1),
        ],
        want: ALL_LOST,
    },
];

/// Whether the stage and the reference implementation both tell what is wanted of a row.
fn is_told(rt: &(impl Threads + Wait + Sync + AllocGlobal), row: &Row) -> bool {
    match text_of(rt.alloc(), row.sent) {
        Ok(text) => both_tell(rt, text.as_slice(), &ALL, row.want),
        Err(_) => false,
    }
}

#[test]
fn both_tell_what_is_wanted(rt: HostRuntime) {
    for (place, row) in ROWS.iter().enumerate() {
        assert!(rt; is_told(&rt, row), "row {place}");
    }
}

/// Streams of one header, for which module 0 alone is claimed, and what is told of each.
const HEADERS: [([u8; 12], &str); 10] = [
    (
        [6, 1, 0, 0, 0, 0, 0, 0, 0, 0, 0, 0],
        "connection 0: fault 1\nstrays 0\n",
    ),
    (
        [4, 1, 0, 0, 0, 0, 0, 0, 0, 0, 0, 0],
        "connection 0: fault 2\nstrays 0\n",
    ),
    (
        [2, 1, 0x10, 0, 0, 0, 0, 0, 0, 0, 0, 0],
        "connection 0: fault 2\nstrays 0\n",
    ),
    (
        [1, 0, 0x10, 0, 1, 0, 0, 0, 0, 0, 0, 0],
        "connection 0: fault 3\nstrays 0\n",
    ),
    (
        [2, 0, 0, 0, 0, 0, 0, 0, 6, 0, 0, 0],
        "connection 0: fault 4\nstrays 0\n",
    ),
    (
        [3, 0, 0, 0, 1, 0, 0, 0, 0, 0, 0, 0],
        "connection 0: fault 5\nstrays 0\n",
    ),
    (
        [1, 0, 0, 0, 0, 0, 0, 0, 0, 0, 0, 0],
        "connection 0: fault 6\nstrays 0\n",
    ),
    (
        [1, 0, 0, 0, 1, 0, 0x40, 0, 0, 0, 0, 0],
        "connection 0: fault 6\nstrays 0\n",
    ),
    (
        [1, 0, 0, 0, 1, 0, 0, 0, 1, 0, 0, 0],
        "connection 0: fault 7\nstrays 0\n",
    ),
    (
        [1, 0, 0, 0, 1, 0, 0, 0, 0, 0, 0, 0],
        "module 0: lost, fault 9\nconnection 0: fault 9\nstrays 0\n",
    ),
];

#[test]
fn header_faults(rt: HostRuntime) {
    for (header, want) in &HEADERS {
        assert!(rt; both_tell(&rt, header, &[0], want));
    }
}

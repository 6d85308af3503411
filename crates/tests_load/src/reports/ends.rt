//! Two connections, of which the first sends all it has before the second begins: which has each module, where each
//! connection ended, and how many strays it has.

use crate::build::Sent::{Close, Large, Open, OpenLarge, Page};
use crate::build::{NOP, RET, Sent, text_of};
use crate::inputs::Pieces;
use crate::reports::turned::{pair, receive_all, settled_report};
use lfi_module::ModuleNumber;
use lfi_receive::{Input, MessageStart, ReceiverTurn};
use std::alloc::AllocError;
use std::sync::Wait;

/// What both connections send, how many bytes of the second come, and what is told then.
#[derive(Clone, Copy)]
struct Row {
    first: &'static [Sent],
    second: &'static [Sent],
    cut: usize,
    /// Which connection has the modules 0 and 3.
    holders: [Option<usize>; 2],
    /// Where the message begins at which each ended, in bytes.
    bytes: [u64; 2],
    /// The header with a fault of the second.
    header: [u8; 12],
    strays: [u64; 2],
}

const NONE: [u8; 12] = [0; 12];

const ROWS: [Row; 8] = [
    // The first opens what the second wants to send: all of the second are strays.
    Row {
        first: &[Open(0, 1), Open(3, 1)],
        second: &[Open(0, 1), Page(0, 0, 1, RET), Close(0)],
        cut: 40,
        holders: [Some(0), Some(0)],
        bytes: [24, 40],
        header: NONE,
        strays: [0, 3],
    },
    // Each has its own; the second is cut in a header, between two messages, and in a payload.
    Row {
        first: &[Open(0, 1), Page(0, 0, 1, RET), Close(0)],
        second: &[Open(3, 1), Page(3, 0, 1, RET), Close(3)],
        cut: 20,
        holders: [Some(0), Some(1)],
        bytes: [40, 12],
        header: NONE,
        strays: [0, 0],
    },
    Row {
        first: &[Open(0, 1), Page(0, 0, 1, RET), Close(0), Close(0)],
        second: &[Open(3, 1), Page(3, 0, 1, RET), Close(3)],
        cut: 28,
        holders: [Some(0), Some(1)],
        bytes: [52, 28],
        header: NONE,
        strays: [1, 0],
    },
    Row {
        first: &[],
        second: &[OpenLarge(3, 5), Large(3, 0, 5, NOP)],
        cut: 30,
        holders: [None, Some(1)],
        bytes: [0, 12],
        header: NONE,
        strays: [0, 0],
    },
    // A payload that is passed over, cut, and whole.
    Row {
        first: &[],
        second: &[Open(0, 1), Page(3, 0, 2, RET)],
        cut: 30,
        holders: [Some(1), None],
        bytes: [0, 12],
        header: NONE,
        strays: [0, 1],
    },
    Row {
        first: &[],
        second: &[Page(3, 0, 2, RET), Close(3)],
        cut: 20,
        holders: [None, None],
        bytes: [0, 20],
        header: NONE,
        strays: [0, 1],
    },
    // Headers with a fault: there is no module 16. The first one, and one behind a page.
    Row {
        first: &[],
        second: &[Open(16, 1), Open(0, 1)],
        cut: 24,
        holders: [None, None],
        bytes: [0, 0],
        header: [1, 0, 16, 0, 1, 0, 0, 0, 0, 0, 0, 0],
        strays: [0, 0],
    },
    Row {
        first: &[],
        second: &[Open(0, 2), Page(0, 0, 2, RET), Close(16)],
        cut: 44,
        holders: [Some(1), None],
        bytes: [0, 32],
        header: [3, 0, 16, 0, 0, 0, 0, 0, 0, 0, 0, 0],
        strays: [0, 0],
    },
];

/// What is told of the modules' holders and of both connections, and whether both finished.
#[derive(Clone, Copy)]
struct Seen {
    finished: bool,
    holders: [Option<usize>; ModuleNumber::COUNT],
    first: MessageStart,
    second: MessageStart,
    strays: [u64; 8],
}

/// What is told of these texts, the second after the first.
fn seen_of(
    rt: &(impl Wait + AllocGlobal),
    first: &[u8],
    second: &[u8],
) -> Result<Seen, AllocError> {
    let mut one = Input::new(rt.alloc(), Pieces::of(first, usize::MAX))?;
    let mut other = Input::new(rt.alloc(), Pieces::of(second, usize::MAX))?;
    let mut stage = pair(rt.alloc())?;
    let did = receive_all(&mut stage, 0, &mut one, 99);
    let then = receive_all(&mut stage, 1, &mut other, 99);
    let report = settled_report(rt, stage);
    Ok(Seen {
        finished: did == ReceiverTurn::Finished && then == ReceiverTurn::Finished,
        holders: report.holders,
        first: report.starts[0],
        second: report.starts[1],
        strays: report.connection_strays,
    })
}

/// What is told of a row.
fn seen_in(rt: &(impl Wait + AllocGlobal), row: &Row) -> Result<Seen, AllocError> {
    let first = text_of(rt.alloc(), row.first)?;
    let second = text_of(rt.alloc(), row.second)?;
    let cut = row.cut.min(second.len());
    seen_of(rt, first.as_slice(), &second.as_slice()[..cut])
}

#[test]
fn who_has_what_and_where_each_ended(rt: HostRuntime) {
    for row in &ROWS {
        let seen = seen_in(&rt, row).expect(&rt, "memory");
        assert!(rt; seen.finished);
        let holders = row.holders;
        assert!(rt; seen.holders[0] == holders[0]);
        assert!(rt; seen.holders[3] == holders[1]);
        assert!(rt; seen.first.byte == row.bytes[0]);
        assert!(rt; seen.second.byte == row.bytes[1]);
        let header = row.header;
        assert!(rt; seen.second.header == header);
        assert!(rt; seen.strays[0] == row.strays[0]);
        assert!(rt; seen.strays[1] == row.strays[1]);
    }
}

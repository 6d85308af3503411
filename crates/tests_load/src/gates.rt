//! Verifiers beside each other, notices of refused modules, and a stream that comes slowly.

ghost use Rattle.std.specs.Prelude.{◌≤◌};

use crate::build::Sent::{Close, Full, Open, Page};
use crate::build::{NOP, RET, STRAY, SVC, Sent, WRITE_BASE, is_told, text_of};
use crate::inputs::{Pieces, comes_to, loaded_of, reported};
use lfi_loader::{LoadError, Notices};
use lfi_model::{Item, Judged, Summary};
use lfi_module::ModuleNumber;
use lfi_sequence::{Gate, OpenGate};
use std::io::{self, Read};
use std::sync::Wait;
use std::sync::atomic::{AtomicU64, Ordering};
use std::thread::Threads;

/// A gate that keeps page 0 (ordinal 1) from being judged before page 1 (ordinal 2) was.
#[derive(Drop)]
struct SecondFirst {
    judged: AtomicU64,
    seen: AtomicU64,
    after: AtomicU64,
}

impl Gate for SecondFirst {
    fn before(&self, item: &Item) {
        if item.ordinal == 1 && comes_to(&self.judged, 1) {
            self.seen.store(1, Ordering::SeqCst);
        }
    }

    fn after(&self, item: &Judged) {
        self.after.fetch_add(1, Ordering::SeqCst);
        if item.ordinal == 2 {
            self.judged.store(1, Ordering::SeqCst);
        }
    }
}

/// What is sent of module 0, of which page 1 is judged first, and what is told of it. How many items
/// come to the gate after they were judged, where all are judged in each schedule.
#[derive(Clone, Copy)]
struct Row {
    sent: &'static [Sent],
    want: &'static str,
    after: Option<u64>,
}

const ROWS: [Row; 3] = [
    Row {
        sent: &[
            Open(0, 1025),
            Full(0, 0, 5, NOP),
            Page(0, 1, 1, NOP),
            Close(0),
        ],
        want: "module 0: complete, 1025 words\nstrays 0\n",
        after: Some(4),
    },
    // The first fault is told, though the second one was judged first.
    Row {
        sent: &[
            Open(0, 1025),
            Full(0, 0, 5, SVC),
            Page(0, 1, 1, WRITE_BASE),
            Close(0),
        ],
        want: "module 0: refused, word 5 rule 1\nstrays 0\n",
        after: None,
    },
    // The stream ends before the Close: the end of the module is judged, too.
    Row {
        sent: &[Open(0, 1025), Full(0, 0, 5, NOP), Page(0, 1, 1, NOP)],
        want: "module 0: lost, fault 9\nconnection 0: fault 9\nstrays 0\n",
        after: Some(4),
    },
];

/// Whether page 1 of a row is judged first, and what is told and counted then is what the row says.
fn is_so<S: Threads + Wait + Sync + AllocGlobal>(rt: &S, row: &Row) -> bool {
    let gate = SecondFirst {
        judged: AtomicU64::new(0),
        seen: AtomicU64::new(0),
        after: AtomicU64::new(0),
    };
    let told = loaded_of(rt, row.sent, 2, &gate);
    let seen = gate.seen.load(Ordering::SeqCst) == 1;
    let after = gate.after.load(Ordering::SeqCst);
    let counted = row.after.unwrap_or(after) == after;
    seen && counted && is_told(rt.alloc(), told, row.want)
}

#[test]
fn page_1_is_judged_first(rt: HostRuntime) {
    for row in &ROWS {
        assert!(rt; is_so(&rt, row));
    }
}

/// Notices that are counted, and the module of the last one, plus 1.
#[derive(Drop)]
struct Counted {
    count: AtomicU64,
    module: AtomicU64,
}

impl Notices for Counted {
    fn refused(&self, module: ModuleNumber) {
        self.count.fetch_add(1, Ordering::SeqCst);
        self.module
            .store(u64::from(module.number()) + 1, Ordering::SeqCst);
    }
}

/// How many strays come, at most.
const TURNS: u32 = 10_000_000;

/// A text, and then headers that are strays, until a notice has come.
#[derive(Clone, Copy)]
struct UntilNoticed<'a> {
    text: Pieces<'a>,
    notices: &'a Counted,
    turns: u32,
}

impl<'a> UntilNoticed<'a> {
    fn of(text: &'a [u8], notices: &'a Counted) -> UntilNoticed<'a> {
        let text = Pieces::of(text, 4096);
        UntilNoticed {
            text,
            notices,
            turns: TURNS,
        }
    }
}

impl<'a> Read for UntilNoticed<'a> {
    fn read(&mut self, buf: &mut [u8]) -> io::Result<usize> {
        let done = self.notices.count.load(Ordering::SeqCst) != 0 || self.turns == 0;
        if !self.text.left.is_empty() || done || buf.len() < 12 {
            return self.text.read(buf);
        }
        self.turns -= 1;
        buf[..12].copy_from_slice(&STRAY);
        Ok(12)
    }
}

/// What is sent, the number of the module of it that is refused, and what is told.
#[derive(Clone, Copy)]
struct Refused {
    sent: &'static [Sent],
    module: u64,
    want: &'static str,
}

const REFUSED: [Refused; 2] = [
    Refused {
        sent: &[
            Open(0, 1025),
            Full(0, 0, 5, SVC),
            Page(0, 1, 1, NOP),
            Close(0),
        ],
        module: 0,
        want: "module 0: refused, word 5 rule 1\nstrays 0\n",
    },
    // Module 15 is refused, and module 1 isn't.
    Refused {
        sent: &[
            Open(15, 1),
            Page(15, 0, 1, SVC),
            Close(15),
            Open(1, 1),
            Page(1, 0, 1, RET),
            Close(1),
        ],
        module: 15,
        want: "module 1: complete, 1 words\nmodule 15: refused, word 0 rule 1\nstrays 0\n",
    },
];

/// A report as if no stray had come. How many came depends on the threads.
fn without_strays(told: Result<Summary, LoadError>) -> Result<Summary, LoadError> {
    let mut told = told?;
    told.strays = 0;
    Ok(told)
}

/// The report on what is sent, as if no strays had followed it until a notice came.
fn noticed<S: Threads + Wait + Sync + AllocGlobal>(
    rt: &S,
    sent: &[Sent],
    notices: &Counted,
) -> Result<Summary, LoadError> {
    let text = text_of(rt.alloc(), sent)?;
    let reader = UntilNoticed::of(text.as_slice(), notices);
    without_strays(reported(rt, &[reader], 2, &OpenGate, notices))
}

/// Whether one notice comes of what is sent and of the strays that follow it until then, of the
/// module that is refused, and this is told.
fn is_told_once<S: Threads + Wait + Sync + AllocGlobal>(rt: &S, row: &Refused) -> bool {
    let notices = Counted {
        count: AtomicU64::new(0),
        module: AtomicU64::new(0),
    };
    let told = noticed(rt, row.sent, &notices);
    let once = notices.count.load(Ordering::SeqCst) == 1;
    let its = notices.module.load(Ordering::SeqCst) == row.module.saturating_add(1);
    once && its && is_told(rt.alloc(), told, row.want)
}

#[test]
fn a_refused_module_is_told_of_once(rt: HostRuntime) {
    for row in &REFUSED {
        assert!(rt; is_told_once(&rt, row));
    }
}

/// A gate that counts the items that were judged.
#[derive(Drop)]
struct Judgings {
    count: AtomicU64,
}

impl Gate for Judgings {
    fn before(&self, _item: &Item) {}

    fn after(&self, _item: &Judged) {
        self.count.fetch_add(1, Ordering::SeqCst);
    }
}

/// How many bytes a module of one word has, and how many items.
const MODULE_BYTES: usize = 40;

const MODULE_ITEMS: u64 = 3;

/// A text of such modules, one a read, and then strays until a notice has come. Each read waits until all items of what came
/// before were judged. Those that wait in vain are counted.
#[derive(Clone, Copy)]
struct Trickle<'a> {
    modules: UntilNoticed<'a>,
    items: u64,
    judged: &'a AtomicU64,
    late: &'a AtomicU64,
}

impl<'a> Read for Trickle<'a> {
    fn read(&mut self, buf: &mut [u8]) -> io::Result<usize> {
        if !comes_to(self.judged, self.items) {
            self.late.fetch_add(1, Ordering::SeqCst);
        }
        if !self.modules.text.left.is_empty() {
            self.items = self.items.saturating_add(MODULE_ITEMS);
        }
        self.modules.read(buf)
    }
}

const TRICKLE: [Sent; 12] = [
    Open(0, 1),
    Page(0, 0, 1, NOP),
    Close(0),
    Open(1, 1),
    Page(1, 0, 1, RET),
    Close(1),
    Open(2, 1),
    Page(2, 0, 1, NOP),
    Close(2),
    Open(3, 1),
    Page(3, 0, 1, SVC),
    Close(3),
];

const TRICKLED: &str =
    "module 0: complete, 1 words\nmodule 1: complete, 1 words\nmodule 2: complete, 1 words\nmodule 3: refused, word 0 rule 1\nstrays 0\n";

/// Whether each module of a stream that comes slowly is judged before the next one comes, and the last one is placed while the
/// stream is open: it is refused, and a notice tells it.
fn is_judged_as_it_comes<S: Threads + Wait + Sync + AllocGlobal>(rt: &S, verifiers: usize) -> bool
    requires verifiers { (1 ≤ verifiers) × (verifiers ≤ 8) }
{
    let Ok(text) = text_of(rt.alloc(), &TRICKLE) else {
        return false;
    };
    let notices = Counted {
        count: AtomicU64::new(0),
        module: AtomicU64::new(0),
    };
    let gate = Judgings {
        count: AtomicU64::new(0),
    };
    let late = AtomicU64::new(0);
    let mut modules = UntilNoticed::of(text.as_slice(), &notices);
    modules.text.most = MODULE_BYTES;
    let reader = Trickle {
        modules,
        items: 0,
        judged: &gate.count,
        late: &late,
    };
    let told = without_strays(reported(rt, &[reader], verifiers, &gate, &notices));
    let once = notices.count.load(Ordering::SeqCst) == 1;
    late.load(Ordering::SeqCst) == 0 && once && is_told(rt.alloc(), told, TRICKLED)
}

#[test]
fn a_stream_that_comes_slowly(rt: HostRuntime) {
    assert!(rt; is_judged_as_it_comes(&rt, 1));
    assert!(rt; is_judged_as_it_comes(&rt, 2));
    assert!(rt; is_judged_as_it_comes(&rt, 8));
}

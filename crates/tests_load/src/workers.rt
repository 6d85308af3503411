//! What a gate sees of verifiers, one alone and eight beside each other.

use crate::build::Sent::{Close, Full, Open, Page};
use crate::build::{NOP, RET, Sent, eight, is_told, one_word};
use crate::inputs::{comes_to, loaded, loaded_of};
use lfi_loader::LoadError;
use lfi_model::{Item, Judged, Summary};
use lfi_sequence::Gate;
use std::alloc::{AllocError, Global};
use std::sync::Wait;
use std::sync::atomic::{AtomicU64, Ordering};
use std::thread::Threads;

/// A gate that counts what comes to it before and after it is judged, and what comes otherwise than
/// in turns.
#[derive(Drop)]
struct InTurns {
    before: AtomicU64,
    after: AtomicU64,
    otherwise: AtomicU64,
}

impl Gate for InTurns {
    fn before(&self, _item: &Item) {
        let before = self.before.fetch_add(1, Ordering::SeqCst);
        if self.after.load(Ordering::SeqCst) != before {
            self.otherwise.store(1, Ordering::SeqCst);
        }
    }

    fn after(&self, _item: &Judged) {
        let after = self.after.fetch_add(1, Ordering::SeqCst);
        if self.before.load(Ordering::SeqCst) != after.saturating_add(1) {
            self.otherwise.store(1, Ordering::SeqCst);
        }
    }
}

/// A module of 1,025 NOPs.
const TWO_PAGES: [Sent; 4] = [
    Open(0, 1025),
    Full(0, 0, 0, NOP),
    Page(0, 1, 1, NOP),
    Close(0),
];

/// Whether this is told of a module of 1,025 NOPs that one verifier judges, and each of its four
/// items comes to the gate in its turn.
fn comes_in_turns<S: Threads + Wait + Sync + AllocGlobal>(rt: &S, want: &str) -> bool {
    let gate = InTurns {
        before: AtomicU64::new(0),
        after: AtomicU64::new(0),
        otherwise: AtomicU64::new(0),
    };
    let told = loaded_of(rt, &TWO_PAGES, 1, &gate);
    let counted = [
        gate.before.load(Ordering::SeqCst),
        gate.after.load(Ordering::SeqCst),
        gate.otherwise.load(Ordering::SeqCst),
    ];
    counted == [4, 4, 0] && is_told(rt.alloc(), told, want)
}

#[test]
fn one_verifier_comes_before_and_after_each_item(rt: HostRuntime) {
    assert!(rt; comes_in_turns(&rt, "module 0: complete, 1025 words\nstrays 0\n"));
}

/// A gate that keeps each page 0 (ordinal 1) until eight of them are there at the same time.
#[derive(Drop)]
struct EightMeet {
    there: AtomicU64,
    met: AtomicU64,
}

impl Gate for EightMeet {
    fn before(&self, item: &Item) {
        if item.ordinal != 1 {
            return;
        }
        self.there.fetch_add(1, Ordering::SeqCst);
        if comes_to(&self.there, 8) {
            self.met.fetch_add(1, Ordering::SeqCst);
        }
    }

    fn after(&self, _item: &Judged) {}
}

const EIGHT: &str = "\
module 0: complete, 1 words
module 1: complete, 1 words
module 2: complete, 1 words
module 3: complete, 1 words
module 4: complete, 1 words
module 5: complete, 1 words
module 6: complete, 1 words
module 7: complete, 1 words
strays 0
";

/// Modules 0 to 7, each of one word and in a text of its own, one text after the other.
fn eight_of_one_word(alloc: Global) -> Result<Vec<u8>, AllocError> {
    let mut texts = Vec::new(alloc);
    for module in 0..8u8 {
        texts.extend_from_slice(&one_word(module, RET))?;
    }
    Ok(texts)
}

/// The report on modules 0 to 7, which eight verifiers judge.
fn judged_by_eight<S: Threads + Wait + Sync + AllocGlobal>(
    rt: &S,
    gate: &EightMeet,
) -> Result<Summary, LoadError> {
    let texts = eight_of_one_word(rt.alloc())?;
    loaded(rt, &eight(texts.as_slice()), 4096, 8, gate)
}

/// Whether all eight verifiers meet, and this is told of what they judge.
fn eight_meet<S: Threads + Wait + Sync + AllocGlobal>(rt: &S, want: &str) -> bool {
    let gate = EightMeet {
        there: AtomicU64::new(0),
        met: AtomicU64::new(0),
    };
    let told = judged_by_eight(rt, &gate);
    gate.met.load(Ordering::SeqCst) == 8 && is_told(rt.alloc(), told, want)
}

#[test]
fn eight_verifiers_at_work_at_once(rt: HostRuntime) {
    assert!(rt; eight_meet(&rt, EIGHT));
}

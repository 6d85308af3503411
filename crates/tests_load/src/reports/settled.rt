//! Parts that are turned one by one and stop anywhere, and what is told once all is settled: always
//! what the texts make.

ghost use Rattle.tests_load.specs.Pairs.{IsPair};

use crate::build::Sent::{Close, Open, Page, Pages};
use crate::build::{MODULE_3, RET, Sent, is_text, text_of};
use crate::inputs::Pieces;
use crate::reports::turned::{go_on, pair, phase, place, receive_all, settled, verify_all};
use lfi_board::Phase;
use lfi_model::{Item, Judged, Summary};
use lfi_module::ModuleNumber;
use lfi_receive::{Input, ReceiverTurn};
use lfi_sequence::{Gate, SequencerTurn, VerifierTurn};
use lfi_stage::Stage;
use std::alloc::{AllocError, Global};
use std::sync::Wait;
use std::sync::atomic::{AtomicU64, Ordering};

/// The modules of the items that were judged, a hexadecimal digit each, the last one lowest.
#[derive(Drop)]
struct Digits {
    seen: AtomicU64,
}

impl Gate for Digits {
    fn before(&self, item: &Item) {
        let seen = self.seen.load(Ordering::SeqCst) % (1 << 60);
        self.seen.store(
            seen * 16 + u64::from(item.module.number()),
            Ordering::SeqCst,
        );
    }

    fn after(&self, _item: &Judged) {}
}

/// What is done with a stage, and what comes of it.
#[derive(Clone, Copy)]
enum Step {
    /// Receiver 0 turns until it has put the first text, at most so often, and the last turn does
    /// this.
    First(usize, ReceiverTurn),
    /// Receiver 1 does so with the second text.
    Second(usize, ReceiverTurn),
    /// Verifier 0 turns until a turn isn't Worked, at most so often. The second number says how many are Worked, and the
    /// last one does this.
    Verify(usize, usize, VerifierTurn),
    /// The sequencer of module 9 turns once, and does this.
    Sequence(SequencerTurn),
    /// Verifier 1 and all sequencers turn, for a number of rounds.
    GoOn(usize),
    /// Receiver 1 looks at module 3, and sees this.
    LookAt3(Phase),
    /// Receiver 0 looks at module 9, and sees this.
    LookAt9(Phase),
}

use Step::{First, GoOn, LookAt3, LookAt9, Second, Sequence, Verify};

/// The inputs of the two receivers, and the gate of their items.
#[derive(Drop)]
struct Inputs<'a> {
    first: Input<Pieces<'a>>,
    second: Input<Pieces<'a>>,
    gate: Digits,
}

/// Does a step. The answer is whether it comes to what it says.
fn take<S: Wait>(rt: &S, stage: &mut Stage, inputs: &mut Inputs<'_>, step: Step) -> bool
    requires { IsPair stage.old }
    ensures { IsPair stage.new }
{
    match step {
        First(most, did) => receive_all(stage, 0, &mut inputs.first, most) == did,
        Second(most, did) => receive_all(stage, 1, &mut inputs.second, most) == did,
        Verify(most, worked, did) => {
            let (turns, last) = verify_all(rt, stage, 0, &inputs.gate, most);
            turns == worked && last == did
        }
        Sequence(did) => place(rt, stage, 9) == did,
        GoOn(rounds) => {
            go_on(rt, stage, 1, rounds);
            true
        }
        LookAt3(sees) => phase(stage, 1, ModuleNumber::at(3)) == sees,
        LookAt9(sees) => phase(stage, 0, ModuleNumber::at(9)) == sees,
    }
}

/// Whether each of these steps comes to what it says.
fn take_all<S: Wait>(rt: &S, stage: &mut Stage, inputs: &mut Inputs<'_>, steps: &[Step]) -> bool
    requires { IsPair stage.old }
    ensures { IsPair stage.new }
{
    for step in steps {
        if !take(rt, stage, inputs, *step) {
            return false;
        }
    }
    true
}

/// The inputs of these texts.
fn inputs_of<'a>(
    alloc: Global,
    first: &'a [u8],
    second: &'a [u8],
) -> Result<Inputs<'a>, AllocError> {
    Ok(Inputs {
        first: Input::new(alloc, Pieces::of(first, usize::MAX))?,
        second: Input::new(alloc, Pieces::of(second, usize::MAX))?,
        gate: Digits {
            seen: AtomicU64::new(1),
        },
    })
}

/// Whether each step came to what it says, what is told once all is settled after them, and
/// the gate's digits before that.
#[derive(Clone, Copy)]
struct Seen {
    did: bool,
    told: Summary,
    digits: u64,
}

/// What a new stage comes to by these steps over these texts.
fn seen_of(
    rt: &(impl Wait + AllocGlobal),
    first: &[u8],
    second: &[u8],
    steps: &[Step],
) -> Result<Seen, AllocError> {
    let mut inputs = inputs_of(rt.alloc(), first, second)?;
    let mut stage = pair(rt.alloc())?;
    let did = take_all(rt, &mut stage, &mut inputs, steps);
    Ok(Seen {
        did,
        digits: inputs.gate.seen.load(Ordering::SeqCst),
        told: settled(rt, stage),
    })
}

/// How many full pages of NOPs the first text has, of module 9; the second is of one word, of module
/// 3. What is done, and what is told once all is settled after that.
#[derive(Clone, Copy)]
struct Row {
    pages: u32,
    steps: &'static [Step],
    want: &'static str,
}

/// More turns than any part takes.
const MANY: usize = 10_000;

/// The first text is put whole.
const PUT_FIRST: Step = First(MANY, ReceiverTurn::Finished);

/// The second text is put whole.
const PUT_SECOND: Step = Second(MANY, ReceiverTurn::Finished);

/// After 64 turns the verifier is blocked by a full lane.
const BLOCKED: Step = Verify(1000, 64, VerifierTurn::Blocked);

/// One turn of the verifier is blocked.
const STILL_BLOCKED: Step = Verify(1, 0, VerifierTurn::Blocked);

/// What is told where module 9 has 66 pages, and module 3 one word.
const BOTH: &str = "module 3: complete, 1 words\nmodule 9: complete, 67584 words\nstrays 0\n";

/// What is told where module 9 has 66 pages.
const NINTH: &str = "module 9: complete, 67584 words\nstrays 0\n";

/// What is told of the second text where its end wasn't put.
const LOST: &str = "module 3: lost, fault 9\nconnection 1: fault 9\nstrays 0\n";

const ROWS: [Row; 10] = [
    // A verifier stops with an item in hand.
    Row {
        pages: 66,
        steps: &[PUT_FIRST, BLOCKED],
        want: NINTH,
    },
    // Others go on without it.
    Row {
        pages: 66,
        steps: &[
            PUT_FIRST,
            BLOCKED,
            PUT_SECOND,
            GoOn(100),
            LookAt3(Phase::Done),
            LookAt9(Phase::Open),
        ],
        want: BOTH,
    },
    // A sequencer makes room.
    Row {
        pages: 66,
        steps: &[
            PUT_FIRST,
            BLOCKED,
            STILL_BLOCKED,
            Sequence(SequencerTurn::Worked),
            Verify(1, 1, VerifierTurn::Worked),
            STILL_BLOCKED,
        ],
        want: NINTH,
    },
    // All in the intake.
    Row {
        pages: 66,
        steps: &[PUT_FIRST, PUT_SECOND],
        want: BOTH,
    },
    // More than 256 in the intake.
    Row {
        pages: 300,
        steps: &[PUT_FIRST, PUT_SECOND],
        want: "module 3: complete, 1 words\nmodule 9: complete, 307200 words\nstrays 0\n",
    },
    // A receiver that isn't told the end, after each number of turns.
    Row {
        pages: 0,
        steps: &[Second(0, ReceiverTurn::More)],
        want: "strays 0\n",
    },
    Row {
        pages: 0,
        steps: &[Second(1, ReceiverTurn::More)],
        want: LOST,
    },
    Row {
        pages: 0,
        steps: &[Second(2, ReceiverTurn::More)],
        want: LOST,
    },
    Row {
        pages: 0,
        steps: &[Second(3, ReceiverTurn::More)],
        want: LOST,
    },
    Row {
        pages: 0,
        steps: &[Second(4, ReceiverTurn::More)],
        want: "module 3: complete, 1 words\nstrays 0\n",
    },
];

/// What a new stage comes to by these steps over what is sent first and a second text.
fn seen_of_sent(
    rt: &(impl Wait + AllocGlobal),
    sent: &[Sent],
    second: &[u8],
    steps: &[Step],
) -> Result<Seen, AllocError> {
    let first = text_of(rt.alloc(), sent)?;
    seen_of(rt, first.as_slice(), second, steps)
}

/// Whether a row comes to what it says.
fn is_so(rt: &(impl Wait + AllocGlobal), row: &Row) -> bool {
    let sent = [
        Open(9, row.pages.saturating_mul(1024)),
        Pages(9, row.pages),
        Close(9),
    ];
    match seen_of_sent(rt, &sent, &MODULE_3, row.steps) {
        Ok(seen) => seen.did && is_text(rt.alloc(), &seen.told, row.want),
        Err(_) => false,
    }
}

#[test]
fn parts_that_stop_anywhere(rt: HostRuntime) {
    for row in &ROWS {
        assert!(rt; is_so(&rt, row));
    }
}

/// Modules 9, 3 and 12 are opened, and none is closed; of module 3 a page comes.
const THREE_OPEN: [Sent; 4] = [Open(9, 1), Open(3, 1), Open(12, 1), Page(3, 0, 1, RET)];

/// The same of modules 15, 3 and 0, the last, one between and the first.
const FROM_THE_LAST: [Sent; 4] = [Open(15, 1), Open(3, 1), Open(0, 1), Page(3, 0, 1, RET)];

/// Seven turns of the verifier work, and then there is no item.
const SEVEN: Step = Verify(1000, 7, VerifierTurn::Idle);

/// Whether the verifier takes seven items of the three modules, whose numbers are these digits.
fn are_put_as(rt: &(impl Wait + AllocGlobal), sent: &[Sent], digits: u64) -> bool {
    match seen_of_sent(rt, sent, &[], &[PUT_FIRST, SEVEN]) {
        Ok(seen) => seen.did && seen.digits == digits,
        Err(_) => false,
    }
}

/// The order in which a connection puts its items, by what a verifier takes of them.
#[test]
fn ends_come_in_the_order_of_the_modules(rt: HostRuntime) {
    assert!(rt; are_put_as(&rt, &THREE_OPEN, 0x193C_339C));
    assert!(rt; are_put_as(&rt, &FROM_THE_LAST, 0x1F30_303F));
}

//! Verifiers: what they take, what they put in the lanes, and a lane that is full.

ghost use Rattle.std.specs.Prelude.{◌≡◌, Some, slice_get};
ghost use Rattle.lfi_sequence.specs.Handed.{AreLanes, lane_puts_of, take_pass_of};

use crate::items::{Part, UNKNOWN, WORDS, extent_of, item_of, mark};
use lfi_board::Board;
use lfi_model::{Item, ItemKind, Judged, Reason};
use lfi_module::{Profile, WordCount};
use lfi_queues::{Intake, Lane, LaneTake, PutPass};
use lfi_sequence::{Lanes, OpenGate, Verifier, VerifierTurn};
use std::process::Abort;
use std::sync::Wait;

/// A verifier with its intake, and the lane of the items' module.
#[derive(Drop)]
struct Row {
    intake: Intake<Item>,
    put: PutPass<Item>,
    lanes: Vec<Lane<Judged>>,
    take: LaneTake<Judged>,
    verifier: Verifier,
    ghost intakes: { (put.queue ≡ intake) × ((take_pass_of verifier).queue ≡ intake) },
    ghost passes: { AreLanes lanes.items (lane_puts_of verifier) },
    ghost takes: { slice_get lanes.items 3 ≡ Some take.queue },
}

impl Row {
    fn new(rt: &(impl Abort + AllocGlobal)) -> Row {
        let (intake, mut puts, mut takes) = Intake::new(rt.alloc(), 1, 1).expect(rt, "no intake");
        let Lanes {
            lanes,
            puts: mut rows,
            takes: mut taking,
        } = Lanes::new(rt.alloc(), 1).expect(rt, "no lanes");
        let (_, mut seats) = Board::new(rt.alloc(), 1, 1).expect(rt, "no board");
        let verifier = Verifier::new(
            takes.swap_remove(0),
            rows.swap_remove(0),
            seats.watchers.swap_remove(0),
        );
        Row {
            intake,
            put: puts.swap_remove(0),
            lanes,
            take: taking.swap_remove(3),
            verifier,
        }
    }

    /// Puts an item to the intake, `times` times.
    fn put(&mut self, rt: &(impl Abort + AllocGlobal), part: Part, times: usize) {
        let extent = extent_of(WordCount::of(WORDS), Profile::One);
        for _ in 0..times {
            let item = item_of(rt, extent, part);
            assert!(rt; self.intake.put(&mut self.put, item).is_ok());
        }
    }

    /// Whether the next turn does this, `turns` times.
    fn did<R: Wait>(&mut self, rt: &R, did: VerifierTurn, turns: usize) -> bool {
        let mut all = true;
        for _ in 0..turns {
            all = self.verifier.turn(rt, &self.intake, &self.lanes, &OpenGate) == did && all;
        }
        all
    }

    /// Whether each of these steps comes to what it tells.
    fn goes<R: Wait>(&mut self, rt: &R, steps: &[Step]) -> bool {
        let mut all = true;
        for step in steps {
            let is_so = match step {
                Step::Turn(did, turns) => self.did(rt, *did, *turns),
                Step::Take(brought) => brings(self.lanes[3].take(rt, &mut self.take)) == *brought,
            };
            all = is_so && all;
        }
        all
    }
}

/// What an item brings: its module, its ordinal, whether it is a page with a fault or one without, and the reason of an End.
type Brought = (u16, u32, Option<bool>, Option<Reason>);

/// What is done with a verifier, and what comes of it.
#[derive(Clone, Copy)]
enum Step {
    /// The next turn does this, a number of times.
    Turn(VerifierTurn, usize),
    /// The next item of the lane brings this.
    Take(Option<Brought>),
}

/// What an item brings, if there is one.
fn brings(item: Option<Judged>) -> Option<Brought> {
    let item = item?;
    let (faulty, end) = match &item.kind {
        ItemKind::Open => (None, None),
        ItemKind::Page(page) => (Some(page.verdict().inner.is_some()), None),
        ItemKind::End(reason) => (None, Some(*reason)),
    };
    Some((item.module.number(), item.ordinal, faulty, end))
}

/// The turns and items of a page with a fault and an End, judged into their lane.
const TWO_JUDGED: [Step; 5] = [
    Step::Turn(VerifierTurn::Worked, 2),
    Step::Take(Some((3, 2, Some(true), None))),
    Step::Take(Some((3, 1, None, Some(Reason::Close)))),
    Step::Take(None),
    Step::Turn(VerifierTurn::Idle, 1),
];

#[test]
fn items_are_judged_into_their_lane(rt: HostRuntime) {
    let mut row = Row::new(&rt);
    let was_idle = row.did(&rt, VerifierTurn::Idle, 1);
    row.put(&rt, Part::Page(1, UNKNOWN), 1);
    row.put(&rt, Part::End(0, Reason::Close), 1);
    assert!(rt; was_idle && row.goes(&rt, &TWO_JUDGED));
}

/// A page without a fault is taken.
const TAKEN: Step = Step::Take(Some((3, 1, Some(false), None)));

/// Of 66 items 64 are put in the lane, and each other one only once one is taken.
const BLOCKED_AFTER_64: [Step; 8] = [
    Step::Turn(VerifierTurn::Worked, 64),
    Step::Turn(VerifierTurn::Blocked, 2),
    TAKEN,
    Step::Turn(VerifierTurn::Worked, 1),
    Step::Turn(VerifierTurn::Blocked, 1),
    TAKEN,
    Step::Turn(VerifierTurn::Worked, 1),
    Step::Turn(VerifierTurn::Idle, 1),
];

#[test]
fn a_full_lane_blocks(rt: HostRuntime) {
    let mut row = Row::new(&rt);
    row.put(&rt, Part::Page(0, mark(1)), 66);
    assert!(rt; row.goes(&rt, &BLOCKED_AFTER_64));
}

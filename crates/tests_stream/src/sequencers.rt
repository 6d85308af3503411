//! Sequencers: what they take from their lanes, what they tell the board, and memory that is
//! refused.

ghost use Rattle.std.specs.Prelude.{◌≡◌};
ghost use Rattle.lfi_board.specs.Known.{board_id, board_of, sequencer_board};
ghost use Rattle.lfi_board.specs.Rows.{NewReceivers};
ghost use Rattle.lfi_sequence.specs.Turns.{lane_pass_of, seat_of};

use crate::items::{Part, UNKNOWN, judged, module};
use lfi_board::{Board, Claim, Phase, ReceiverSeat};
use lfi_model::{Judged, Reason};
use lfi_queues::{Lane, LanePut};
use lfi_sequence::{Sequencer, SequencerTurn};
use page_buf::PoolMember;
use std::process::Abort;
use std::sync::Wait;

/// A sequencer with its lane and its board, on which its module is claimed.
#[derive(Drop)]
struct Row {
    board: Board,
    seat: ReceiverSeat,
    lane: Lane<Judged>,
    put: LanePut<Judged>,
    sequencer: Sequencer,
    ghost seats: { (board_of seat ≡ board_id board) × (sequencer_board (seat_of sequencer) ≡ board_id board) },
    ghost passes: { (put.queue ≡ lane) × ((lane_pass_of sequencer).queue ≡ lane) },
}

/// The seat of a new board's one receiver.
fn receiver(rt: &impl Abort, board: &Board, mut row: [Option<ReceiverSeat>; 8]) -> ReceiverSeat
    requires { NewReceivers (board_id board.now) 1 1 row }
    ensures { board_of result ≡ board_id board.now }
{
    let _ = board;
    row[0].take().expect(rt, "no seat")
}

impl Row {
    fn new(rt: &(impl Abort + AllocGlobal)) -> Row {
        let (board, mut seats) = Board::new(rt.alloc(), 1, 1).expect(rt, "no board");
        let mut seat = receiver(rt, &board, seats.receivers);
        assert!(rt; board.claim(&mut seat, module()) == Claim::Mine);
        let of = seats.sequencers.swap_remove(3);
        let (lane, mut puts, mut takes) = Lane::new(rt.alloc(), 1, 1).expect(rt, "no lane");
        let put = puts.swap_remove(0);
        let take = takes.swap_remove(0);
        let member = PoolMember::new(rt.alloc()).expect(rt, "no pool");
        let made = Sequencer::new(rt.alloc(), take, of, member);
        Row {
            board,
            seat,
            lane,
            put,
            sequencer: made.expect(rt, "no sequencer"),
        }
    }

    /// Puts an item in the lane where the sequencer finds nothing, and turns it: the module's phase then, where one turn
    /// takes the item and the next one finds nothing again.
    fn phase_after<R: Wait + Abort + AllocGlobal>(&mut self, rt: &R, part: Part) -> Phase {
        let before = self.turn(rt);
        let is_put = self.lane.put(rt, &mut self.put, judged(rt, part)).is_ok();
        let turns = [before, self.turn(rt), self.turn(rt)];
        assert!(rt; is_put && turns == TAKEN);
        self.board.look(&mut self.seat, module())
    }

    fn turn<R: Wait>(&mut self, rt: &R) -> SequencerTurn {
        self.sequencer.turn(rt, &self.lane, &self.board)
    }
}

/// The turns before an item is put in the lane, and after.
const TAKEN: [SequencerTurn; 3] = [
    SequencerTurn::Idle,
    SequencerTurn::Worked,
    SequencerTurn::Idle,
];

/// The module's phase after each of five items.
fn phases<R: Wait + Abort + AllocGlobal>(rt: &R, parts: &[Part; 5]) -> [Phase; 5] {
    let mut row = Row::new(rt);
    let mut phases = [Phase::Free; 5];
    for place in 0..5usize {
        phases[place] = row.phase_after(rt, parts[place]);
    }
    phases
}

/// The phases after these items of a lawful module, the last of which ends it, and of one that is refused at its first
/// fault.
const ROWS: [([Part; 5], [Phase; 5]); 2] = [
    (
        [
            Part::End(3, Reason::Close),
            Part::Page(2, 0x9100_0C00),
            Part::Page(0, 0x9100_0400),
            Part::Open,
            Part::Page(1, 0x9100_0800),
        ],
        [
            Phase::Open,
            Phase::Open,
            Phase::Open,
            Phase::Open,
            Phase::Done,
        ],
    ),
    (
        [
            Part::Page(1, UNKNOWN),
            Part::Open,
            Part::Page(0, 0x9100_0400),
            Part::Page(2, 0x9100_0C00),
            Part::End(3, Reason::Close),
        ],
        [
            Phase::Open,
            Phase::Open,
            Phase::Refused,
            Phase::Refused,
            Phase::Refused,
        ],
    ),
];

#[test]
fn the_last_item_ends_a_module_and_the_first_fault_refuses_it(rt: HostRuntime) {
    for (place, (parts, want)) in ROWS.iter().enumerate() {
        assert!(rt; phases(&rt, parts) == *want, "row {place}");
    }
}

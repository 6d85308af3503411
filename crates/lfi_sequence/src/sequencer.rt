//! A module's sequencer: it takes judged items from the module's lane, places them in order, and
//! tells the board how the module ends.

ghost use Rattle.std.specs.Prelude.{◌≡◌, List, [], IfOk};
ghost use Rattle.lfi_model.specs.Item.{ItemView};
ghost use Rattle.lfi_board.specs.Known.{board_id, sequencer_board, module_of};
ghost use Rattle.lfi_sequence.specs.declared.sequencer.SequencerTurn.TheVariants.{Worked, Idle};

use crate::sequence::{BoardNotice, Sequence};
use lfi_board::{Board, SequencerSeat};
use lfi_model::Judged;
use lfi_queues::{Lane, LaneTake};
use page_buf::PoolMember;
use std::alloc::{AllocError, Global};
use std::sync::Wait;

/// What a turn did.
#[derive(Clone, Copy, PartialEq, Eq)]
pub enum SequencerTurn {
    /// It took an item.
    Worked,
    /// The lane was empty.
    Idle,
}

/// The sequencer of a module.
#[derive(Drop)]
pub struct Sequencer {
    pub(crate) pass: LaneTake<Judged>,
    pub(crate) sequence: Sequence,
}

impl Sequencer {
    ghost use Rattle.lfi_sequence.specs.Sequenced.{Sequenced};
    ghost use Rattle.lfi_sequence.specs.Turns.{lane_pass_of, member_of, seat_of, sequence_of, told_of_sequencer, IsSequenced, LaneTaken, TellsBoard};

    /// The sequencer of the seat's module, with its pass of the module's lane, its seat at the board, and the pool to which it
    /// gives the pages that it doesn't place. No item has come. The memory for the module's pages is reserved, and so is a
    /// place for each item.
    ///
    /// # Errors
    ///
    /// `AllocError` where memory is refused.
    pub fn new(
        alloc: Global,
        pass: LaneTake<Judged>,
        seat: SequencerSeat,
        pool: PoolMember,
    ) -> Result<Sequencer, AllocError>
        requires fresh { pass.items ≡ [] }
        ensures pass { IfOk result (λ s. lane_pass_of s ≡ pass) }
        ensures seat { IfOk result (λ s. seat_of s ≡ seat) }
        ensures sequenced { IfOk result IsSequenced }
        ensures pool { IfOk result (λ s. (member_of s).pool ≡ pool.pool) }
    {
        let sequence = Sequence::new(alloc, seat, pool)?;
        Ok(Sequencer { pass, sequence })
    }

    /// Tells the board what is to be told, where nothing was told before.
    fn tell(&mut self, board: &Board, before: BoardNotice)
        requires { sequencer_board (seat_of self.old) ≡ board_id board.now }
        ensures tells { TellsBoard before (told_of_sequencer self.old) (seat_of self.old) (seat_of self.new) }
        ensures board { (sequencer_board (seat_of self.new) ≡ sequencer_board (seat_of self.old)) × (module_of (seat_of self.new) ≡ module_of (seat_of self.old)) }
        ensures pass { self.new.pass ≡ self.old.pass }
        ensures told { told_of_sequencer self.new ≡ told_of_sequencer self.old }
        ensures tie { (taken : List ItemView) → Sequenced self.old.sequence taken → Sequenced self.new.sequence taken }
    {
        match before {
            BoardNotice::Nothing => match self.sequence.told() {
                BoardNotice::Nothing => {}
                BoardNotice::Refused => {
                    board.refuse(&mut self.sequence.seat);
                }
                BoardNotice::Finished => {
                    board.finish(&mut self.sequence.seat);
                }
            },
            BoardNotice::Refused => {}
            BoardNotice::Finished => {}
        }
    }

    /// One turn: takes one judged item from the lane, and places all that has come without a gap
    /// then. Where that brings the first fault, it refuses the module on the board; where it brings
    /// the End of a module without a fault, it finishes it there.
    pub fn turn<R: Wait>(&mut self, rt: &R, lane: &Lane<Judged>, board: &Board) -> SequencerTurn
        requires lane { (lane_pass_of self.old).queue ≡ lane.now }
        requires board { sequencer_board (seat_of self.old) ≡ board_id board.now }
        ensures takes { LaneTaken result (lane_pass_of self.old) (lane_pass_of self.new) }
        ensures tie { IsSequenced self.old → IsSequenced self.new }
        ensures tells { TellsBoard (told_of_sequencer self.old) (told_of_sequencer self.new) (seat_of self.old) (seat_of self.new) }
        ensures board { (sequencer_board (seat_of self.new) ≡ sequencer_board (seat_of self.old)) × (module_of (seat_of self.new) ≡ module_of (seat_of self.old)) }
    {
        match lane.take(rt, &mut self.pass) {
            Some(item) => {
                let before = self.sequence.told();
                self.sequence.handle(item);
                self.tell(board, before);
                SequencerTurn::Worked
            }
            None => SequencerTurn::Idle,
        }
    }

    /// Its pass of its lane, and what it holds.
    pub fn into_parts(self) -> (LaneTake<Judged>, Sequence)
        ensures pass { result.0 ≡ lane_pass_of self }
        ensures sequence { result.1 ≡ sequence_of self }
    {
        let Sequencer { pass, sequence } = self;
        (pass, sequence)
    }
}

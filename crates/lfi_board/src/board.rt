//! The board: a word for each module's phase, and the count of the receivers that have ended.

ghost use Rattle.std.specs.Prelude.{◌≡◌, ◌+◌, ◌<◌, ◌≤◌, false};
ghost use Rattle.lfi_board.specs.Knowledge.{ends, ended_word, Follows};
ghost use Rattle.lfi_board.specs.Calls.{Claimed, Changed, Saw, number_of};

use crate::knowledge::{Changes, Claims, Ends, Knowledge, Looks, Phases};
use crate::seats::{Change, Claim, Phase, ReceiverSeat, SequencerSeat, WatchSeat};
use atomic_table::Table;
use lfi_module::ModuleNumber;
use std::alloc::Global;
use std::collections::LinkedList;

// The phases, as the words hold them.
const FREE: u64 = 0;

const OPEN: u64 = 1;

const REFUSED: u64 = 2;

const DONE: u64 = 3;

// The word that counts the receivers that have ended. Those before it are the modules' phases.
const ENDED: usize = ModuleNumber::COUNT;

/// The phases of the sixteen modules, and how many receivers have ended.
#[derive(Drop)]
pub struct Board {
    pub(crate) table: Table<(), LinkedList<Knowledge>, u64, Phases, Global>,
    ghost wide: { table.shared.table_id.words ≡ 17 },
}

fn phase_of(number: u64) -> Phase
    requires { number < 4 }
    ensures { number_of result ≡ number }
{
    match number {
        FREE => Phase::Free,
        OPEN => Phase::Open,
        REFUSED => Phase::Refused,
        _ => Phase::Done,
    }
}

impl Board {
    ghost use Rattle.lfi_board.specs.Known.{board_id, board_of, known_by};

    /// Claims the module, if it is free.
    pub fn claim(&self, seat: &mut ReceiverSeat, number: ModuleNumber) -> Claim
        requires board { board_of seat.old ≡ board_id self.now }
        ensures board { board_of seat.new ≡ board_of seat.old }
        ensures claimed { Claimed (known_by seat.old) (known_by seat.new) number result }
    {
        let place = number.index();
        let found = self
            .table
            .shared
            .compare_exchange::<Claims>(&mut seat.seat, place, FREE, OPEN);
        if found == FREE {
            seat.mine[place] = true;
            Claim::Mine
        } else {
            Claim::Taken
        }
    }

    /// The module's phase.
    pub fn look(&self, seat: &mut ReceiverSeat, number: ModuleNumber) -> Phase
        requires board { board_of seat.old ≡ board_id self.now }
        ensures board { board_of seat.new ≡ board_of seat.old }
        ensures saw { Saw (known_by seat.old) (known_by seat.new) number (number_of result) }
    {
        let place = number.index();
        let found = self.table.shared.load::<Looks>(&mut seat.seat, place);
        phase_of(found)
    }
}

impl Board {
    ghost use Rattle.lfi_board.specs.Known.{board_id, board_of, known_by, sequencer_board, known_by_sequencer, module_of, watcher_board, known_by_watcher};

    fn change(&self, seat: &mut SequencerSeat, to: u64) -> Change
        requires board { sequencer_board seat.old ≡ board_id self.now }
        requires ended { (2 ≤ to) × (to < 4) }
        ensures board { (sequencer_board seat.new ≡ sequencer_board seat.old) × (module_of seat.new ≡ module_of seat.old) }
        ensures changed { Changed (known_by_sequencer seat.old) (known_by_sequencer seat.new) (module_of seat.old) to result }
    {
        let place = seat.of.index();
        let found = self
            .table
            .shared
            .compare_exchange::<Changes>(&mut seat.seat, place, OPEN, to);
        match found {
            FREE => Change::WasFree,
            OPEN => Change::Made,
            _ => Change::WasEnded,
        }
    }

    /// Refuses the seat's module, if it is open.
    pub fn refuse(&self, seat: &mut SequencerSeat) -> Change
        requires board { sequencer_board seat.old ≡ board_id self.now }
        ensures board { (sequencer_board seat.new ≡ sequencer_board seat.old) × (module_of seat.new ≡ module_of seat.old) }
        ensures changed { Changed (known_by_sequencer seat.old) (known_by_sequencer seat.new) (module_of seat.old) 2 result }
    {
        self.change(seat, REFUSED)
    }

    /// Ends the seat's module as done, if it is open.
    pub fn finish(&self, seat: &mut SequencerSeat) -> Change
        requires board { sequencer_board seat.old ≡ board_id self.now }
        ensures board { (sequencer_board seat.new ≡ sequencer_board seat.old) × (module_of seat.new ≡ module_of seat.old) }
        ensures changed { Changed (known_by_sequencer seat.old) (known_by_sequencer seat.new) (module_of seat.old) 3 result }
    {
        self.change(seat, DONE)
    }

    /// The receiver tells its end, which it does once. The answer is how many had ended before, 0 to 7.
    pub fn one_ended(&self, seat: &mut ReceiverSeat) -> u64
        requires board { board_of seat.old ≡ board_id self.now }
        requires once { (known_by seat.old).ended ≡ false }
        ensures board { board_of seat.new ≡ board_of seat.old }
        ensures ended { known_by seat.new ≡ ends result (known_by seat.old) }
        ensures count { Follows (known_by seat.old).seen ended_word result × (result < (known_by seat.old).receivers) }
    {
        self.table
            .shared
            .fetch_add::<Ends>(&mut seat.seat, ENDED, 1)
    }

    /// How many receivers have ended, 0 to 8.
    pub fn ended(&self, seat: &mut WatchSeat) -> u64
        requires board { watcher_board seat.old ≡ board_id self.now }
        ensures board { watcher_board seat.new ≡ watcher_board seat.old }
        ensures saw { Saw (known_by_watcher seat.old) (known_by_watcher seat.new) ended_word result }
        ensures most { result ≤ (known_by_watcher seat.old).receivers }
    {
        self.table.shared.load::<Looks>(&mut seat.seat, ENDED)
    }
}

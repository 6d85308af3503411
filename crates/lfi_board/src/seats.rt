//! The seats, and what the board answers them.

ghost use Rattle.std.specs.Prelude.{◌≡◌, ℕ, ◌<◌, true, [], ◌∷◌, slice_index_or, false, ◌==◌, not};
ghost use Rattle.lfi_board.specs.Knowledge.{knowledge_of, times};

use crate::knowledge::View;
use atomic_table::Seat;
use lfi_module::{CONNECTIONS, ModuleNumber};

/// What a claim was answered.
#[derive(Clone, Copy, PartialEq, Eq)]
pub enum Claim {
    /// The module was free, and is the seat's own now.
    Mine,
    /// It had been claimed before.
    Taken,
}

/// What was answered to a sequencer that ends its module.
#[derive(Clone, Copy, PartialEq, Eq)]
pub enum Change {
    /// The module was open, and has ended now.
    Made,
    /// It isn't claimed yet.
    WasFree,
    /// It had been refused or done before.
    WasEnded,
}

/// How far a module is. A later phase never goes back to an earlier one, and Refused and Done stay.
#[derive(Clone, Copy, PartialEq, Eq)]
pub enum Phase {
    Free,
    Open,
    Refused,
    Done,
}

/// A receiver's seat: it claims modules, looks at them, and tells its end.
#[derive(Drop)]
pub struct ReceiverSeat {
    pub(crate) seat: Seat<(), View>,
    // The modules for which it was answered `Mine`.
    pub(crate) mine: [bool; ModuleNumber::COUNT],
    ghost one: { (seat.me.0 ≡ knowledge_of seat.me.0 ∷ []) × (seat.me.1 ≡ []) },
    ghost receives: { (knowledge_of seat.me.0).is_receiver ≡ true },
    ghost knows_mine: { (m : ℕ) → m < 16 → slice_index_or mine m false ≡ not (times m (knowledge_of seat.me.0).claimed == 0) },
}

/// A sequencer's seat: it ends its one module.
#[derive(Drop)]
pub struct SequencerSeat {
    pub(crate) seat: Seat<(), View>,
    pub(crate) of: ModuleNumber,
    ghost one: { (seat.me.0 ≡ knowledge_of seat.me.0 ∷ []) × (seat.me.1 ≡ []) },
}

impl SequencerSeat {
    ghost use Rattle.lfi_board.specs.Known.{module_of};

    /// The module that it ends.
    pub fn module(&self) -> ModuleNumber
        ensures { result ≡ module_of self.now }
    {
        self.of
    }
}

/// A watcher's seat: it sees how many receivers have ended.
#[derive(Drop)]
pub struct WatchSeat {
    pub(crate) seat: Seat<(), View>,
    ghost one: { (seat.me.0 ≡ knowledge_of seat.me.0 ∷ []) × (seat.me.1 ≡ []) },
}

/// All seats of a new board.
#[derive(Drop)]
pub struct Seats {
    /// The receivers', from the first place on; the other places have none.
    pub receivers: [Option<ReceiverSeat>; CONNECTIONS],
    /// One a module, in the modules' order.
    pub sequencers: Vec<SequencerSeat>,
    pub watchers: Vec<WatchSeat>,
}

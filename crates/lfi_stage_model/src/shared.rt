//! The parts of a stage, and what all of them share.

ghost use Rattle.std.specs.Prelude.{◌≡◌};
ghost use Rattle.lfi_board.specs.Known.{board_receivers};

use lfi_board::Board;
use lfi_model::{Item, Judged};
use lfi_queues::{Intake, Lane};
use lfi_receive::Receiver;
use lfi_sequence::{Sequencer, Verifier};

/// What all parts of a stage share: the board of the modules' phases, how many receivers it has,
/// the intake from receivers to verifiers, and the lanes from verifiers to sequencers, by the
/// modules' numbers.
#[derive(Drop)]
pub struct Shared {
    pub board: Board,
    /// 1 to 8.
    pub receivers: u64,
    pub intake: Intake<Item>,
    pub lanes: Vec<Lane<Judged>>,
    pub ghost counted: { receivers ≡ board_receivers board },
}

/// All parts of a stage, which take turns at what they share.
#[derive(Drop)]
pub struct Parts {
    /// By the connections' numbers.
    pub receivers: Vec<Receiver>,
    pub verifiers: Vec<Verifier>,
    /// By the modules' numbers.
    pub sequencers: Vec<Sequencer>,
}

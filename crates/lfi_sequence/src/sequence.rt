//! What a module's sequencer has placed, and what waits.

ghost use Rattle.std.specs.Prelude.{◌≡◌, ◌≤◌, None, Some, length, vec_capacity};
ghost use Rattle.lfi_module.specs.Numbers.{most_words};

use crate::placing::Placing;
use lfi_board::SequencerSeat;
use lfi_image::PageMemory;
use lfi_model::Judged;
use page_buf::PoolMember;

/// What there is to tell the board of a module.
#[derive(Clone, Copy, PartialEq, Eq)]
pub enum BoardNotice {
    /// Nothing yet.
    Nothing,
    /// A page brought a fault.
    Refused,
    /// The End came after pages without a fault.
    Finished,
}

/// What a step of a sequence did.
#[derive(Clone, Copy, PartialEq, Eq)]
pub(crate) enum Stepped {
    /// It placed the next item.
    Placed,
    /// The next item isn't there, or it doesn't fit.
    Waits,
}

/// The items of one module, in whatever order they come: those that have come without a gap are
/// placed, and the others wait by their ordinals. The module is that of its seat at the board.
#[derive(Drop)]
pub struct Sequence {
    pub(crate) seat: SequencerSeat,
    /// How many items have come without a gap.
    pub(crate) count: usize,
    /// The items that have come with a gap before them, by their ordinals.
    pub(crate) table: Vec<Option<Judged>>,
    /// Memory for the module's pages, until its Open has come.
    pub(crate) spare: Option<PageMemory>,
    pub(crate) placing: Option<Placing>,
    /// Where pages go that aren't placed.
    pub(crate) pool: PoolMember,
    ghost room: { 4098 ≤ vec_capacity table },
    ghost narrow: { length table.items ≤ 4098 },
    ghost reserved: { placing ≡ None → spare ≡ Some most_words },
}

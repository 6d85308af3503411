//! What a module is refused for.

ghost use Rattle.std.specs.Prelude.{◌≤◌, ◌<◌};

use lfi_module::{Extent, ModuleNumber};
use lfi_rules::Fault;

/// How many words near a fault are kept: four before its place, the one there, and the one after it.
pub(crate) const MOST: usize = 6;

/// The words near the place of a module's first fault, by which it is explained: at most four before the place, the one there,
/// and the one after it, if that had come.
///
/// As [`Words`] they stand in their order.
#[derive(Clone, Copy)]
pub struct NearbyWords {
    pub(crate) words: [u32; MOST],
    pub(crate) count: usize,
    pub(crate) at: usize,
    ghost few: { count ≤ 6 },
    ghost inside: { at < count },
}

/// Why a module is refused: its first fault, and the words near its place.
#[derive(Clone, Copy)]
pub struct Refusal {
    pub fault: Fault,
    pub near: NearbyWords,
}

/// A module that is refused: which it is, how large and by which profile, and why.
#[derive(Clone, Copy)]
pub struct RefusedModule {
    /// Its slot, by the module's number.
    pub slot: ModuleNumber,
    pub extent: Extent,
    pub refusal: Refusal,
}

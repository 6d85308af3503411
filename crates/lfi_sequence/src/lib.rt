//! Judging and placing: verifiers judge items and hand them on to the lanes of their modules, and a module's sequencer
//! places what it takes from its lane in order, in whatever order it comes.
//!
//! # How data flows
//!
//! A `Verifier` takes an item from the intake, judges its page where it has one, and puts it in the lane of the item's
//! module (`Lanes`); by its seat at the board it sees how many receivers have ended. A module's `Sequencer` takes from
//! that lane into its `Sequence`, a table by ordinals; what is due is placed (`Placing`), what isn't placed goes back to
//! the pool, and the first refusal, or the end, is told to the board. `report_of` makes of what was placed a
//! `ModuleReport`: its outcome, what is there of its image, and where it was refused all that explains it.
//!
//! Come of specs/ has what comes to a sequencer, Hands what a verifier holds, Delivers both over the lists of all passes.
//! The laws in `delivery` speak of whole lists, without parts or queues; those in `laws` of what a sequencer holds.
//!
//! # What it may not know
//!
//! Receivers, streams, threads, how many parts there are.
//!
//! # Decisions
//!
//! - **What comes to a sequencer is said of the items that it took in any order** (`Come`, `Sequenced`), and not of a
//!   connection's list: so its clause holds whoever put them, and the law `all_placed` joins the two.
//! - **A second item of an ordinal, one of another extent and one past an End are dropped.** No connection makes such items.
//! - **All memory at the start**: a sequencer reserves 4,098 places for items and the places for the pages of the greatest
//!   module. No turn can then fail for want of it, so NoMemory is an outcome of receivers alone.
//! - **What there is to tell the board is read off what is placed** (`Sequence::told`), before and after a turn's items. Once
//!   it is something it stays so (the law `told_stays`), so each module is refused or finished by one call.
//! - **A gate is lent an item before it is judged, and the judged one after it**, so that a caller can watch or hold
//!   verifiers. Their types keep the order; that it is called is in no clause.
//! - **A refused module's report is one value** (`RefusedModule`): its slot, its extent, the first fault, and of the words
//!   that were judged those near its place (`NearbyWords`): four before it, since no need waits for more, and the next one.
//!   It stays so, and later pages are let go.
//! - **A small page that isn't placed goes back to the pool**, from which receivers take pages. A refused module so costs no
//!   memory for its later pages. Private clauses say that its pages are offered (`Offers`), and rows show it.
//! - **A module's number stands in its seat at the board alone**, which its `Sequence` holds: so what is placed and what is
//!   told can't be of two modules.
//! - **A page can't be put twice, nor placed twice**: an item and a page are values that move, and nothing copies them.
#![tactic(auto)]

pub mod delivery;
mod lanes;
mod laws;
mod near;
mod placing;
mod refused;
mod report;
mod sequence;
mod sequencer;
mod sequencing;
mod verifier;

pub use lanes::Lanes;
pub use laws::{all_placed, come_or_waits, lanes_stay, rows_of_lanes, told_stays};
pub use placing::{Ended, Placing};
pub use refused::{NearbyWords, Refusal, RefusedModule};
pub use report::{ImageState, ModuleReport, report_of};
pub use sequence::{BoardNotice, Sequence};
pub use sequencer::{Sequencer, SequencerTurn};
pub use verifier::{Gate, OpenGate, Verifier, VerifierTurn};

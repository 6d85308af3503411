//! The verifier as a static library, for hosts that are written in C or call C: include/lfi_verifier.h, docs/C.md.
//!
//! Each export turns the plain numbers that cross to C into the types of the crates below, and back; it has no state and
//! takes no memory. Code is judged, explained and mended where it lies.
#![tactic(auto)]

mod cut_state;
mod explain;
mod fault;
mod finding;
mod laws;
mod mending;
mod pieces;
mod profile;
mod state;
mod status;
mod stream;
mod verdicts;
mod whole;

pub use laws::{one_answer, told_numbers};

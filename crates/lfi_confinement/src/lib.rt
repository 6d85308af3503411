//! Lawful code never leaves its slot: the map of a slot, lawful registers, the steps of a machine, and the law.
//!
//! # How data flows
//!
//! specs/ say what a slot's bytes allow, which registers are lawful, what one step does by any answers of the runtime,
//! and which states runs reach. `never_escapes` is the law over all of them, `lawful_code_runs_on` its other half;
//! `edges` has closed facts on the numbers of the map. lfi_machine is proved to take these steps.
//!
//! # What it may not know
//!
//! Memory in pages, halts' numbers, files.
//!
//! # Decisions
//!
//! - **The step is a function of the instruction; which instruction stands at pc is a relation** (`Fetches`), since a
//!   word's instruction is one (`Spells`), and a word that nothing spells has no move. No instruction exists twice: the
//!   machine runs what the decoder spells.
//! - **Memory is a function of addresses; table and code are computed from the words.** So "no step changes the words"
//!   is true by definition, and only the bytes that may be written are state.
//! - **The invariant is about the words that come next**: registers are lawful but for what the open need weakens, and
//!   the instruction at pc, if there is one, meets that need; or it is calm, and a probe comes in time (`Awaits`).
//!   It asks for no number of them but that it isn't 0, so one proof serves both profiles.
#![tactic(auto)]

mod cause;
mod edges;
mod laws;

pub use cause::StopCause;
pub use edges::{
    code_ends_within_a_page, direct_branches_escape_at_the_edges, entries_are_called_by_x30,
    entries_lie_outside, entries_stand_in_the_table, escapes_at_the_edges, runs_are_made_of_steps,
    stores_escape_at_the_edges, wide_escapes_at_the_edges, words_stand_in_the_code,
};
pub use laws::{lawful_code_runs_on, never_escapes};

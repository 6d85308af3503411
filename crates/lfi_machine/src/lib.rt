//! The machine: it runs an image, one instruction after another, over the memory of the image's slot.
//!
//! # How data flows
//!
//! `Machine::new` takes an image and registers, and refuses registers that no run may start with (`StartFault`). `run`
//! decodes the image's words once, as far as the run comes (`decoded`), and goes along words that follow one another up
//! to the first branch (`step_along`). A step carries out the instruction at pc: by a64_semantics where it accesses no
//! memory, else by `singles` or `pairs` over `SlotMemory`. `SlotMemory` is the slot: the table of entries and the code, which are
//! computed from the image's words, and the written bytes, each at its place by `lfi_rules::map`. A branch to an entry of the table
//! calls the `Runtime`, whose answer the run goes on with, or which ends it. Why a run stopped is a `Halt`.
//!
//! Owned of specs/ has an image with its written bytes, Halting which halt has which cause, Starts the registers of a
//! start, Runs the steps and runs with a runtime. The law `ran_is_reached` ties these runs to those of lfi_confinement, so
//! that no run of lawful code leaves its slot.
//!
//! # What it may not know
//!
//! Files, the command line, printing, and where images come from.
//!
//! # Decisions
//!
//! - **Outside of its slot the machine denies every byte**, so it has no test of guards; the law is why that is enough. In
//!   the definition of the map a guard of half its size makes the law fail, which an edit shows.
//! - **The runtime's `call` has the clause that the image stays**: without it a runtime could swap the memory with another
//!   machine's.
//! - **The machine decodes a word once, as far as a run has come.** `new` reserves 16 bytes a word, which cost nothing until
//!   they are touched. A step at a place that isn't decoded yet first decodes all before it, to the end of its 1,024 words.
//!   The places are reserved, so no step can fail for want of memory here.
//! - **The map's numbers stand in lfi_rules::map**, and the reserved registers in lfi_rules::registers. What begins a function with a
//!   base of its own (`base < 2^40`) is private.
//! - **Memory grows in `keep` alone**, which is asked for all bytes of an access at once, before anything is written. So an
//!   access of several bytes, or of a pair, that is refused memory changes no byte.
//! - A halt for want of memory may come at any store by the clauses, whose bytes may all be written. That it comes only
//!   where memory was refused is for tests to show.
//!
//! docs/PERFORMANCE.md, "A step of the machine", has what a step costs, and what was tried.
#![tactic(auto)]

mod decoded;
mod halt;
mod laws;
mod machine;
mod pairs;
mod runtime;
mod singles;
mod slot;
mod start;
mod step;

pub use halt::Halt;
pub use laws::{held_is_not_refused, ran_is_reached};
pub use lfi_confinement::StopCause;
pub use machine::Machine;
pub use runtime::{Answer, Runtime};
pub use slot::{DataFault, SlotMemory};
pub use start::{StartFault, start_registers};

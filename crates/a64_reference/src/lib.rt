//! A reference implementation: what an instruction computes, bit by bit.
//!
//! # How data flows
//!
//! `plain_result` takes an instruction and registers to the value and flags that it writes. Tests compare it with
//! a64_semantics, and both with values from the manual.
//!
//! # What it may not know
//!
//! Results, `perform` and the definitions of a step: of a64_semantics it names `Registers` alone.
//!
//! # Decisions
//!
//! - **Its contract says of which instructions it tells a result**, and that what these don't write is as it was. The values
//!   themselves are in no clause, since they are what is compared.
#![tactic(auto)]

mod bits;
mod instructions;

pub use instructions::plain_result;

//! Auxiliary values: what contracts know of a run beside what the program stores. They take no bytes.
//!
//! # How data flows
//!
//! `Auxiliary::of` makes a value that contracts see as what a `Reading` reads off a value of the program: off what a queue's
//! pass had put before and the item that it puts now, or off the error that a reader has answered. So a contract can speak of
//! all that was put and taken, and of a read that failed, though nothing of it is stored.
//!
//! # What it may not know
//!
//! What is read, and off what.
//!
//! # Decisions
//!
//! - **It is a crate of its own** since queues and receivers both keep such values, and neither is about the other's.
//! - **No function of the program can answer what it holds**: it owns nothing, so only a clause ties its value. `of`, which
//!   has to make it of nothing, is the one function here with a proof by hand.
#![tactic(auto)]

mod auxiliary;

pub use auxiliary::{Auxiliary, Reading};

//! The parts of a stage and what they share: receivers that turn the bytes of connections into items, verifiers that
//! judge them, and sequencers that place them. What each is while it takes turns.
//!
//! # How data flows
//!
//! All parts of one stage (`Parts`) take turns at what they share (`Shared`): the intake, the lanes, the board. Whoever has
//! them turns them in any order, on any threads. Here is what is known of them all the while, and no code.
//!
//! What that is is told by specs/: Workers and Parts say whose a verifier, a sequencer and a receiver is and where their seats are, Shares what
//! contracts see of what they share, Fresh which of them have done nothing yet. The laws in `laws` and `turns` say that
//! a single turn keeps what settling a stage asks of its part.
//!
//! # What it may not know
//!
//! How a stage is made and settled, threads, files, the command line, printing.
//!
//! # Decisions
//!
//! - **It is a crate of its own** since whoever makes and settles a stage and whoever gives its parts to threads need nothing
//!   else of one another: lfi_stage and lfi_thread_loops are proved beside each other.
//! - **What is asked of a stage's parts** is that these are all parts of one stage (`AreAllParts`). Each turn keeps what
//!   is asked of its part (the law `parts_stay`, and the clauses on pass and seat of receivers).
//! - **`Shared` has the number of receivers**, which its type ties to the board: the board itself knows it in contracts
//!   alone.
#![tactic(auto)]

mod laws;
mod shared;
mod turns;

pub use laws::{all_parts_stay, receiver_stays, seat_stays};
pub use shared::{Parts, Shared};
pub use turns::{lanes_of_a_verifier, parts_are_new, parts_stay};

//! Queues that several threads share: each pass puts to one queue, or takes from it, and contracts know what it put or
//! took. A queue knows nothing of the items that it carries.
//!
//! # How data flows
//!
//! In an `Intake` each `PutPass` has a part of its own, a work-stealing deque of crossbeam_deque with room for 256 items
//! at first: the item goes to its back. A `TakePass` has an end of each part, and takes from their fronts by turns. No
//! call of it waits. A `Lane` is a `RuledQueue` of 64 places, the ruled array queue of crossbeam_queue, from `LanePut` to
//! `LaneTake`, the oldest first. Both are shared by `&`: passes may stand in any thread, no lock is taken, and but for
//! `new` only a part that is full takes memory. What a pass put or took, contracts know by `Auxiliary` values, which take
//! no bytes. Handed all passes, `rest` takes what is left, and tells what became of all that was put (`Kept`).
//!
//! # What it may not know
//!
//! What it carries, and which threads put and take.
//!
//! # Decisions
//!
//! - **What a pass did is a ghost value of no bytes** (`Auxiliary`), since a contract has to speak of all that it put or took,
//!   and the program is to store none of it.
//! - **A queue's contracts speak of passes, and never of what it holds**, which other threads change at any time. Each call
//!   says what it adds to its own pass's list; the rule below it, kept by every atomic step, ties all lists; and `rest`,
//!   handed all passes, reads the tie off.
//! - **The intake has a part for each putter.** A putter never waits for another, and where a part can't grow its putter
//!   alone is refused. In which order items of several parts come no clause says.
//! - **A put of the intake is refused only where memory is**, and no putter's first 256 are. What the intake holds is bounded
//!   by whoever puts.
//! - **"Full" and "empty" can't be said exactly of one pass**: lists of the other passes that go with it can always be made
//!   up. A body that never takes is refused by tests, and, through all passes, by `rest`.
//! - **What a round did is told by counts of answers.** Each end of a part counts, for contracts alone, how often the part
//!   gave an item, was empty, or is to be tried again. With the part at which the next round begins (`Rounds`) this says
//!   which parts a take asked, in which order, and what each answered.
//! - **`rest` counts as no call**, and takes as the first taker. That of the intake is for 8 takers at most.
//! - **A lane's call takes `Wait`**, since the ruled array queue asks for it, and so does all that calls it. The intake's
//!   calls take none, nor does a receiver's turn, which so returns, by its contract.
#![tactic(auto)]

mod intake;
mod lane;
mod laws;
mod left;
mod log;
mod making;
mod part;
mod pass;
mod queue;
mod round;

pub use intake::{Intake, PutPass, TakePass, Taken};
pub use lane::Lane;
pub use laws::{always_kept, kept_of_one};
pub use left::TAKERS;
pub use pass::{LanePut, LaneTake};
pub use queue::RuledQueue;

//! The threads of a stage: one a connection, one a verifier, and one that turns all sequencers.
//!
//! # How data flows
//!
//! `load_in` over readers and `serve_in` over an acceptor are handed a scope, what the threads share (`Env`) and all parts
//! (`Parts`). They start the threads, join them, and give the parts back; `load_in` turns the sequencers by itself. What
//! each thread promises (promises.rt) is what settling asks for. A receiver's thread tells of refused modules (`Notices`).
//! What these calls do is told by specs/: Running, Seated (who has a seat at the board) and Heard.
//!
//! # What it may not know
//!
//! How a stage is made and settled, what parts do, printing.
//!
//! # Decisions
//!
//! - **A scope and promises, and not `Arc`**: what all parts share stays the caller's, for `settle`. A plain join says nothing
//!   of what comes back, so a handle carries a promise (`HeardBy`, `VerifiedBy`, `AllPlaced`), with a snapshot of the input.
//! - **What the threads share is one value** (`Env`), and a thread's closure takes its fields one by one: of a closure that
//!   owns a struct with references no clause is known.
//! - **A verifier's thread ends by the board's count**: before each turn it asks how many receivers have ended, and ends
//!   where all had and the turn is Idle. A receiver tells its end after its last put, and the turn can't ask (`HasEnded`).
//! - **Not each thing is called for at once**: for how many, constants of receiver_loop, back_pressure, verifier_loop and
//!   sequencer_loop say (docs/PERFORMANCE.md, "A load").
//! - **No item waits for a thread that sleeps while no other will come to it.** A receiver calls for what is untold before
//!   it waits for a reader, a notice, memory or verifiers, and at its end. It calls none where a verifier doesn't wait: that
//!   one looks once more after it says that it waits, so after the put. A verifier calls before it waits or ends. After a
//!   put it sets the lane's bit, unless it is set. The sequencers' thread clears all bits, looks at these lanes, and sets
//!   the bit of one where it may have left items; so a bit that was found set is cleared before a look that comes after the
//!   put. It sleeps only where it found none after it said that it waits. Before it ends it looks at all lanes. A gate or a
//!   notice that keeps a thread also keeps it from calling, and a gate fewer than 96 items of each receiver from verifiers.
//! - **No receiver sleeps at a full part while no verifier will call it** (back_pressure.rt). After it said that it waits it
//!   found 32 items or more in its part, and then called a verifier, where one waited. So one is awake, or waits for room in
//!   a lane, which it is called for: none finds the intake empty before that part is. Each calls all receivers that wait
//!   after some takes, and before it waits or ends; so after the take that leaves fewer than 32. A verifier ends after all
//!   receivers. Where all are to stop, each is called. No limit of time or client stops a verifier.
//! - **In `load_in` no input is read until all threads have been started**: a read of a pipe can't be told to stop. In
//!   `serve_in` reads wait from the first client on, so where a thread is refused all sockets are shut down.
//! - **A thread that is told to stop gives no part back** (`PartExit::GaveUp`), and then there is no report, but why it was
//!   told to. That of the sequencers gives back what it was told. So one that ends by itself doesn't compile.
//! - **A connection that wasn't accepted has a receiver and a thread too**, with a reader at its end. Why is in no clause.
#![tactic(auto)]

mod back_pressure;
mod env;
mod loading;
mod notices;
mod promises;
mod receiver_loop;
mod running;
mod sequencer_loop;
mod serving;
mod starting;
mod verifier_loop;

pub use env::Env;
pub use loading::load_in;
pub use notices::{NoNotices, Notices};
pub use serving::{Back, ServedClients, serve_in};

//! How the threads of a stage wait for one another, how far they are to go and for how long, and where clients come in.
//!
//! # How data flows
//!
//! One value, `Lifecycle`, is lent to all threads. Its word tells how far they are to go, and its wait sets (`WaitSets`)
//! are where they wait: a thread with nothing to do waits at one (`Waiter`), and whoever brings it something calls it there
//! (`WaitSet`, `Notifier`). Another word tells which lanes have got items (`LaneSet`). Clients come in by an `Acceptor`,
//! which keeps the limit of time; their streams lie in `Streams`, each read as a `Client`. `keep` keeps the handle of a
//! thread that was started, and `join_all` joins such threads. Where memory or a thread is refused, all are told to stop,
//! and `LoadError` says which of both it was.
//!
//! # What it may not know
//!
//! The parts of a stage, and what their threads do with them. It stands on the numbers of lfi_module alone.
//!
//! # Decisions
//!
//! - **What the word told is a value that nothing else makes**: `Stopped`, with why; `Verified`, once all verifiers'
//!   threads have ended or all are to stop; `Going`, once the start was waited for. A thread that gives up does so with
//!   one of them: one that gives up by itself, or doesn't wait, doesn't compile. The word only grows (`State`).
//! - **Who brings something calls who waits for it, and nobody yields or sleeps for a time** (`WaitSet`). A thread that
//!   found nothing sets its bit, turns once more, and then sleeps. Whoever has put or taken something reads the bits, takes
//!   one away and wakes its thread. Each step is SeqCst: where the second turn doesn't see what was put, the bit was
//!   set before the put, and whoever put sees it. A bit that another one took away meanwhile is as good. While nobody waits
//!   a wait set costs one load. A change of the word calls those to whom it tells something, which ask it before they sleep:
//!   the start receivers, the end of all verifiers the sequencers' thread, and that all are to stop all. To call them takes
//!   a `Said`, which the change gives: a call that comes before it doesn't compile.
//! - **Streams of clients lie in places that are written once and lent** (`Streams`): no descriptor is doubled, and whoever
//!   accepts can shut them all down while their threads read. A connection is shut down where its reader is dropped.
//! - **The path is removed and the listener closed where the acceptor is dropped**, the path only where it still is the
//!   socket that was bound, by device and inode. So nobody waits at a listener that takes no more. A signal leaves the path:
//!   the toolchain catches none.
//! - **What becomes of a client is told by its connection** (`ClientFate`), and why a read failed beside the reader
//!   (`ReadErrors`), since a receiver keeps that a read failed and no more. A client is a reader or absent (`Client`).
//! - **A limit of time is kept by the thread that accepts** (`Deadline`). Where there is one, the listener is asked
//!   every 5 ms, since no call of the toolchain waits for a client for some time only. When the time is over this thread
//!   shuts all sockets down; what lies in them is still read. A clock that can't be read is as a time that is over.
//! - **What a call here answers is in no clause, but where something rests on it** (`stop`, `why` and `of` of `Stopped`,
//!   the limits, the flags of clients, the number of verifiers, `keep`, `join_all`): what other threads did meanwhile is
//!   nothing that a contract knows.
#![tactic(auto)]

mod acceptor;
mod client;
mod deadline;
mod fate;
mod joining;
mod lane_set;
mod lifecycle;
mod reading;
mod refusal;
mod state_word;
mod wait_sets;

pub use acceptor::{Acceptor, Closed};
pub use client::{Client, Connection, Streams};
pub use fate::{Absence, ClientFate, Unheard};
pub use joining::{join_all, keep};
pub use lane_set::LaneSet;
pub use lifecycle::{Going, Lifecycle, Stopped, Verified};
pub use reading::{ReadErrors, Watched};
pub use refusal::LoadError;
pub use wait_sets::{Notifier, WaitSet, WaitSets, Waiter};

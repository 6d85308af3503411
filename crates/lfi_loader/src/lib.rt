//! Streams loaded by a stage on threads: those of readers, and those that clients send over a socket.
//!
//! # How data flows
//!
//! `load_all` over readers and `serve_on` over an acceptor make a stage (lfi_stage), give its parts to their threads
//! (lfi_thread_loops), and settle what comes back (lfi_stage). Loaded and Served of specs/ say what these calls do.
//!
//! # What it may not know
//!
//! What parts and threads do, the command line, printing.
//!
//! # Decisions
//!
//! - **What was served keeps its limit** (`Served`), so that the contracts pin it from the arguments to the deadline. That
//!   the deadline is kept is in no clause.
//! - **What became of each client is told with the report** (`Served`), since the report can't tell a stream that ended
//!   from one that was cut off, nor one that sent nothing from one that never came. The text of one that isn't there is
//!   empty (`HasServed`). That of one that was heard or cut off is some text: of what a client sends no clause knows more.
//! - **How many verifiers judged is pinned here**, and the limit of time. What the program prints depends on neither, so its
//!   contract, which says that there is such a report, can't pin them.
//!
//! docs/PERFORMANCE.md, "A load", has what bounds a load, and what was tried to make it faster.
#![tactic(auto)]

mod load;
mod serve;

pub use lfi_sync::{Absence, Acceptor, ClientFate, LoadError};
pub use lfi_thread_loops::{NoNotices, Notices, ServedClients};
pub use load::load_all;
pub use serve::{Served, StageSize, serve_on};

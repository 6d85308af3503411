//! One connection as a machine: what its messages bring, one event a step, and how far it is with its modules.
//!
//! # The machine
//!
//! Its caller has the feed, a table of how far the modules are ([`ProgressTable`]) and the page that is coming
//! ([`DuePage`], if there is one), and says whether a module that opens may be claimed. A step is what the feed told of
//! some bytes: [`advance`] changes the table, and tells an [`Event`]; `Event::coming_after` is the page that is coming
//! then. Of a module that is
//!
//! | | an Open | the page that is due | another page | a Close | the connection's fault |
//! |---|---|---|---|---|---|
//! | `Unclaimed` | it may be claimed: `Open`, and it is `Going`; else `Stray` | `Stray` | `Stray` | `Stray` | nothing |
//! | `Going` | `Stray` | `Begin` at its header, then `Code`; at its end a page more | `End`, `Ended` | `End`, `Ended` | `End`, `Ended` |
//! | `Ended` | `Stray` | `Stray` | `Stray` | `Stray` | nothing |
//!
//! A page is due once, in order, with its module's size of pages and its own length. Payload that is no `Code` is passed
//! over. [`fault_at_end`] is the fault that the end of the input brings, and [`lose_next`] ends the modules that are open
//! at a fault, one a call, the least number first.
//!
//! # What it may not know
//!
//! Where and how the table is kept, what becomes of code, what says whether a module may be claimed; memory, boards, queues.
//!
//! # Decisions
//!
//! - **Claims are a set of modules in contracts, and one answer in code**: what is told holds for any set to which the
//!   answers fit (`Answers`); where all claims succeed it is that of all modules.
//! - **How far the modules are is a trait**, since a C host keeps it in numbers and a receiver in an enum.
//! - **Code never goes past its page, whatever the numbers are** (`Continues`); no text is needed for that.
#![tactic(auto)]

mod due_page;
mod ending;
mod event;
mod progress_table;
mod step;

pub use due_page::DuePage;
pub use ending::{fault_at_end, lose_next};
pub use event::Event;
pub use progress_table::{OpenModule, ProgressTable};
pub use step::advance;

//! The reference implementation: it computes what a connection's text makes of its modules, and what becomes of them, over whole
//! lists, one simple step after another. It is slow, and copies a lot. It stands beside the definitions of lfi_model,
//! which each of its functions is proved to answer, so that the loader can be compared with it.
//!
//! # How data flows
//!
//! `report_on` takes whole texts, cuts each into messages, shares these out to modules, makes their items, and judges
//! all words of each module again and again, to one `PlainReport`.
//!
//! # What it may not know
//!
//! The loader: no code of lfi_stage, lfi_image or the queues.
//!
//! # Decisions
//!
//! - **It is proved against the definitions, and shares no code with the loader.** It reads headers by `Header::read`
//!   and `Header::fault`, and judges words by `judge` and `fault_after`. Everything else (the cut, the shares, the
//!   items, the outcomes, the report) is its own, over whole lists.
//! - **It keeps plain numbers, and its own `page_count` and `is_due`**: a mistake in the types or the arithmetic of
//!   `lfi_module` is then none of its own. Both are proved against the same definitions.
//! - **Types of its own**: `PlainMessage`, `PlainRest`, `PlainItem`, `PlainProgress` and `PlainShare` have plain
//!   numbers and vectors. An item there keeps no invariant: that its numbers are in range is proved from the messages.
//! - **Each module's share is computed twice**, once for the connection's fault and strays and once for its items,
//!   since the fault has to be known before the Ends are made. That is slow, and keeps each function to one loop.
//! - **Strays are exact up to a connection** (`u128`, so that sixteen counts of 64 bits can be added up), and stay at
//!   the greatest `u64` in the report.
//! - **Where a module is claimed for several streams, the report takes the first.** Each of these streams makes the
//!   items of a claimed module; a loader never claims one twice, so a comparison gives sets that are apart.
//! - **`load_module` asks for items whose words fit the module and that end.** `report_on` proves both of all items
//!   that a connection makes; a caller with other items can test them by `pages_of`, `all_words` and `end_of`.
//! - The first fault is that of all words so far as one page, by `judge` and `fault_after`; for each beginning of the
//!   pages it is computed anew.
#![tactic(auto)]

mod connection;
mod load;
mod message;
mod report;
mod rest;
mod share;
pub mod words;

pub use connection::{Connection, connection_of};
pub use load::{Loaded, load_module};
pub use message::{PlainExtent, PlainMessage, first_message};
pub use report::{PlainReport, PlainStream, report_on};
pub use rest::{PlainRest, rest_at};
pub use share::{PlainItem, PlainKind, PlainShare};

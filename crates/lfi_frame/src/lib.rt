//! Messages of a stream of bytes, however the bytes are cut into pieces.
//!
//! # How data flows
//!
//! A [`Feed`] is given a stream in pieces of any lengths and answers what they bring: a whole Open, the header of a
//! page, payload of a page, a whole Close, or the one fault of the stream. `Header::read` and `Header::judge` take 12
//! bytes to what a message begins with, or to its fault; `Header::bytes` and [`messages`] take it to the 12 bytes again.
//! The laws in [`laws`] say that what a feed tells is the one cut of all the bytes as messages.
//!
//! # What it may not know
//!
//! Which module is open, which page is due, what words mean.
//!
//! # Decisions
//!
//! - **A feed's tie has two indices, the messages and the rest** (`FeedStands`), and not the bytes: what a call tells
//!   is then a sentence about the rest and the bytes that the call used, and a receiver keeps the same two lists. The
//!   bytes are the messages' spellings and then the rest (the law `stands_cut`).
//! - **The laws over a whole run speak of the answers alone.** `hear` puts the messages together from each answer and
//!   the bytes that it used, and sees no feed.
//! - **The first fault counts.** After a fault every call answers it, uses nothing and leaves the feed as it is, `stop`
//!   and `end` too.
//! - **`end` without a fault changes nothing**: the feed may be fed on. `end` inside a message is the fault Ended, also
//!   after 1 to 11 bytes of a header. A module that is still open is the receiver's affair.
//! - **`stop` asks for NoMemory or ReadFailed**: a stop with a header's fault would say of the bytes what they don't
//!   show.
//! - **An empty piece is answered by More** with 0 bytes used, in a payload too. All other calls before a fault use at
//!   least one byte.
//! - **`Header` keeps its five raw numbers**, since a faulty header has numbers of no message. **`Header::judge` is
//!   public**: it alone turns them into what a header brings, by the types of `lfi_module`, or into the first fault;
//!   `fault` is its error. The code goes on with `MessageKind`, an enum.
//! - **No definition names a constant of the code**: it would follow a wrong constant. The definitions have the
//!   format's numbers as literals, and the profile's by the specs of `lfi_module`.
//! - **A fault prints as words** (`Display`, stated by `fault_text`), and reports print its `number()`.
//! - **What a feed holds is told by a relation of its own** (`HoldsHeader`), and not by `FeedStands`: a caller who wants to
//!   know where a message begins keeps both; whoever makes a feed of numbers (`at`) answers for the second alone.
//! - **`new` and `default` promise that the feed has no fault**, beside what they stand for: a feed with the fault
//!   NoMemory stands for no messages and no rest too.
//! - **Four clauses of `feed` beside the cut** shut what the cut alone leaves open: `header`, `payload`, `empty` and
//!   `moves`.
#![tactic(auto)]

mod answer;
mod fault;
mod feed;
mod header;
mod laws;
pub mod messages;

pub use answer::{Got, Step};
pub use fault::FrameFault;
pub use feed::{Feed, Position};
pub use header::{HEADER_BYTES, Header};
pub use laws::{any_pieces, fault_stays, header_reads_back, one_cut, stands_cut, whole_run};

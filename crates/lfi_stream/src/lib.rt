//! A connection's stream as it comes, in plain numbers that a caller keeps: which module opens, by which profile and with which pages, where
//! the bytes of its code belong, how it ends.
//!
//! # How data flows
//!
//! A [`LfiStreamText`] is the numbers that are kept between two pieces. [`next`] goes on in a piece, up to the end of a
//! header or a payload, and tells what the bytes that it used brought: an [`Event`], or
//! the stream's fault. [`end`] tells the end of the input, and then the modules that are lost by it. Numbers that no stream
//! can have are refused, so that code always lies within its module, whoever wrote the numbers.
//!
//! # What it may not know
//!
//! What words mean, where code lies, who keeps the numbers.
#![tactic(auto)]

mod beginning;
mod ending;
mod laws;
mod numbers;
mod stream;

pub use beginning::begin;
pub use ending::end;
pub use laws::{next_place, one_cut, one_outcome, whole_pages};
pub use lfi_connection::Event;
pub use numbers::{LfiStreamFeed, LfiStreamModule, LfiStreamPage, LfiStreamText};
pub use stream::next;

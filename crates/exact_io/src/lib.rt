//! Bytes read in full, and written in full, over any reader and writer: what std has too, with an answer that tells how
//! far it came.
//!
//! # What it may not know
//!
//! What the bytes mean, whose they are, what is told of an I/O error.
#![tactic(auto)]

mod reading;
mod writing;

pub use reading::fill;
pub use writing::write_in_full;

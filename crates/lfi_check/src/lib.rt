//! A module's code as bytes and its verdict: whole, or piece by piece.
//!
//! # How data flows
//!
//! `Code` is bytes that are code: 1 to 4,194,304 whole words. `judge_code` takes bytes to a `Verdict`: lawful, the first
//! fault, or no code. A `Beginning` judges code in pieces of whole words, and a `CutBeginning` in pieces that are cut within
//! words; what they hold between two pieces is a few numbers, which a C host keeps.
//!
//! # What it may not know
//!
//! Its callers; files, streams, C.
//!
//! # Decisions
//!
//! - **All ways have one definition** (`Checks`): the program's `check`, the C library's calls and the pieces of a stream
//!   cite it.
//! - **A piece is judged where it lies**, and no code is kept.
#![tactic(auto)]

mod beginning;
mod code;
mod cut;
mod verdict;

pub use beginning::Beginning;
pub use code::Code;
pub use cut::{CutBeginning, CutWord};
pub use verdict::{Verdict, judge_code};

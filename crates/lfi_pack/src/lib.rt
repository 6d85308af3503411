//! Packing: a code file is written as a stream of one module.
//!
//! # How data flows
//!
//! `pack_module` writes an Open, whose kind tells the profile and whose second byte the pages' size, the pages of the code,
//! and a Close, to any writer. The laws in [`laws`] say what a receiver makes of such streams, one after another: exactly
//! these modules, whole (`packed_items`).
//!
//! # What it may not know
//!
//! Words and verdicts: what is packed isn't judged. Receivers, the command line, and which system its files are on.
//!
//! # Decisions
//!
//! - **A page is read, and then written.** The Open says how long the code is, so code that is shorter or longer is a
//!   `PackFault`; a caller that mustn't write anything then hands over what it has read whole.
//! - **Large pages ask for profile 2**, and don't choose it: nobody is to get other rules by the size of a page.
#![tactic(auto)]

mod copying;
mod fault;
mod laws;
mod pack;

pub use fault::PackFault;
pub use laws::{numbered_modules, packed_items};
pub use pack::pack_module;

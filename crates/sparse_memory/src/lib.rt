//! 4 GiB of bytes, of which only the pages are kept that were asked for.
//!
//! # How data flows
//!
//! A [`SparseMemory`] has an index of its pages of 65,536 bytes, and the frames of those that are kept. `keep` makes sure of the
//! pages of some bytes, and is the only call that takes memory, beside `new`. `put` and its kin write numbers of 1, 2, 4 and 8 bytes to
//! pages that are kept; `byte` and `word_2` to `word_8` read them. A byte that was never written is 0.
//!
//! # What it may not know
//!
//! Instructions, slots, and which bytes may be accessed.
//!
//! # Decisions
//!
//! - **Memory grows in `keep` alone**, which is asked before anything is written. So no put can fail, and an access that is
//!   refused memory changes no byte.
//! - **Bytes of a number are written through the lent slice of frames.** Through the memory, one by one, each store of a
//!   byte may change the pointer to the frames, which is then read anew.
//! - **The index is a table of 2^16 numbers of 32 bits**, written at `new`: 256 KiB. Of pages of 4,096 bytes it would be 4 MiB, most
//!   of what a short run takes; an index of two levels has one more load an access. Frames are one `Vec`, which grows by doubling.
//! - **A refusal can't be made up elsewhere**: the two calls of refused.rt, which ask the allocator, make each [`MemoryRefused`], and
//!   `keep` has a clause that one comes only where a page wasn't kept. The number of a frame always fits, since each frame belongs
//!   to a page (`counted`).
#![tactic(auto)]

mod memory;
mod number;
mod pages;
mod refused;

pub use memory::SparseMemory;
pub use refused::MemoryRefused;

//! Pages of code in raw memory. The only crate that touches a pointer.
//!
//! # How data flows
//!
//! `OpenPage::new` asks the allocator for 4,096 bytes, or for 16,384 where the page is large, `write` appends bytes to
//! what is written, `seal` ends it: a `SealedPage` has at least one whole word and at most a full page's, 1,024 or
//! 4,096, which are read and never written. Pages move from part to part; their bytes
//! stay where they were written.
//!
//! A `Pool` has room for 64 small pages that nobody needs any more: `give` puts one there, `get` takes one, as an open
//! page in which nothing is written. Large pages aren't pooled: they are made anew, and freed. Threads share it by `&`, each by a seat of its own, and no call waits.
//!
//! # What it may not know
//!
//! What a page's words mean, whose page it is.
//!
//! # Decisions
//!
//! - **Pages stand over raw memory at once.** Five functions touch a pointer, all in page_buf/src/raw_bytes.rt, each
//!   with a proof by hand: `take`, `free`, `append` and `copy_bytes` (a byte a turn of a loop that the compiler makes a
//!   block copy of), `as_slice`. Everything else is safe code over them.
//! - Memory is never read unwritten, since only the written part has values and `as_slice` asks that the length is that
//!   of the written bytes; never freed twice, since the right to free (`Deed`) is used up by `free`; never written
//!   after sealing, since no call of `SealedPage` takes `&mut self` and its block is private.
//! - A byte or a word is read through the lent slice in safe code, so no pointer functions are needed for that.
//! - `word(i)` has the condition that `i` is below the number of words, and `len_words` tells that this is 1 to 4,096.
//! - **A page keeps the size that it was made with**, at its block, since the allocator wants it again. A contract sees
//!   it of open and of sealed pages: what a pool takes is small, and no other page gets into a slot, since the rule of
//!   the slots says that a full one has a small page in which nothing is written.
//! - A sealed page of given bytes is one function, `SealedPage::of`. A block is given back in the `drop` of one private
//!   struct that both kinds of page hold.
//! - **A page is made empty only once a slot is won for it**, so that what `give` hands back is the page as it was.
//!   Whoever got a page reads nothing of what it was before, since the length of what is written is 0.
//! - **A pool is 64 slots over `atomic_table`**, each with a word that says whether it is empty, full, or a seat is at
//!   it. A seat tries each slot once, from slot 0 on, and waits for none that another is at: so `None` of `get` and `Err`
//!   of `give` say that each slot was found not full, or not empty, each at a moment of its own. One call could find so
//!   much in a pool that is never empty, or never full; then a page is made anew, or freed.
//! - **A slot is looked at before it is tried**: a compare-and-exchange takes the line of memory for its own thread also
//!   where it fails, and so do the next 63. Of a load of 64 MiB without refused modules, whose pool is always empty, these
//!   were two thirds of the receivers' turns and a thirteenth of all processor time (15 of 196 ms, under a profiler).
#![tactic(auto)]

mod knowledge;
mod member;
mod page;
mod pool;
mod raw_bytes;

pub use knowledge::{Knowledge, SeenSlot};
pub use member::PoolMember;
pub use page::{OpenPage, SealedPage};
pub use pool::{Pool, PoolSeat};

//! Images: pages with their verdicts, put together to modules.
//!
//! # How data flows
//!
//! A sealed page is judged at its place in a module (`JudgedPage::judge`); page and verdict are kept together from then
//! on. A `Builder`, made anew or in `PageMemory` that was reserved before the module was known, places judged pages one
//! after another: `append` answers the first fault of the words placed so far and the page together, the seam's and the
//! open end's among them, and then hands the page back. Where all words are placed, `finish` gives the `CompleteImage`.
//!
//! What these calls do is told by specs/: Judged, Image, Built.
//!
//! # What it may not know
//!
//! How pages come, files, streams, items, connections, machines.
//!
//! # Decisions
//!
//! - **A judged page is a type.** `JudgedPage` keeps that its verdict is the judge's on its own words at its place, so
//!   `append` asks only that place and module are the builder's. Contracts see page, place and module, not the verdict:
//!   these determine what it says, and `verdict` hands it out.
//! - A judged page keeps too that it has the words due at its place. So `append` needs no condition on lengths, and
//!   what a builder holds is full pages and a last one.
//! - **A refused page comes back as a `SealedPage`**, without its verdict: it is never appended again, and its memory
//!   can be given back.
//! - `append`'s fault is that of `fault_after`: the seam's, else the open end's where the page completes the module.
//! - **`append` and `finish` take no memory**: `new` reserves memory for all pages, the type keeps that the reserve
//!   is large enough, and the branch of `append` in which the push would be refused is proved never to come.
//! - The type of `CompleteImage` keeps `IsImage`. A caller gets it from `words()`, whose clause `lawful` hands it out.
//! - **A module's pages are small or large**, as its extent says, and its builder and each judged page keep it.
//! - **Memory for a builder can be reserved before the module is known** (`PageMemory`, `Builder::in_memory`), so that whoever
//!   takes modules from others has all memory at its start.
//! - **An image lends its pages** (`pages`), as words one after another and nothing of their sizes: lfi_image_file writes
//!   them straight from their memory. It can't change one, and an image is made of placed pages alone.
#![tactic(auto)]

mod builder;
mod judged;
mod page_memory;

pub use builder::{Builder, CompleteImage};
pub use judged::JudgedPage;
pub use page_memory::PageMemory;

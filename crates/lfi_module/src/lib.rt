//! Modules by their numbers: which module it is, which profile it goes by, how many words it has and where it is entered,
//! and how its words are cut into pages. Source: this project's profile, docs/PROFILE.md.
//!
//! # How data flows
//!
//! Numbers from outside, of a header, a command line or an image file, come in by `ModuleNumber::new`, `WordCount::new`
//! and `Extent::new`, which test them. From then on each type keeps its range, so no other crate tests or states one
//! again. `PageSize` and `WordCount` say how many pages there are, how many bytes each has, and which one is due.
//!
//! # What it may not know
//!
//! Words, pages in memory, streams.
//!
//! # Decisions
//!
//! - **One crate at the bottom owns the profile's numbers** (`lfi_module`): each stands once in its code and once in
//!   its specs. Its types keep the ranges. The reference implementation alone has numbers of its own beside it, which its contracts
//!   tie to these definitions.
//! - **How many connections and verifiers there may be stands here too** (`CONNECTIONS`, `VERIFIERS`): the command line,
//!   the stage, its threads and the report name it, and have no other crate of the repository in common.
//! - **A module's number is its slot's.** There is one type for both, `ModuleNumber`, and no table between them.
//! - **`Extent` keeps that the entry is one of the words**, and has the profile and the pages' size beside them: what an
//!   Open says of a module. A header's answer, each item and a new builder have one. It keeps too that large pages are
//!   those of a module of the second profile (`HasPages`).
//! - **`ModuleNumber`, `WordCount` and `Extent` have two ways in**: `new`, which tests and answers an `Option`, for
//!   numbers from outside; and `at` or `of`, with a condition, for numbers that are known to be in range.
//! - **The page's size is a parameter** of the page arithmetic, in code (`PageSize`) and in definitions: it is
//!   `PageSize::SMALL`, 1,024 words, or `PageSize::LARGE`, 4,096. So laws are stated once, for any size.
//! - **`Profile` stands here**, at the bottom: words are decoded by it, modules are judged by it, and image files and
//!   command lines name it by its number.
//! - **`page_buf` names the pages' numbers of `lfi_module` in its contracts**, and nothing else of modules: a page of
//!   raw memory has one of the two sizes, and no module.
#![tactic(auto)]

mod extent;
mod limits;
mod number;
mod page_size;
mod profile;

pub use extent::{Extent, WordCount};
pub use limits::{CONNECTIONS, VERIFIERS};
pub use number::ModuleNumber;
pub use page_size::PageSize;
pub use profile::Profile;

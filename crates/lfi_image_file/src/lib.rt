//! An image and its file: written, and read back by judging it anew.
//!
//! # How data flows
//!
//! `write_image` writes the file of a `CompleteImage`, 24 bytes and the words, straight from the pages' memory.
//! `read_image` reads such a file: the header, then a page at a time, which is judged at its place and handed to a
//! `Builder` (lfi_image); where all words are placed and the file is at its end, there is the image. Otherwise there is
//! an `ImageFault`.
//!
//! What these calls do is told by specs/: Files, Reading with Faults. Two laws say what the definitions say together:
//! `file_of_an_image` and `one_image`.
//!
//! # What it may not know
//!
//! How modules come, streams, items, connections, machines, which system its files are on.
//!
//! # Decisions
//!
//! - **It is a crate of its own** since nothing between a stream and its images reads or writes a file: it is proved
//!   beside the stage.
//! - That an image is one by `IsImage` a caller gets from `words()` of lfi_image, and from `read_image`.
//! - A file that ends inside a page is Truncated though a word of that last piece breaks a rule: the page isn't whole,
//!   so it isn't judged.
//! - An interrupted read or write is a fault 9 like any other: it isn't tried again. After an Unlawful the reader
//!   stands behind the page with the fault; after any other Err of `read_image` it may be left anywhere.
//! - **That a file which ends early is no I/O error is shown by tests.** What a clause knows of a reader is the
//!   bytes that it has left, and a read that fails leaves as many as one that finds the end. So no clause on a reader's
//!   bytes tells the two apart, for a body that gets either.
//! - **"Ok exactly where"** is said by three clauses: Ok gives an image whose file is all that was read; each Err is a
//!   fault of the file by `IsFault`; and the law `file_of_an_image` says that the file of an image has none of the
//!   faults 1 to 7. 8 comes only after a header without a fault; that 8 and 9 don't always come is for tests.
//! - `write_image` writes the header in one call and then a page a call, straight from the page's memory. `read_image`
//!   reads a page a call into a buffer and copies it once into the page. A caller that wants larger calls wraps the
//!   file in a `BufWriter` or `BufReader`, which is one more copy.
//! - **Sixteen pages a call were tried, and left.** Gathered writes copy each byte once more; reads ahead read past a
//!   page that breaks a rule, where the rest is to stay unread. Reading 16 MiB gained about 1.7 ms of 28, of which 22
//!   are the judge's.
//! - **A file doesn't say how its module came**, in small pages or large ones: `read_image` judges 1,024 words at a
//!   time, and writing knows of no pages' size.
//! - Only the header's numbers go through `byteorder`; code is moved as bytes.
#![tactic(auto)]

mod fault;
mod header;
mod laws;
mod reading;
mod writing;

pub use fault::ImageFault;
pub use laws::{file_of_an_image, one_image};
pub use reading::read_image;
pub use writing::write_image;

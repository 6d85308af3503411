//! The commands of `lfiload` that start no thread, `check`, `run`, `disassemble`, `pack`, `unpack` and `info`, over any reader,
//! disk and outputs; and what all commands share: failures and their texts, where they are told, files and images that are
//! read and put, and how a run ends.
//!
//! # How data flows
//!
//! A command has its options, opens its file by a `Disk`, and judges, explains, lists, packs or runs what the reader has left
//! by the crates below. What it writes, puts and tells goes to its `Outputs`. What failed is a `Failure`, told by `Errors`; how
//! it ended is an `Ending`, whose number is the exit status. For a load, `open_all` makes inputs of files,
//! `write_refused` tells of refused modules, and `write_asked_images` puts whole images into a folder.
//!
//! # What it may not know
//!
//! Threads and the stage; the arguments; how words are judged, explained, listed or packed or images run;
//! which system its files are on.
//!
//! # Decisions
//!
//! - **Files are reached through two small traits.** `Disk` opens a reader of the file at a path, `ImageStore` puts an image's
//!   file, and a ghost member of each tells contracts its bytes. Those of the system tell nothing: their calls, with a few lines
//!   of `main`, are all that stands outside of the contracts. Tests have others in memory that tell their bytes.
//! - **What a run writes to is one value, `Outputs`**, which contracts see as what is left there (`Left`). What it reads is
//!   beside it.
//! - **`put_image` takes the image, and not a writer that the caller fills**: the path for which a writer was made could be
//!   mixed up. An image's path is that of its own slot. One that can't be written is told of, and the others are written.
//! - **`Errors` alone knows whether a line is lost.** A contract can't say that a write failed, so each failure is told "unless
//!   something is lost", and only a failed write of `Errors` makes it so. A line that is lost makes the run Failed.
//! - **Contracts speak of all that a reader has left**, so a body that judges a part is refused. A file's length is a hint:
//!   `check` reads all bytes whatever it says, up to one more than can be code.
//! - **What is explained is read whole**, since an explanation has the words near it. `check` without flags keeps no code.
//! - **Each byte that code prints is written at its call.** A write that fails ends the run there, with the status 255.
//! - **A JSON object is put together as a text** (members, objects), and the text of each has a definition (Json.antt), which reads as
//!   the object does. Strings are quoted by the kit's `serde_json`. A file's object is written whole, and no value is built of it.
//! - **`run --format json` tells on the errors**, where its line stands: the output is that of the code.
//! - **`check` and `info` tell of each of several files by itself**: one that can't be read is no failure of the command.
//! - **`info` reads a file up to a bound**, and cuts a stream by the reference implementation's `first_message`: it needn't be fast.
//! - **`pack` reads all its files before it writes**, so that one which is no code leaves nothing on the output. It then ends
//!   with 1, as code that is refused: nothing failed.
//! - **The cause of an I/O error is told by the kind of the system's error**, since a library's text is in no contract.
//! - **Where values live that are dropped, an early return is a `match` and not a `?`**: its proof costs less.
#![tactic(auto)]

mod checking;
mod device_cause;
mod disk;
mod ending;
mod errors;
mod explaining;
mod failure;
mod finding;
mod image_items;
mod images;
mod info;
mod judging;
mod kind;
mod listed;
mod members;
mod naming;
mod no_code;
mod objects;
mod opening;
mod outputs;
mod packing;
mod pieces;
mod refused;
mod run_object;
mod running;
mod texts;
mod unpacking;
mod whole;

pub use checking::{CommandFault, check, check_file};
pub use device_cause::DeviceCause;
pub use disk::{Disk, ImageStore, SystemDisk, SystemStore};
pub use ending::Ending;
pub use errors::{Errors, ended, tell_failure, tell_unread_arguments};
pub use explaining::disassemble;
pub use failure::{Failure, Target};
pub use finding::Finding;
pub use image_items::ImageItems;
pub use images::write_asked_images;
pub use info::run_info;
pub use judging::run_check;
pub use kind::{FileKind, KindLine};
pub use listed::Listed;
pub use members::{push_comma, push_explanation, push_plain, push_quoted};
pub use naming::Naming;
pub use no_code::NoCode;
pub use objects::write_object;
pub use opening::open_all;
pub use outputs::Outputs;
pub use refused::{refusal_of, write_refused};
pub use run_object::FaultMembers;
pub use running::{run_disassemble, run_pack, run_run};
pub use texts::write_text;
pub use unpacking::run_unpack;

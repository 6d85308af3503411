//! The program: from the arguments to its ending; and the commands that load streams on threads, `load`
//! and `serve`.
//!
//! # How data flows
//!
//! `run_words` reads the words (lfi_command_line) and carries the line out: by a command of lfi_file_commands, or by `load`
//! or `serve`, which load streams on threads (lfi_loader) and write the report; then what is asked for beside it is told,
//! and images are put. Where an object is asked for, images are put first, since it tells what came of them. What failed is
//! told by `Errors`; how it ended is an `Ending`, whose number is the exit status.
//!
//! # What it may not know
//!
//! How streams are loaded; how words are judged, explained, listed or packed or images run; which system its files are on.
//!
//! # Decisions
//!
//! - **What the words ask for is said by the parser's own definitions** of this program's command (`AreTakenFor`), not by a
//!   second grammar. Numbers are tested by the parser, so that `read_line` hands out numbers in their ranges. Its texts, as
//!   that of `--help`, are in no contract, and neither is that they are written: tests look.
//! - **`--all` alone means `--explain --all`**: the parser's definitions of faults speak of arguments without rules on each
//!   other. It has no bound for streams either that keeps them simple, so more than 8 are told here.
//! - **The man page is written from `--help`** (`checks/man_page`), so that there is one text; the gate compares them.
//! - **Which of several connections that open one module is first depends on the schedule**; all else is one plain pass.
//! - **`module M refused` is written by what `run_words` is handed for notices**, while threads run; its contract says
//!   nothing of these lines, and the writer for errors has none of them.
//! - **A stream that can be opened and then not read is no failure of its own**: the read that fails is the connection's
//!   fault 10, what had come is told, and the status is 3. Why it failed has a line on the errors.
//! - **A client that was cut off makes a run not well**, though its report may be: a stream that was cut between two
//!   messages looks complete. What became of clients is told after the images were put, by a line each.
//! - **A body that always fails, as if for want of memory, is proved**: no contract can say that there was memory. It has to
//!   tell of it, and the tests refuse it. `checks/refused_growth` refuses each allocation and each thread from outside, since
//!   a test can't; it is no part of `rt ci`, since it traces the built program.
//! - **The program is `main` and one function**, over two libraries: as a program each edit loads all modules below.
//! - **What needs no threads is carried out by a function of its own** (`run_files`): the borrow checker's part of a proof
//!   grows with a function's steps times its variables, and with the traits of its parameters.
#![tactic(auto)]

mod clients;
mod ending;
mod explained;
mod members;
mod notices;
mod objects;
mod program;
mod reporting;
mod sources;

pub use ending::ending_of_load;
pub use lfi_command_line::Arguments;
pub use notices::WrittenNotices;
pub use program::run_words;
pub use reporting::write_report;

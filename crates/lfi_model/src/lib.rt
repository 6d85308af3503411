//! What a connection's text makes of its modules, and what becomes of them: the definitions, over whole lists, and
//! their laws; and the items that the parts of a stage hand on.
//!
//! # How data flows
//!
//! specs/: Texts and Items say which items a connection's messages make of each module, with its fault and its strays;
//! Modules what the items of a module are like; Outcomes what becomes of one (`Load`, `Placed`). An `Item` carries an
//! Open, a page or an End; `judge` makes a `Judged` item of it. `Summary` is the text of a run.
//!
//! # What it may not know
//!
//! How any of it is computed.
//!
//! # Decisions
//!
//! - **`Lost` carries the frame fault as an enum** and not a number: the number is for reports alone.
//! - **`Summary` is the one text of a run**: outcomes, faults and strays, without images. The stage's report and the
//!   reference implementation's each give one, the program prints it, tests compare it, and whether a run went well is asked of
//!   it.
//! - **`Outcome::Complete` carries a plain number**, and no `WordCount`: an outcome is for telling, the reference implementation
//!   makes it of plain numbers, and nothing rests on its range.
//! - **`ItemsOf` is stated module by module**: outcomes read it so, and the order between the modules of one connection
//!   is never used.
//! - **A fault of the rest's header wins over the cause.** A connection that came to a faulty header has the cause End.
//! - **A page's outcome past the module's length can't happen and is no case.** The type of an item keeps that a page
//!   has exactly the words due, so no module has more words than its Open said.
#![tactic(auto)]

mod connection;
mod item;
mod judged;
mod laws;
mod outcome;
mod summary;

pub use connection::{EndCause, Progress};
pub use item::{Item, ItemKind, NumberedItem, PageBody, Reason};
pub use judged::Judged;
pub use laws::{items_are_a_module, longest_beginning, one_items, one_load, one_more_message};
pub use outcome::Outcome;
pub use summary::Summary;

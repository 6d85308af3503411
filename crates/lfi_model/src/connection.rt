//! What is known of one connection.

use lfi_module::Extent;

/// What ended the input of a connection.
#[derive(Clone, Copy, PartialEq, Eq)]
pub enum EndCause {
    /// The input ended, or came to a header with a fault.
    End,
    /// A read failed.
    Failed,
    /// There was no memory for the page whose header came last.
    Starved,
}

/// How far a connection has come with a module.
#[derive(Clone, Copy, PartialEq, Eq)]
pub enum Progress {
    /// The connection hasn't claimed it.
    Unclaimed,
    /// It is open, and `pages` of its pages have come.
    Going { extent: Extent, pages: u32 },
    /// It has ended.
    Ended,
}

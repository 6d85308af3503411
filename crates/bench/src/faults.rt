//! Why something can't be measured.

use std::alloc::AllocError;
use std::{fmt, io};

/// Why something can't be measured.
#[derive(Clone, Copy)]
pub(crate) enum Fault {
    /// An I/O error, or memory was refused.
    System(io::Error),
    /// This.
    Is(&'static str),
}

impl fmt::Display for Fault {
    fn fmt<W: fmt::Write>(&self, f: &mut fmt::Formatter<W>) -> fmt::Result {
        match self {
            Fault::System(error) => write!(f, "{error}"),
            Fault::Is(text) => f.write_str(text),
        }
    }
}

impl From<io::Error> for Fault {
    fn from(error: io::Error) -> Fault {
        Fault::System(error)
    }
}

impl From<AllocError> for Fault {
    fn from(error: AllocError) -> Fault {
        Fault::System(io::Error::from(error))
    }
}

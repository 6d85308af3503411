//! Why a load can't be carried out.

use std::alloc::{AllocError, AllocFailed};
use std::error::Error;
use std::fmt;

/// Why a load can't be carried out.
#[derive(Clone, Copy, Debug, PartialEq, Eq)]
pub enum LoadError {
    /// There is no memory for the stage, for what a connection's reads give, or for the handles of
    /// threads.
    NoMemory,
    /// A thread can't be started.
    NoThread,
}

impl fmt::Display for LoadError {
    fn fmt<W: fmt::Write>(&self, f: &mut fmt::Formatter<W>) -> fmt::Result {
        match self {
            LoadError::NoMemory => f.write_str("no memory"),
            LoadError::NoThread => f.write_str("no thread"),
        }
    }
}

impl Error for LoadError {}

impl From<AllocError> for LoadError {
    ghost use Rattle.std.specs.Prelude.{◌≡◌};
    ghost use Rattle.lfi_sync.specs.declared.refusal.LoadError.TheVariants.{NoMemory};

    ghost from_gives = { λ _ error. error ≡ NoMemory };

    fn from(_error: AllocError) -> LoadError {
        LoadError::NoMemory
    }
}

impl<T: Drop> From<AllocFailed<T>> for LoadError {
    ghost use Rattle.std.specs.Prelude.{◌≡◌};
    ghost use Rattle.lfi_sync.specs.declared.refusal.LoadError.TheVariants.{NoMemory};

    ghost from_gives = { λ _ error. error ≡ NoMemory };

    fn from(_refused: AllocFailed<T>) -> LoadError {
        LoadError::NoMemory
    }
}

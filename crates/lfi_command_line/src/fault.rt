//! What is wrong with the arguments.

ghost use Rattle.lfi_command_line.specs.CommandLine.{fault_from};

use crate::flaw::Flaw;
use clap::Error;
use clap::error::ErrorKind;
use std::alloc::{AllocError, AllocFailed};
use thiserror::Error;

/// Why the arguments ask for nothing that can be carried out.
#[derive(Debug, Drop, Error)]
pub enum LineFault {
    /// There was no memory to read them.
    #[error("no memory")]
    NoMemory,
    /// They ask for help: the parser's text.
    #[error("{0}")]
    Help(Error),
    /// They are wrong: the parser's text.
    #[error("{0}")]
    Wrong(Error),
    /// They name pages of a size that is neither small, nor large by the second profile.
    #[error("pages are small, or large with --profile 2")]
    NoPages,
    /// They name a form of the answer that there isn't.
    #[error("--format is text or json")]
    NoFormat,
    /// They ask for a line that can't be carried out.
    #[error("{0}")]
    Flawed(Flaw),
}

impl From<AllocError> for LineFault {
    ghost use Rattle.std.specs.Prelude.{◌≡◌};
    ghost use Rattle.lfi_command_line.specs.declared.fault.LineFault.TheVariants.{NoMemory};

    ghost from_gives = { λ _ fault. fault ≡ NoMemory };

    fn from(_error: AllocError) -> LineFault {
        LineFault::NoMemory
    }
}

impl From<Error> for LineFault {
    ghost use Rattle.std.specs.Prelude.{◌≡◌};

    ghost from_gives = { λ error fault. fault ≡ fault_from error };

    fn from(error: Error) -> LineFault {
        match error.kind() {
            ErrorKind::OutOfMemory => LineFault::NoMemory,
            ErrorKind::DisplayHelp | ErrorKind::DisplayVersion => LineFault::Help(error),
            _ => LineFault::Wrong(error),
        }
    }
}

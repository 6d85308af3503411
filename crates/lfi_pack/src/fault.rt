//! Why a module isn't packed.

ghost use Rattle.std.specs.Prelude.{Some};
ghost use Rattle.lfi_pack.specs.Faults.{fault_text};

use std::error::Error;
use std::{fmt, io};

/// Why a module isn't packed.
#[derive(Clone, Copy, Debug, PartialEq, Eq)]
pub enum PackFault {
    /// The input ends before all words of the module have come.
    Shorter,
    /// The input has a byte after the module's last word.
    Longer,
    /// A read of the input failed, with an error of this kind.
    ReadFailed(io::ErrorKind),
    /// A write failed, with an error of this kind, or took nothing of what was left.
    WriteFailed(io::ErrorKind),
}

impl fmt::Display for PackFault {
    ghost output = { λ fault. Some (fault_text fault) };

    /// Writes what is wrong in plain words.
    fn fmt<W: fmt::Write>(&self, f: &mut fmt::Formatter<W>) -> fmt::Result {
        match self {
            PackFault::Shorter => f.write_str("code shorter than told"),
            PackFault::Longer => f.write_str("code longer than told"),
            PackFault::ReadFailed(_) => f.write_str("read failed"),
            PackFault::WriteFailed(_) => f.write_str("write failed"),
        }
    }
}

impl Error for PackFault {}

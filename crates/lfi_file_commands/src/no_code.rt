//! Files that are to be code and are none.

ghost use Rattle.std.specs.Prelude.{◌≡◌, Some, length};
ghost use Rattle.lfi_file_commands.specs.Kinds as spec;

use crate::kind::FileKind;
use lfi_module::WordCount;
use std::fmt;

/// What is known of bytes that are no code.
#[derive(Clone, Copy, PartialEq, Eq)]
pub struct NoCode {
    /// What the file is.
    pub kind: FileKind,
    /// How many bytes it has; 16,777,217, where it has as many or more.
    pub bytes: usize,
}

impl NoCode {
    /// Of these bytes, of which no more than 16,777,217 were read.
    pub(crate) fn of(bytes: &[u8]) -> NoCode
        ensures kind { result.kind ≡ spec.file_kind bytes.now }
        ensures bytes { result.bytes ≡ length bytes.now }
    {
        NoCode {
            kind: FileKind::of(bytes),
            bytes: bytes.len(),
        }
    }
}

/// A number of bytes.
#[derive(Clone, Copy)]
struct Length(usize);

impl fmt::Display for Length {
    ghost output = { λ count. Some (spec.length_text count.0) };

    fn fmt<W: fmt::Write>(&self, f: &mut fmt::Formatter<W>) -> fmt::Result {
        if WordCount::MOST_BYTES < self.0 {
            f.write_str("more than 16777216 bytes")
        } else {
            write!(f, "{} bytes", self.0)
        }
    }
}

/// That the file at a path is no code: which length it has, and which are asked for.
#[derive(Clone, Copy)]
pub(crate) struct BadLength<'a> {
    pub(crate) path: &'a str,
    pub(crate) no_code: NoCode,
}

impl fmt::Display for BadLength<'_> {
    ghost output = { λ told. Some (spec.bad_length_text told.path.now told.no_code) };

    fn fmt<W: fmt::Write>(&self, f: &mut fmt::Formatter<W>) -> fmt::Result {
        write!(
            f,
            "bad length {}\n  {}; code has a multiple of 4, from 4 to 16777216",
            self.path,
            Length(self.no_code.bytes)
        )
    }
}

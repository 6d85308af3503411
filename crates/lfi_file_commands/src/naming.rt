//! The names of files before what is told of them.

ghost use Rattle.std.specs.Prelude.{◌≡◌, Some, length};
ghost use Rattle.lfi_file_commands.specs.Checking.{name_before, naming_text};

use std::fmt;

/// What stands before what is told of a file.
#[derive(Clone, Copy)]
pub enum Naming<'a> {
    /// Nothing: it is the only one.
    Alone,
    /// Its path, since there are others.
    Named(&'a str),
}

impl fmt::Display for Naming<'_> {
    ghost output = { λ naming. Some (naming_text naming) };

    fn fmt<W: fmt::Write>(&self, f: &mut fmt::Formatter<W>) -> fmt::Result {
        match self {
            Naming::Alone => Ok(()),
            Naming::Named(path) => write!(f, "{path}: "),
        }
    }
}

/// What stands before what is told of the file at this path, which is one of these.
pub(crate) fn name_of<'a>(paths: &[&'a str], path: &'a str) -> Naming<'a>
    ensures { naming_text result ≡ name_before (length paths.now) path.now }
{
    if paths.len() == 1 {
        Naming::Alone
    } else {
        Naming::Named(path)
    }
}

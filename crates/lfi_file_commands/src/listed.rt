//! What was listed of a file.

ghost use Rattle.std.specs.Prelude.{◌≡◌};
ghost use Rattle.lfi_file_commands.specs.Listing.{ending_of_listed};

use crate::ending::Ending;
use crate::kind::FileKind;
use crate::no_code::NoCode;

/// What was listed of a file.
#[derive(Clone, Copy, PartialEq, Eq)]
pub enum Listed {
    /// Its words, as code. This is what it begins as.
    Words(FileKind),
    /// One line, since it is no code.
    NoCode(NoCode),
}

impl Listed {
    /// How a run ends that lists this.
    pub(crate) fn ending(self) -> Ending
        ensures { result ≡ ending_of_listed self }
    {
        match self {
            Listed::Words(_) => Ending::Well,
            Listed::NoCode(_) => Ending::NotWell,
        }
    }
}

//! Why there is no image, or no file.

ghost use Rattle.std.specs.Prelude.{◌≡◌, Some};
ghost use Rattle.lfi_image_file.specs.Faults.{number_of, fault_text};

use lfi_rules::Fault;
use std::error::Error;
use std::fmt;

/// Why an image file was not read, or not written. Its numbers are those of reports (docs/PROFILE.md, "Faults").
#[derive(Clone, Copy, PartialEq, Eq)]
pub enum ImageFault {
    /// The file does not begin with `LFI1`.
    Magic,
    /// The profile is neither 1 nor 2.
    Profile,
    /// The number of words is not 1 to 4,194,304, or the entry is not below it.
    Counts,
    /// The base is that of no slot.
    Base,
    /// The file ends before its header or its code does.
    Truncated,
    /// Bytes follow the code.
    More,
    /// The code breaks a rule.
    Unlawful(Fault),
    /// There was no memory for the image.
    NoMemory,
    /// A read or a write failed.
    Device,
}

impl ImageFault {
    /// Its number in reports, 1 to 9.
    pub fn number(self) -> u8
        ensures { result ≡ number_of self }
    {
        match self {
            ImageFault::Magic => 1,
            ImageFault::Profile => 2,
            ImageFault::Counts => 3,
            ImageFault::Base => 4,
            ImageFault::Truncated => 5,
            ImageFault::More => 6,
            ImageFault::Unlawful(_) => 7,
            ImageFault::NoMemory => 8,
            ImageFault::Device => 9,
        }
    }
}

impl fmt::Display for ImageFault {
    ghost output = { λ fault. Some (fault_text fault) };

    /// Writes what is wrong in plain words, without the number.
    fn fmt<W: fmt::Write>(&self, f: &mut fmt::Formatter<W>) -> fmt::Result {
        match self {
            ImageFault::Magic => f.write_str("it is no image file"),
            ImageFault::Profile => f.write_str("its profile is neither 1 nor 2"),
            ImageFault::Counts => f.write_str("its word count or its entry is out of range"),
            ImageFault::Base => f.write_str("its base is that of no slot"),
            ImageFault::Truncated => f.write_str("it ends before its header or its code does"),
            ImageFault::More => f.write_str("bytes follow its code"),
            ImageFault::Unlawful(fault) => write!(
                f,
                "word {} breaks rule {}",
                fault.word, fault.rule
            ),
            ImageFault::NoMemory => f.write_str("there is no memory for it"),
            ImageFault::Device => f.write_str("a read or a write failed"),
        }
    }
}

impl fmt::Debug for ImageFault {
    /// Writes the same, since a fault of code has no other text.
    fn fmt<W: fmt::Write>(&self, f: &mut fmt::Formatter<W>) -> fmt::Result {
        write!(f, "{self}")
    }
}

impl Error for ImageFault {}

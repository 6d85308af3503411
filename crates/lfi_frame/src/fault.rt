//! What can be wrong with a stream.

ghost use Rattle.std.specs.Prelude.{◌≡◌, Some};
ghost use Rattle.lfi_frame.specs.Faults.{number_of, fault_text};

use std::error::Error;
use std::fmt;

/// The one fault of a stream: the first of them that comes counts, and the stream tells nothing
/// more after it.
///
/// The first seven are faults of a header, in the order in which a header is judged. Source:
/// docs/PROFILE.md, "Faults".
#[derive(Clone, Copy, Debug, PartialEq, Eq)]
pub enum FrameFault {
    /// The kind, a header's first byte, isn't 1 (Open), 2 (Page), 3 (Close), 4 (Open by the second
    /// profile) or 5 (large Page).
    Kind,
    /// The second byte of a header isn't 0, nor, in an Open by the second profile, 2.
    SecondByte,
    /// The module is 16 or more.
    Module,
    /// The payload of a Page isn't of 4 to 4,096 bytes, or that of a large one of 4 to 16,384, a
    /// multiple of 4.
    PageLength,
    /// One of the two numbers of a Close isn't 0.
    CloseNumbers,
    /// The word count of an Open isn't in 1 to 4,194,304.
    WordCount,
    /// The entry word of an Open isn't below its word count.
    Entry,
    /// There was no memory for a page.
    NoMemory,
    /// The input ended too early.
    Ended,
    /// A read of the input failed.
    ReadFailed,
}

impl FrameFault {
    /// The number of the fault in reports, 1 to 10.
    pub fn number(self) -> u8
        ensures { result ≡ number_of self }
    {
        match self {
            FrameFault::Kind => 1,
            FrameFault::SecondByte => 2,
            FrameFault::Module => 3,
            FrameFault::PageLength => 4,
            FrameFault::CloseNumbers => 5,
            FrameFault::WordCount => 6,
            FrameFault::Entry => 7,
            FrameFault::NoMemory => 8,
            FrameFault::Ended => 9,
            FrameFault::ReadFailed => 10,
        }
    }
}

impl fmt::Display for FrameFault {
    ghost output = { λ fault. Some (fault_text fault) };

    /// Writes what is wrong in plain words, without the number.
    fn fmt<W: fmt::Write>(&self, f: &mut fmt::Formatter<W>) -> fmt::Result {
        match self {
            FrameFault::Kind => f.write_str("unknown kind of message"),
            FrameFault::SecondByte => f.write_str("second byte not zero"),
            FrameFault::Module => f.write_str("no such module"),
            FrameFault::PageLength => f.write_str("page length out of range"),
            FrameFault::CloseNumbers => f.write_str("close with numbers"),
            FrameFault::WordCount => f.write_str("word count out of range"),
            FrameFault::Entry => f.write_str("entry past the last word"),
            FrameFault::NoMemory => f.write_str("no memory for a page"),
            FrameFault::Ended => f.write_str("input ended too early"),
            FrameFault::ReadFailed => f.write_str("read failed"),
        }
    }
}

impl Error for FrameFault {}

//! What became of a module.

ghost use Rattle.std.specs.Prelude.{Some};
ghost use Rattle.lfi_model.specs.Texts.{outcome_text};

use lfi_frame::FrameFault;
use lfi_rules::Fault;
use std::fmt;

/// What became of a module.
#[derive(Clone, Copy, PartialEq, Eq)]
pub enum Outcome {
    /// No connection claimed it.
    Unused,
    /// All its words came, and they are lawful.
    Complete { words: u32 },
    /// Its first fault.
    Refused(Fault),
    /// It was closed when only the first pages had come.
    Incomplete { pages: u32, of: u32 },
    /// Its connection came to this fault while the module was open.
    Lost(FrameFault),
    /// This page, by its index, wasn't the one due, or hadn't its length or its size.
    PageFault(u32),
    /// There was no memory for it.
    NoMemory,
}

impl Outcome {
    ghost use Rattle.std.specs.Prelude.{◌≡◌};
    ghost use Rattle.lfi_model.specs.Outcomes.{is_well};

    /// Whether the module is complete, or was not claimed.
    pub fn is_well(&self) -> bool
        ensures { result ≡ is_well self.now }
    {
        matches!(self, Outcome::Unused | Outcome::Complete { .. })
    }
}

impl fmt::Display for Outcome {
    ghost output = { λ outcome. Some (outcome_text outcome) };

    fn fmt<W: fmt::Write>(&self, f: &mut fmt::Formatter<W>) -> fmt::Result {
        match self {
            Outcome::Unused => write!(f, "unused"),
            Outcome::Complete { words } => write!(f, "complete, {words} words"),
            Outcome::Refused(fault) => write!(f, "refused, {fault}"),
            Outcome::Incomplete { pages, of } => write!(f, "incomplete, {pages} of {of} pages"),
            Outcome::Lost(fault) => {
                let number = fault.number();
                write!(f, "lost, fault {number}")
            }
            Outcome::PageFault(index) => write!(f, "page fault, index {index}"),
            Outcome::NoMemory => write!(f, "no memory"),
        }
    }
}

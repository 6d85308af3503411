//! What is found of a file that is to be code.

ghost use Rattle.std.specs.Prelude.{◌≡◌, ◌≢◌, Some, None, IfSome};
ghost use Rattle.lfi_file_commands.specs.Checking.{other_of, verdict_of};

use crate::no_code::NoCode;
use lfi_check::Verdict;
use lfi_rules::Fault;

/// What is found of a file that is to be code.
#[derive(Clone, Copy, PartialEq, Eq)]
pub enum Finding {
    /// No word breaks a rule.
    Lawful { words: u32 },
    /// The first fault.
    Refused(Fault),
    /// It isn't 1 to 4,194,304 whole words.
    NoCode(NoCode),
}

impl Finding {
    /// Of code with this verdict; `None`, where it is no code.
    pub(crate) fn of(verdict: Verdict) -> Option<Finding>
        ensures same { IfSome result (λ finding. verdict_of finding ≡ verdict) }
        ensures code { IfSome result (λ finding. other_of finding ≡ None) }
        ensures none { result ≡ None → verdict ≡ Verdict.BadLength }
    {
        match verdict {
            Verdict::Lawful { words } => Some(Finding::Lawful { words }),
            Verdict::Refused(fault) => Some(Finding::Refused(fault)),
            Verdict::BadLength => None,
        }
    }

    /// The verdict.
    pub fn verdict(&self) -> Verdict
        ensures { result ≡ verdict_of self.now }
    {
        match self {
            Finding::Lawful { words } => Verdict::Lawful { words: *words },
            Finding::Refused(fault) => Verdict::Refused(*fault),
            Finding::NoCode(_) => Verdict::BadLength,
        }
    }

    /// What is known of it where it is no code.
    pub fn other(&self) -> Option<NoCode>
        ensures { result ≡ other_of self.now }
    {
        match self {
            Finding::NoCode(no_code) => Some(*no_code),
            _ => None,
        }
    }
}

//! Whether code is lawful.

ghost use Rattle.std.specs.Prelude.{Some};
ghost use Rattle.lfi_check.specs.Checking.{Checks, verdict_text};

use crate::code::Code;
use lfi_module::Profile;
use lfi_rules::{Fault, check_all};
use std::fmt;

/// What is found of code.
#[derive(Clone, Copy, PartialEq, Eq)]
pub enum Verdict {
    /// No word breaks a rule.
    Lawful { words: u32 },
    /// The first fault.
    Refused(Fault),
    /// It isn't 1 to 4,194,304 whole words.
    BadLength,
}

impl fmt::Display for Verdict {
    ghost output = { λ verdict. Some (verdict_text verdict) };

    fn fmt<W: fmt::Write>(&self, f: &mut fmt::Formatter<W>) -> fmt::Result {
        match self {
            Verdict::Lawful { words } => write!(f, "lawful, {words} words"),
            Verdict::Refused(fault) => write!(f, "{fault}"),
            Verdict::BadLength => write!(f, "bad length"),
        }
    }
}

/// Judges code by all rules of a profile.
///
/// ```
/// match judge_code(bytes, Profile::One) {
///     Verdict::Lawful { words } => keep(bytes, words),
///     Verdict::Refused(fault) => refuse(fault.word, fault.rule),
///     Verdict::BadLength => refuse_file(),
/// }
/// ```
pub fn judge_code(bytes: &[u8], profile: Profile) -> Verdict
    ensures { Checks profile bytes.now result }
{
    let Some(code) = Code::new(bytes) else {
        return Verdict::BadLength;
    };
    let words = code.len_words() as u32;
    match check_all(&code, profile) {
        Some(fault) => Verdict::Refused(fault),
        None => Verdict::Lawful { words },
    }
}

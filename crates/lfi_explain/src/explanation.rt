//! What is told of a fault.

ghost use Rattle.std.specs.Prelude.{◌≡◌, ◌<◌, ◌≤◌, length, Some};
ghost use Rattle.lfi_module.specs.Numbers.{most_words};
ghost use Rattle.lfi_explain.specs.Explanations as spec;
ghost use Rattle.lfi_explain.specs.Sentences.{unmet_in, gone_before};

use crate::located::Located;
use crate::mend_of_word::{instruction_after, mend_at, unmet};
use crate::mending::Mending;
use crate::opener::{Opener, opener_before};
use crate::sentence::Sentence;
use crate::spelling::Spelling;
use a64_word::Words;
use lfi_mends::{Mend, Reason};
use lfi_module::{ModuleNumber, Profile, WordCount};
use lfi_rules::{Fault, Need, Rule};
use std::fmt;

/// A fault of a module, of which some words are known.
#[derive(Clone, Copy)]
pub struct KnownFault {
    /// The slot in which the module lies.
    pub slot: ModuleNumber,
    /// How many words the module has.
    pub words: WordCount,
    /// The profile that it goes by.
    pub profile: Profile,
    /// The place, and the rule that its word breaks.
    pub fault: Fault,
}

/// A fault, with the words that it speaks of.
#[derive(Clone, Copy)]
pub struct Explanation {
    /// The place, and the rule that its word breaks.
    pub fault: Fault,
    /// The slot in which the module lies.
    pub slot: ModuleNumber,
    /// How many words the module has.
    pub words: u32,
    /// The word at the place.
    pub at: Spelling,
    /// The word before it that opens a need, or that before it, if there is one.
    pub opener: Option<Opener>,
    /// What stands in the word's place; or, where the fault is that a need isn't met, beside it.
    pub mend: Result<Mend, Reason>,
}

impl Explanation {
    /// What a word before asks of the one at the place, where that doesn't meet it; else Nothing.
    pub fn unmet(&self) -> Need
        ensures { result ≡ unmet_in self.now }
    {
        unmet(&self.at, &self.opener)
    }

    /// Behind how many calm words the word is that has to meet what one before opens.
    pub(crate) fn gone(&self) -> u8
        ensures { result ≡ gone_before self.now.opener }
    {
        match &self.opener {
            Some(opener) => opener.gone,
            None => 0,
        }
    }

    /// Whether the fault is that the word doesn't meet what one before opens.
    fn is_unmet(&self) -> bool
        ensures { result ≡ spec.is_unmet self.now }
    {
        self.fault.rule == Rule::NeedMet && self.unmet() != Need::Nothing
    }
}

/// The line of the word that opens the need, where the fault is that this isn't met.
#[derive(Clone, Copy)]
struct OpenerLine(Explanation);

impl fmt::Display for OpenerLine {
    ghost output = { λ line. Some (spec.opener_text line.0) };

    fn fmt<W: fmt::Write>(&self, f: &mut fmt::Formatter<W>) -> fmt::Result {
        match self.0.opener {
            Some(opener) if self.0.is_unmet() => {
                let place = self.0.fault.word.saturating_sub(1);
                let located = Located {
                    slot: self.0.slot,
                    place: place.saturating_sub(u32::from(opener.gone)),
                    spelling: opener.spelling,
                };
                write!(f, "  {located}\n")
            }
            _ => Ok(()),
        }
    }
}

/// What is told of a fault, but how it is mended.
#[derive(Clone, Copy)]
struct Unmended(Explanation);

impl fmt::Display for Unmended {
    ghost output = { λ told. Some (spec.told_text told.0) };

    fn fmt<W: fmt::Write>(&self, f: &mut fmt::Formatter<W>) -> fmt::Result {
        let told = &self.0;
        let located = Located {
            slot: told.slot,
            place: told.fault.word,
            spelling: told.at,
        };
        write!(
            f,
            "{}\n{}  {located}\n  {}",
            told.fault,
            OpenerLine(*told),
            Sentence(*told)
        )
    }
}

impl fmt::Display for Explanation {
    ghost output = { λ explanation. Some (spec.explanation_text explanation) };

    /// Writes lines, without the end of the last: the fault, as `word 16 rule 2`; the word at its address, after that of the
    /// word whose need isn't met; what the rule asks; and how the word is mended, with a line for each instruction of a mend.
    fn fmt<W: fmt::Write>(&self, f: &mut fmt::Formatter<W>) -> fmt::Result {
        write!(f, "{}\n  mend: {}", Unmended(*self), Mending(*self))
    }
}

/// What is told of a fault by words that stand one after another in its module, of which the one at `at` stands at the fault's
/// place. What is open there is known where they begin the module, or four of them stand before that one.
pub fn explain_near<W: Words>(words: &W, at: usize, known: &KnownFault) -> Explanation
    requires { at < length (W.words words.now) }
    ensures explains { spec.ExplainsNear (W.words words.now) at known.now result }
    ensures fits { spec.FitsIn 2048 result }
{
    let profile = known.profile;
    let spelling = Spelling::of(words.word(at), profile);
    let opener = opener_before(words, at, profile);
    let next = instruction_after(words, at, profile);
    Explanation {
        fault: known.fault,
        slot: known.slot,
        words: known.words.number(),
        at: spelling,
        opener,
        mend: mend_at(known.fault.rule, &spelling, &opener, &next),
    }
}

/// What is told of a fault of the words of a module in a slot, by a profile.
///
/// ```
/// let code = Code::of(bytes);
/// if let Verdict::Refused(fault) = judge_code(bytes, profile) {
///     let told = explain(&code, ModuleNumber::at(0), fault, profile);
///     write!(out, "{told}")?;   // the fault, the word, what its rule asks, and the mending
/// }
/// ```
pub fn explain<W: Words>(
    words: &W,
    slot: ModuleNumber,
    fault: Fault,
    profile: Profile,
) -> Explanation
    requires inside { fault.word < length (W.words words.now) }
    requires most { length (W.words words.now) ≤ most_words }
    ensures explains { spec.Explains profile (W.words words.now) slot fault result }
    ensures fits { spec.FitsIn 2048 result }
{
    let known = KnownFault {
        slot,
        words: WordCount::of(words.count() as u32),
        profile,
        fault,
    };
    explain_near(words, fault.word as usize, &known)
}

//! The mend of a word that breaks a rule, by what stands around it.

ghost use Rattle.std.specs.Prelude.{◌≡◌, ◌+◌, ◌<◌, length, slice_get};
ghost use Rattle.lfi_explain.specs.Mendings.{IsDecoded, IsMend, MendsNear, need_of, owed};
ghost use Rattle.lfi_explain.specs.Openers.{asked_if};
ghost use Rattle.lfi_explain.specs.Sentences.{unmet_of};

use crate::opener::{Opener, opener_before};
use crate::spelling::Spelling;
use a64_word::{Instruction, Words, decode};
use lfi_mends::{Mend, Reason, mend_of};
use lfi_module::Profile;
use lfi_rules::{Need, Rule};

/// What a word before asks of the one that has to meet it; Nothing, where there is none.
fn asked(opener: &Option<Opener>) -> Need
    ensures { result ≡ asked_if opener.now }
{
    match opener {
        Some(opener) => opener.asks(),
        None => Need::Nothing,
    }
}

/// What a word before asks of a word that doesn't meet it; else Nothing.
pub(crate) fn unmet(at: &Spelling, opener: &Option<Opener>) -> Need
    ensures { result ≡ unmet_of at.now opener.now }
{
    let need = asked(opener);
    if at.meets(need) { Need::Nothing } else { need }
}

/// The need that isn't met: that of a word before, or that of the last word, or else a probe, which comes late alone.
pub(crate) fn owed(at: &Spelling, opener: &Option<Opener>) -> Need
    ensures { result ≡ owed at.now opener.now }
{
    match (unmet(at, opener), at.opens()) {
        (Need::Nothing, Need::Nothing) => Need::Probe(1),
        (Need::Nothing, opened) => opened,
        (need, _) => need,
    }
}

/// The need that a mend meets.
pub(crate) fn need_of(rule: Rule, at: &Spelling, opener: &Option<Opener>) -> Need
    ensures { result ≡ need_of rule at.now opener.now }
{
    if rule == Rule::NeedMet {
        owed(at, opener)
    } else {
        asked(opener)
    }
}

/// The mend of a word that breaks a rule, with what is open before it, and the instruction after it.
pub(crate) fn mend_at(
    rule: Rule,
    at: &Spelling,
    opener: &Option<Opener>,
    next: &Option<Instruction>,
) -> Result<Mend, Reason>
    ensures { IsMend at.now.profile rule at.now.word (need_of rule at.now opener.now) next.now result }
{
    let need = need_of(rule, at, opener);
    mend_of(at.profile, rule, at.word, need, next)
}

/// Which instruction a word spells, if there is a word and one does.
fn decoded(word: Option<u32>, profile: Profile) -> Option<Instruction>
    ensures { IsDecoded profile word result }
{
    decode(word?, profile)
}

/// The instruction after a place, if there is a word and one spells it.
pub(crate) fn instruction_after<W: Words>(
    words: &W,
    place: usize,
    profile: Profile,
) -> Option<Instruction>
    requires { place < length (W.words words.now) }
    ensures { IsDecoded profile (slice_get (W.words words.now) (place + 1)) result }
{
    let count = words.count();
    if place + 1 < count {
        decoded(Some(words.word(place + 1)), profile)
    } else {
        None
    }
}

/// The mend of the word at `at` of words that stand one after another in a module of a profile, by the least rule that it
/// breaks. What is open there is known where the words begin the module, or four of them stand before that one.
///
/// # Errors
///
/// The reason why there is no mend.
pub fn mend_near<W: Words>(
    words: &W,
    at: usize,
    rule: Rule,
    profile: Profile,
) -> Result<Mend, Reason>
    requires { at < length (W.words words.now) }
    ensures { MendsNear profile rule (W.words words.now) at result }
{
    let spelling = Spelling::of(words.word(at), profile);
    let opener = opener_before(words, at, profile);
    let next = instruction_after(words, at, profile);
    mend_at(rule, &spelling, &opener, &next)
}

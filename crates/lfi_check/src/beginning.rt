//! Code that is judged piece by piece.

ghost use Rattle.std.specs.Prelude.{◌≡◌, ◌+◌, ◌*◌, ◌%◌, ◌<◌, ◌≤◌, ℕ, List, [], ◌++◌, length};
ghost use Rattle.lfi_module.specs.Numbers.{most_words};
ghost use Rattle.lfi_check.specs.Checking.{Checks};

use crate::code::Code;
use crate::verdict::Verdict;
use a64_word::WORD_BYTES;
use lfi_module::Profile;
use lfi_rules::{Fault, Need, fault_after, judge, leave};

/// A module of which a beginning has been judged. It keeps no byte of it.
#[derive(Clone, Copy)]
pub struct Beginning {
    /// By which profile it is judged.
    pub profile: Profile,
    /// How many words the whole module has: 1 to 4,194,304.
    pub words: u32,
    /// How many of them have been judged.
    pub judged: u32,
    /// The first fault so far.
    pub fault: Option<Fault>,
    /// What the words judged leave open, where there is no fault.
    pub tail: Need,
}

ghost use Rattle.lfi_check.specs.Begun.{Begins};

impl Beginning {
    /// That of a module of `words` words, none of which has been judged.
    pub fn none(words: u32, profile: Profile) -> Beginning
        requires some { 1 ≤ words }
        requires most { words ≤ most_words }
        ensures begins { Begins result [] }
        ensures words { result.words ≡ words }
        ensures profile { result.profile ≡ profile }
    {
        Beginning {
            profile,
            words,
            judged: 0,
            fault: None,
            tail: Need::Nothing,
        }
    }

    /// One piece more: whole words, at least one, and no more than are to come.
    pub fn with(self, piece: &[u8]) -> Beginning
        requires some { 0 < length piece.now }
        requires whole { length piece.now % 4 ≡ 0 }
        requires room { 4 * self.judged + length piece.now ≤ 4 * self.words }
        requires most { self.words ≤ most_words }
        ensures begins { (bytes : List ℕ) → Begins self bytes → Begins result (bytes ++ piece.now) }
        ensures judged { 4 * result.judged ≡ 4 * self.judged + length piece.now }
        ensures words { result.words ≡ self.words }
        ensures profile { result.profile ≡ self.profile }
    {
        let judged = self.judged + (piece.len() / WORD_BYTES) as u32;
        if self.fault.is_some() {
            return Beginning { judged, ..self };
        }
        let Some(code) = Code::new(piece) else {
            unreachable!();
        };
        let verdict = judge(&code, self.judged, self.words, self.profile);
        Beginning {
            profile: self.profile,
            words: self.words,
            judged,
            fault: fault_after(self.words, self.tail, &verdict, code.len_words()),
            tail: leave(self.tail, &verdict),
        }
    }

    /// The verdict on a module of which all words have been judged: that of `judge_code` on all its
    /// bytes.
    pub fn verdict(self) -> Verdict
        requires some { 1 ≤ self.words }
        requires all { self.judged ≡ self.words }
        ensures { (bytes : List ℕ) → Begins self bytes → Checks self.profile bytes result }
    {
        match self.fault {
            Some(fault) => Verdict::Refused(fault),
            None => Verdict::Lawful { words: self.words },
        }
    }
}

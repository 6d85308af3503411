//! The word that opens the need that a word has to meet: the one before it, or one behind calm words.

ghost use Rattle.std.specs.Prelude.{◌≡◌, ◌≤◌, length};
ghost use Rattle.lfi_rules.specs.Needs.{term_of};
ghost use Rattle.lfi_explain.specs.Openers.{IsOpenerIf, asked_by};

use crate::spelling::Spelling;
use a64_word::Words;
use lfi_module::Profile;
use lfi_rules::Need;

/// How many words a need has to be met by, at most, in any profile.
const MOST_TERM: u8 = 4;

/// A word that opens a need, before the word that has to meet it.
#[derive(Clone, Copy)]
pub struct Opener {
    /// How many calm words stand between.
    pub gone: u8,
    /// The word.
    pub spelling: Spelling,
}

/// Among how many words a need has to be met.
pub(crate) fn term(need: Need) -> u8
    ensures { result ≡ term_of need }
{
    match need {
        Need::Nothing => 0,
        Need::Call | Need::Guard => 1,
        Need::Probe(count) => count,
    }
}

impl Opener {
    /// What the word asks of the one that has to meet it; Nothing, where that comes too late.
    pub fn asks(&self) -> Need
        ensures { result ≡ asked_by self.now }
    {
        let need = self.spelling.opens();
        if self.gone < term(need) {
            need
        } else {
            Need::Nothing
        }
    }
}

/// The word that opens what is open at a place, if anything is.
pub(crate) fn opener_before<W: Words>(words: &W, place: usize, profile: Profile) -> Option<Opener>
    requires { place ≤ length (W.words words.now) }
    ensures { IsOpenerIf profile (W.words words.now) place result }
{
    for gone in 0..MOST_TERM {
        if usize::from(gone) >= place {
            return None;
        }
        let word = words.word(place - 1 - usize::from(gone));
        let spelling = Spelling::of(word, profile);
        if !spelling.is_calm() {
            if gone < term(spelling.opens()) {
                return Some(Opener { gone, spelling });
            }
            return None;
        }
    }
    None
}

//! The code of a module, as a file holds it.

ghost use Rattle.std.specs.Prelude.{◌≡◌, ℕ, ◌<◌, ◌≤◌, List, length, IfSome, IfNone};
ghost use Rattle.lfi_module.specs.Numbers.{most_words};
ghost use Rattle.a64_word.specs.Words.{words_of};
ghost use Rattle.lfi_check.specs.Checking.{IsCode};

use a64_word::{WORD_BYTES, Words, word_at, word_count};
use lfi_module::WordCount;
use std::marker::Model;

/// Code: whole words of 32 bits, 1 to 4,194,304 of them, each with its lowest byte first.
///
/// A contract sees it as the list of its bytes.
#[derive(Drop)]
pub struct Code<'a> {
    bytes: &'a [u8],
}

impl<'a> Model for Code<'a> {
    ghost use Rattle.std.specs.Prelude.{List, ℕ};
    ghost use Rattle.lfi_check.specs.Checking.{IsCode};

    ghost Value = { List ℕ };

    ghost view = { λ c. c.bytes.now };

    ghost invariant = { λ c. IsCode c.bytes.now };
}

impl<'a> Code<'a> {
    /// These bytes as code. `None` where they aren't: there are none, they aren't whole words, or
    /// they are more than 16,777,216.
    pub fn new(bytes: &'a [u8]) -> Option<Code<'a>>
        ensures some { IfSome result (λ code. IsCode bytes.entry.now × (code ≡ bytes.entry.now)) }
        ensures none { IfNone result (¬ (IsCode bytes.entry.now)) }
    {
        if bytes.is_empty()
            || bytes.len() % WORD_BYTES != 0
            || bytes.len() > WordCount::MOST_BYTES
        {
            return None;
        }
        Some(Code { bytes })
    }

    /// These bytes, which are known to be code.
    pub fn of(bytes: &'a [u8]) -> Code<'a>
        requires { IsCode bytes.now }
        ensures { result ≡ bytes.entry.now }
    {
        Code { bytes }
    }

    /// How many words there are: 1 to 4,194,304.
    pub fn len_words(&self) -> usize
        ensures count { result ≡ length (words_of self.now) }
        ensures range { (1 ≤ result) × (result ≤ most_words) }
    {
        word_count(self.bytes)
    }
}

impl Words for Code<'_> {
    ghost words = { words_of };

    fn count(&self) -> usize {
        self.len_words()
    }

    fn word(&self, i: usize) -> u32 {
        word_at(self.bytes, i)
    }
}

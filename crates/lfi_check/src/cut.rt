//! Code that is judged piece by piece, in pieces that may be cut within a word.

ghost use Rattle.std.specs.Prelude.{◌≡◌, ◌+◌, ◌*◌, ◌%◌, ◌<◌, ◌≤◌, ℕ, List, [], ◌∷◌, length, true, false};
ghost use Rattle.a64_word.specs.Words.{words_of};
ghost use Rattle.lfi_module.specs.Numbers.{most_words};
ghost use Rattle.lfi_rules.specs.Faults.{FirstFault};
ghost use Rattle.lfi_check.specs.Begun.{Begins};
ghost use Rattle.lfi_check.specs.Cuts.{bytes_of, count_of, BeginsCut, Takes};

use crate::beginning::Beginning;
use a64_word::WORD_BYTES;
use lfi_rules::Fault;

/// The first bytes of a word whose other bytes are to come; none, where the bytes that came are whole words.
#[derive(Clone, Copy)]
pub enum CutWord {
    Nothing,
    One(u8),
    Two(u8, u8),
    Three(u8, u8, u8),
}

impl CutWord {
    /// How many bytes of it came: 0 to 3.
    fn count(self) -> usize
        ensures is { result ≡ length (bytes_of self) }
        ensures few { result < 4 }
    {
        match self {
            CutWord::Nothing => 0,
            CutWord::One(_) => 1,
            CutWord::Two(_, _) => 2,
            CutWord::Three(_, _, _) => 3,
        }
    }
}

/// A module of which a beginning came that may be cut within a word: its whole words are judged, and it keeps no byte of
/// them.
#[derive(Clone, Copy)]
pub struct CutBeginning {
    /// The whole words that came.
    pub whole: Beginning,
    /// What came after them.
    pub word: CutWord,
}

impl CutBeginning {
    /// That of whole words.
    pub fn of(whole: Beginning) -> CutBeginning
        ensures begins { (bytes : List ℕ) → Begins whole bytes → BeginsCut result bytes }
        ensures is { result ≡ record { whole = whole; word = CutWord.Nothing } }
    {
        CutBeginning {
            whole,
            word: CutWord::Nothing,
        }
    }

    /// Whether `bytes` bytes more are no more than are to come.
    pub fn has_room(self, bytes: usize) -> bool
        ensures yes { result ≡ true → count_of self + bytes ≤ 4 * self.whole.words }
        ensures no { result ≡ false → 4 * self.whole.words < count_of self + bytes }
    {
        let came = self.whole.judged as usize * WORD_BYTES + self.word.count();
        let all = self.whole.words as usize * WORD_BYTES;
        came <= all && bytes <= all - came
    }

    /// One byte more.
    fn with_byte(self, byte: u8) -> CutBeginning
        requires room { count_of self < 4 * self.whole.words }
        requires most { self.whole.words ≤ most_words }
        ensures { Takes self result (byte ∷ []) }
    {
        let whole = self.whole;
        match self.word {
            CutWord::Nothing => CutBeginning {
                whole,
                word: CutWord::One(byte),
            },
            CutWord::One(a) => CutBeginning {
                whole,
                word: CutWord::Two(a, byte),
            },
            CutWord::Two(a, b) => CutBeginning {
                whole,
                word: CutWord::Three(a, b, byte),
            },
            CutWord::Three(a, b, c) => CutBeginning::of(whole.with(&[a, b, c, byte])),
        }
    }

    /// Some bytes more, one by one.
    fn with_bytes(self, piece: &[u8]) -> CutBeginning
        requires room { count_of self + length piece.now ≤ 4 * self.whole.words }
        requires most { self.whole.words ≤ most_words }
        ensures { Takes self result piece.now }
    {
        let mut cut = self;
        for byte in piece {
            cut = cut.with_byte(*byte);
        }
        cut
    }

    /// Some words more, after whole words.
    fn with_words(self, piece: &[u8]) -> CutBeginning
        requires aligned { 0 < length piece.now → length (bytes_of self.word) ≡ 0 }
        requires whole { length piece.now % 4 ≡ 0 }
        requires room { count_of self + length piece.now ≤ 4 * self.whole.words }
        requires most { self.whole.words ≤ most_words }
        ensures { Takes self result piece.now }
    {
        if piece.is_empty() {
            return self;
        }
        CutBeginning::of(self.whole.with(piece))
    }

    /// One piece more, cut anywhere, and no more than is to come.
    pub fn with(self, piece: &[u8]) -> CutBeginning
        requires room { count_of self + length piece.now ≤ 4 * self.whole.words }
        requires most { self.whole.words ≤ most_words }
        ensures { Takes self result piece.now }
    {
        let open = (WORD_BYTES - self.word.count()) % WORD_BYTES;
        let (head, rest) = piece.split_at(open.min(piece.len()));
        let (words, tail) = rest.split_at(rest.len() - rest.len() % WORD_BYTES);
        self.with_bytes(head).with_words(words).with_bytes(tail)
    }

    /// The first fault of the whole words that came.
    pub fn fault(self) -> Option<Fault>
        ensures { (bytes : List ℕ) → BeginsCut self bytes → FirstFault self.whole.profile (words_of bytes) self.whole.words result }
    {
        self.whole.fault
    }

    /// The module's beginning, where the bytes that came are whole words.
    pub fn ended(self) -> Beginning
        ensures begins { (bytes : List ℕ) → BeginsCut self bytes → length bytes % 4 ≡ 0 → Begins result bytes }
        ensures is { result ≡ self.whole }
    {
        self.whole
    }
}

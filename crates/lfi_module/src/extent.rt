//! How large a module is, and where it is entered.

ghost use Rattle.std.specs.Prelude.{◌≡◌, ◌≤◌, ◌<◌, ◌⊎◌, IfSome, IfNone};
ghost use Rattle.lfi_module.specs.Numbers.{most_words};
ghost use Rattle.lfi_module.specs.Pages.{HasPages, page_count, words_due, bytes_in_page, is_due};

use crate::page_size::PageSize;
use crate::profile::Profile;
use std::marker::Model;

/// How many words a module has: 1 to 4,194,304.
#[derive(Clone, Copy, PartialEq, Eq)]
pub struct WordCount {
    words: u32,
}

impl Model for WordCount {
    ghost use Rattle.std.specs.Prelude.{ℕ, ◌≤◌};
    ghost use Rattle.lfi_module.specs.Numbers.{most_words};

    ghost Value = { ℕ };

    ghost view = { λ n. n.words };

    ghost invariant = { λ n. (1 ≤ n.words) × (n.words ≤ most_words) };

    ghost inverse = { λ n. record { words = n } };
}

impl WordCount {
    /// As many words as a module can have: 4,194,304.
    pub const MOST: WordCount = WordCount { words: 4_194_304 };

    /// How many bytes these are: four a word, 16 MiB.
    pub const MOST_BYTES: usize = 16_777_216;

    /// This number of words; `None` where it is 0, or more than a module has.
    pub fn new(words: u32) -> Option<WordCount>
        ensures some { IfSome result (λ n. n ≡ words) }
        ensures none { IfNone result ((words ≡ 0) ⊎ (most_words < words)) }
    {
        if words == 0 || words > Self::MOST.words {
            None
        } else {
            Some(WordCount { words })
        }
    }

    /// This number of words, which is known to be in range: 1 to 4,194,304.
    pub fn of(words: u32) -> WordCount
        requires { (1 ≤ words) × (words ≤ most_words) }
        ensures { result ≡ words }
    {
        WordCount { words }
    }

    /// The number, 1 to 4,194,304.
    pub fn number(self) -> u32
        ensures value { result ≡ self }
        ensures range { (1 ≤ self) × (self ≤ most_words) }
    {
        self.words
    }

    /// How many pages these words take.
    pub fn pages(self, size: PageSize) -> u32
        ensures { result ≡ page_count size self }
    {
        self.words.div_ceil(size.words())
    }

    /// How many words the next page has, when `come` words have come: a full page's, or all that are left.
    pub fn due(self, size: PageSize, come: u32) -> u32
        ensures { result ≡ words_due size self come }
    {
        self.words.saturating_sub(come).min(size.words())
    }

    /// How many bytes page `index` has; 0 where there is no such page.
    pub fn bytes_in_page(self, size: PageSize, index: u32) -> u32
        ensures { result ≡ bytes_in_page size self index }
    {
        let before = u64::from(size.words()) * u64::from(index);
        let left = u64::from(self.words).saturating_sub(before);
        4 * left.min(u64::from(size.words())) as u32
    }

    /// Whether page `index`, of `bytes` bytes, is the one that has to come after the first `come` pages.
    pub fn is_due(self, size: PageSize, come: u32, index: u32, bytes: usize) -> bool
        ensures { result ≡ is_due size self come index bytes }
    {
        index == come
            && index < self.pages(size)
            && bytes == self.bytes_in_page(size, index) as usize
    }
}

/// How many words a module has, the one at which it is entered, the profile that it goes by, and how large its pages are:
/// small, or in the second profile small or large.
#[derive(Clone, Copy, PartialEq, Eq)]
pub struct Extent {
    words: WordCount,
    entry: u32,
    profile: Profile,
    pages: PageSize,
}

impl Model for Extent {
    ghost use Rattle.lfi_module.specs.Extents.{ExtentView, IsExtent};

    ghost Value = { ExtentView };

    ghost view = { λ e. record { words = e.words; entry = e.entry; profile = e.profile; pages = e.pages } };

    ghost invariant = { λ e. IsExtent (record { words = e.words; entry = e.entry; profile = e.profile; pages = e.pages }) };

    ghost inverse = { λ v. record { words = v.words; entry = v.entry; profile = v.profile; pages = v.pages } };
}

impl Extent {
    /// A module of `words` words that is entered at the word `entry`, goes by a profile and has pages of this size;
    /// `None` where that isn't one of its words, or the profile hasn't such pages.
    pub fn new(words: WordCount, entry: u32, profile: Profile, pages: PageSize) -> Option<Extent>
        ensures some { IfSome result (λ extent. extent ≡ record { words = words; entry = entry; profile = profile; pages = pages }) }
        ensures none { IfNone result ((words ≤ entry) ⊎ ¬ (HasPages profile pages)) }
    {
        if entry < words.number() && profile.has_pages(pages) {
            Some(Extent {
                words,
                entry,
                profile,
                pages,
            })
        } else {
            None
        }
    }

    /// A module of `words` words that is entered at the word `entry`, which is known to be one of them, goes by a
    /// profile, and has pages of a size that is known to be one of the profile's.
    pub fn of(words: WordCount, entry: u32, profile: Profile, pages: PageSize) -> Extent
        requires entry { entry < words }
        requires pages { HasPages profile pages }
        ensures { result ≡ record { words = words; entry = entry; profile = profile; pages = pages } }
    {
        Extent {
            words,
            entry,
            profile,
            pages,
        }
    }

    /// How many words the module has.
    pub fn words(self) -> WordCount
        ensures { result ≡ self.words }
    {
        self.words
    }

    /// The word at which it is entered, below `words`.
    pub fn entry(self) -> u32
        ensures value { result ≡ self.entry }
        ensures range { result < self.words }
    {
        self.entry
    }

    /// The profile that it goes by.
    pub fn profile(self) -> Profile
        ensures { result ≡ self.profile }
    {
        self.profile
    }

    /// How large its pages are, the last one apart.
    pub fn pages(self) -> PageSize
        ensures value { result ≡ self.pages }
        ensures fits { HasPages self.profile self.pages }
    {
        self.pages
    }
}

//! How many words a full page has.

ghost use Rattle.std.specs.Prelude.{◌≡◌, ◌*◌, ◌≤◌};
ghost use Rattle.lfi_module.specs.Numbers.{large_page};
ghost use Rattle.lfi_module.specs.Pages.{IsPageSize};

use std::marker::Model;

/// How many words a full page has: 1,024 or 4,096. Only a module's last page may have fewer.
#[derive(Clone, Copy, PartialEq, Eq)]
pub struct PageSize {
    words: u32,
}

impl Model for PageSize {
    ghost use Rattle.std.specs.Prelude.{ℕ, ◌≤◌};
    ghost use Rattle.lfi_module.specs.Numbers.{large_page};
    ghost use Rattle.lfi_module.specs.Pages.{IsPageSize};

    ghost Value = { ℕ };

    ghost view = { λ p. p.words };

    ghost invariant = { λ p. (1 ≤ p.words) × (p.words ≤ large_page) × IsPageSize p.words };

    ghost inverse = { λ n. record { words = n } };
}

impl PageSize {
    /// Small pages, of 1,024 words: 4,096 bytes.
    pub const SMALL: PageSize = PageSize { words: 1024 };

    /// Large pages, of 4,096 words: 16,384 bytes.
    pub const LARGE: PageSize = PageSize { words: 4096 };

    /// How many bytes a full small page has: four a word.
    pub const SMALL_BYTES: usize = 4096;

    /// How many bytes a full large page has: four a word.
    pub const LARGE_BYTES: usize = 16_384;

    /// How many words a full page has: 1,024 or 4,096.
    pub fn words(self) -> u32
        ensures value { result ≡ self }
        ensures range { (1 ≤ self) × (self ≤ large_page) }
        ensures one { IsPageSize self }
    {
        self.words
    }

    /// How many bytes a full page has: four a word.
    pub fn bytes(self) -> u32
        ensures { result ≡ 4 * self }
    {
        4 * self.words
    }
}

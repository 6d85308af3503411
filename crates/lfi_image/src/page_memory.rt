//! Memory for the pages of a module, before the module is known.
ghost use Rattle.std.specs.Prelude.{◌≡◌, ℕ, ◌≤◌, [], IfOk, vec_capacity};
ghost use Rattle.lfi_module.specs.Numbers.{small_page};
ghost use Rattle.lfi_module.specs.Pages.{page_count};

use lfi_module::{PageSize, WordCount};
use page_buf::SealedPage;
use std::alloc::{AllocError, Global};
use std::marker::Model;

/// Memory that is reserved for the pages of one module, small or large ones. It holds no page.
///
/// A contract sees it as a number: the most words that a module in this memory may have.
#[derive(Drop)]
pub struct PageMemory {
    pub(crate) pages: Vec<SealedPage>,
    pub(crate) words: WordCount,
}

impl Model for PageMemory {
    ghost Value = { ℕ };

    ghost view = { λ p. p.words };

    ghost invariant = { λ p. (p.pages.items ≡ []) × (page_count small_page p.words ≤ vec_capacity p.pages) };
}

impl PageMemory {
    /// Reserves memory for a module of at most `words` words: for as many small pages as they take.
    ///
    /// # Errors
    ///
    /// Where their memory is refused.
    pub fn new(alloc: Global, words: WordCount) -> Result<PageMemory, AllocError>
        ensures { IfOk result (λ memory. memory ≡ words) }
    {
        let count = words.pages(PageSize::SMALL);
        let pages = Vec::with_capacity(alloc, count as usize)?;
        Ok(PageMemory { pages, words })
    }

    /// The most words that a module in this memory may have.
    pub fn words(&self) -> WordCount
        ensures { result ≡ self.now }
    {
        self.words
    }
}

//! Modules page by page, until they are whole.
ghost use Rattle.std.specs.Prelude.{◌≡◌, ◌+◌, ◌<◌, ◌≤◌, [], ◌++◌, length, slice_index, Some, None, IfOk, IfErr, OnErr, MatchResult, vec_capacity};
ghost use Rattle.lfi_module.specs.Pages.{page_count};
ghost use Rattle.a64_word.specs.Words.{words_of};
ghost use Rattle.lfi_rules.specs.Faults.{FirstFault};
ghost use Rattle.lfi_image.specs.Image.{Module, Image, IsImage};
ghost use Rattle.lfi_image.specs.Built.{words_in, due, with_placed};
ghost use Rattle.lfi_image.specs.inner.Builders.{IsBuilt};

use crate::judged::JudgedPage;
use crate::page_memory::PageMemory;
use lfi_module::{Extent, ModuleNumber, Profile, WordCount};
use lfi_rules::{Fault, Need, fault_after, leave};
use page_buf::SealedPage;
use std::alloc::{AllocError, Global};
use std::marker::Model;

/// The pages of a module so far. Their words have no fault.
///
/// A contract sees it as the module: its extent, its slot and the words placed.
#[derive(Drop)]
pub struct Builder {
    pages: Vec<SealedPage>,
    extent: Extent,
    slot: ModuleNumber,
    placed: u32,
    tail: Need,
}

impl Model for Builder {
    ghost Value = { Module };

    ghost view = { λ b. record { extent = b.extent; slot = b.slot; placed = words_in b.pages.items } };

    ghost invariant = { λ b. IsBuilt b.extent.profile b.extent.pages b.extent.words b.extent.entry b.slot b.placed b.tail b.pages.items × (page_count b.extent.pages b.extent.words ≤ vec_capacity b.pages) };
}

impl Builder {
    /// A module with this extent, for this slot. No word is placed, and memory for its pages is reserved.
    ///
    /// # Errors
    ///
    /// Where that memory is refused.
    pub fn new(alloc: Global, extent: Extent, slot: ModuleNumber) -> Result<Builder, AllocError>
        ensures { IfOk result (λ b. b ≡ record { extent = extent; slot = slot; placed = [] }) }
    {
        let memory = PageMemory::new(alloc, extent.words())?;
        Ok(Builder::in_memory(memory, extent, slot))
    }

    /// The same module in memory that was reserved before, which is enough: see [`PageMemory::words`]. It takes no memory.
    pub fn in_memory(memory: PageMemory, extent: Extent, slot: ModuleNumber) -> Builder
        requires { extent.words ≤ memory }
        ensures { result ≡ record { extent = extent; slot = slot; placed = [] } }
    {
        let PageMemory { pages, words: _ } = memory;
        Builder {
            pages,
            extent,
            slot,
            placed: 0,
            tail: Need::Nothing,
        }
    }

    /// Places the next page of this module, one that was judged there. It takes no memory.
    ///
    /// # Errors
    ///
    /// The first fault of the words placed and the page's own, which for the last page can be that its last word opens a
    /// need; and the page.
    ///
    /// ```
    /// let mut builder = Builder::new(alloc, extent, slot)?;
    /// while builder.due() > 0 {
    ///     let page = JudgedPage::judge(next_page(), builder.placed(), extent);
    ///     builder.append(page)?;   // or the first fault, and the page
    /// }
    /// let image = builder.finish();
    /// ```
    pub fn append(&mut self, page: JudgedPage) -> Result<(), (Fault, SealedPage)>
        requires module { page.extent ≡ self.old.extent }
        requires place { page.first ≡ length self.old.placed }
        ensures placed { IfOk result (λ _. self.new ≡ with_placed self.old (words_of page.page.bytes)) }
        ensures faultless { IfOk result (λ _. FirstFault self.old.extent.profile (self.old.placed ++ words_of page.page.bytes) self.old.extent.words None) }
        ensures fault { IfErr result (λ back. FirstFault self.old.extent.profile (self.old.placed ++ words_of page.page.bytes) self.old.extent.words (Some back.0)) }
        ensures back { IfErr result (λ back. back.1 ≡ page.page) }
        ensures stays { OnErr result (self.new ≡ self.old) }
    {
        let (page, verdict) = page.into_parts();
        let count = page.len_words();
        if let Some(fault) = fault_after(self.extent.words().number(), self.tail, &verdict, count) {
            return Err((fault, page));
        }
        match self.pages.push(page) {
            Ok(()) => {
                self.placed += count as u32;
                self.tail = leave(self.tail, &verdict);
                Ok(())
            }
            Err(_) => unreachable!(),
        }
    }

    /// The image, once all its words are placed; until then the builder comes back.
    ///
    /// # Errors
    ///
    /// The builder, where words are still to come.
    pub fn finish(self) -> Result<CompleteImage, Builder>
        ensures { MatchResult result
            (λ image. (length self.placed ≡ self.extent.words) × (image ≡ record { profile = self.extent.profile; entry = self.extent.entry; slot = self.slot; words = self.placed }))
            (λ b. (length self.placed < self.extent.words) × (b ≡ self)) }
    {
        if self.placed < self.extent.words().number() {
            return Err(self);
        }
        Ok(CompleteImage { builder: self })
    }

    /// The module's extent.
    pub fn extent(&self) -> Extent
        ensures { result ≡ self.now.extent }
    {
        self.extent
    }

    /// The slot.
    pub fn slot(&self) -> ModuleNumber
        ensures { result ≡ self.now.slot }
    {
        self.slot
    }

    /// How many words are placed. They have no fault.
    pub fn placed(&self) -> u32
        ensures count { result ≡ length self.now.placed }
        ensures within { result ≤ self.now.extent.words }
        ensures faultless { FirstFault self.now.extent.profile self.now.placed self.now.extent.words None }
    {
        self.placed
    }

    /// How many words the next page has: a full page's, or all that are left.
    pub fn due(&self) -> u32
        ensures { result ≡ due self.now }
    {
        self.extent.words().due(self.extent.pages(), self.placed)
    }

    /// The word at `i`, one that is placed.
    pub fn word(&self, i: u32) -> u32
        requires { i < length self.now.placed }
        ensures { result ≡ slice_index self.now.placed i }
    {
        let size = self.extent.pages().words();
        self.pages[(i / size) as usize].word((i % size) as usize)
    }
}

/// A whole module. Its words are lawful by its profile.
///
/// A contract sees it as its profile, its entry, its slot and its words.
#[derive(Drop)]
pub struct CompleteImage {
    builder: Builder,
}

impl Model for CompleteImage {
    ghost Value = { Image };

    ghost view = { λ c. record { profile = c.builder.extent.profile; entry = c.builder.extent.entry; slot = c.builder.slot; words = c.builder.placed } };

    ghost invariant = { λ c. IsImage (record { profile = c.builder.extent.profile; entry = c.builder.extent.entry; slot = c.builder.slot; words = c.builder.placed }) × (length c.builder.placed ≡ c.builder.extent.words) };
}

impl CompleteImage {
    /// The pages of the code, one after another.
    pub fn pages(&self) -> &[SealedPage]
        ensures { words_in result.now ≡ self.now.words }
    {
        &self.builder.pages
    }

    /// How many words the module has. They are lawful.
    pub fn words(&self) -> WordCount
        ensures count { result ≡ length self.now.words }
        ensures lawful { IsImage self.now }
    {
        self.builder.extent.words()
    }

    /// The word that is entered, below `words`.
    pub fn entry(&self) -> u32
        ensures value { result ≡ self.now.entry }
        ensures range { self.now.entry < length self.now.words }
    {
        self.builder.extent.entry()
    }

    /// The profile by which its words are lawful.
    pub fn profile(&self) -> Profile
        ensures { result ≡ self.now.profile }
    {
        self.builder.extent.profile()
    }

    /// The slot.
    pub fn slot(&self) -> ModuleNumber
        ensures { result ≡ self.now.slot }
    {
        self.builder.slot()
    }

    /// How many words are placed: all.
    pub fn placed(&self) -> u32
        ensures { result ≡ length self.now.words }
    {
        self.builder.placed()
    }

    /// The word at `i`.
    pub fn word(&self, i: u32) -> u32
        requires { i < length self.now.words }
        ensures { result ≡ slice_index self.now.words i }
    {
        self.builder.word(i)
    }
}

//! Pages: open, while bytes are appended, and sealed, once no byte is written any more.
ghost use Rattle.std.specs.Prelude.{◌≡◌, ◌+◌, ◌-◌, ◌*◌, ◌<◌, ◌≤◌, ◌==◌, [], ◌++◌, length, take, min, slice_index, MatchResult, IfOk};
ghost use Rattle.lfi_module.specs.Numbers.{large_page};
ghost use Rattle.page_buf.specs.Page.{IsWhole, empty_page};
ghost use Rattle.a64_word.specs.Words.{words_of};

use crate::raw_bytes::{Deed, RawBytes};
use a64_word::{WORD_BYTES, Words, word_at, word_count};
use lfi_module::PageSize;
use std::alloc::{AllocError, Global};
use std::marker::Model;

// A page's memory, which is given back at its end.
struct Block {
    bytes: RawBytes,
    len: usize,
    size: PageSize,
    deed: Deed<Global>,
    alloc: Global,
    ghost written: { (len ≡ length bytes.written) × (len ≤ 4 * size) },
    ghost whole: { bytes.size ≡ 4 * size },
    ghost bounded: { size ≤ large_page },
    ghost freeable: { (deed.alloc ≡ alloc) × (deed.ptr ≡ bytes.ptr) × (deed.size ≡ bytes.size) },
}

impl Block {
    fn append(&mut self, source: &[u8])
        requires { length self.old.bytes.written + length source.now ≤ 4 * self.old.size }
        ensures bytes { self.new.bytes.written ≡ self.old.bytes.written ++ source.now }
        ensures size { self.new.size ≡ self.old.size }
    {
        self.bytes.append(self.len, source);
        self.len += source.len();
    }

    fn clear(&mut self)
        ensures bytes { self.new.bytes.written ≡ [] }
        ensures size { self.new.size ≡ self.old.size }
    {
        self.bytes.clear();
        self.len = 0;
    }
}

impl Drop for Block {
    fn drop(self) {
        let Block {
            bytes,
            len: _,
            size,
            deed,
            alloc,
        } = self;
        bytes.free(deed, &alloc, size.bytes() as usize);
    }
}

/// A page to which bytes are appended: 4,096 bytes of memory, or 16,384 for a large one, of which the first have been
/// written. It keeps the size that it was made with.
///
/// A contract sees it as the words of its memory and the list of the bytes that were written. The memory is given back once, at the page's end.
#[derive(Drop)]
pub struct OpenPage {
    block: Block,
}

impl Model for OpenPage {
    ghost use Rattle.page_buf.specs.Page.{PageView};

    ghost Value = { PageView };

    ghost view = { λ p. record { size = p.block.size; bytes = p.block.bytes.written } };
}

/// A page that is no longer written. It holds whole words of four bytes: 1 to 1,024 of them, or to 4,096 in a large one.
///
/// A contract sees it as the words of its memory and the list of its bytes. The memory is given back once, at the page's end.
#[derive(Drop)]
pub struct SealedPage {
    block: Block,
}

impl Model for SealedPage {
    ghost use Rattle.page_buf.specs.Page.{IsWhole, PageView};

    ghost Value = { PageView };

    ghost view = { λ p. record { size = p.block.size; bytes = p.block.bytes.written } };

    ghost invariant = { λ p. IsWhole p.block.bytes.written };
}

impl OpenPage {
    /// An empty page of this size.
    ///
    /// # Errors
    ///
    /// Where the allocator refuses its bytes: 4,096, or 16,384 for a large page.
    pub fn new(alloc: Global, size: PageSize) -> Result<OpenPage, AllocError>
        ensures { IfOk result (λ page. page ≡ empty_page size) }
    {
        let Some((bytes, deed)) = RawBytes::take(&alloc, size.bytes() as usize) else {
            return Err(AllocError);
        };
        Ok(OpenPage {
            block: Block {
                bytes,
                len: 0,
                size,
                deed,
                alloc,
            },
        })
    }

    /// How many bytes have been written, at most a full page's.
    pub fn len(&self) -> usize
        ensures count { result ≡ length self.now.bytes }
        ensures most { result ≤ 4 * self.now.size }
    {
        self.block.len
    }

    /// Whether no byte has been written.
    pub fn is_empty(&self) -> bool
        ensures { result ≡ (length self.now.bytes == 0) }
    {
        self.block.len == 0
    }

    /// Appends the beginning of `bytes` that fits behind what is written, and answers its length in bytes.
    pub fn write(&mut self, bytes: &[u8]) -> usize
        ensures count { result ≡ min (length bytes.now) (4 * self.old.size - length self.old.bytes) }
        ensures appended { self.new.bytes ≡ self.old.bytes ++ take result bytes.now }
        ensures size { self.new.size ≡ self.old.size }
        ensures fits { length self.new.bytes ≤ 4 * self.new.size }
    {
        let room = self.block.size.bytes() as usize - self.block.len;
        let count = bytes.len().min(room);
        self.block.append(&bytes[..count]);
        count
    }

    /// The same memory, no longer written.
    ///
    /// # Errors
    ///
    /// The page itself, just where its length is 0 or no multiple of 4.
    pub fn seal(self) -> Result<SealedPage, OpenPage>
        ensures { MatchResult result (λ page. IsWhole self.bytes × (page ≡ self)) (λ page. ¬ (IsWhole self.bytes) × (page ≡ self)) }
    {
        let OpenPage { block } = self;
        if block.len == 0 || block.len % WORD_BYTES != 0 {
            return Err(OpenPage { block });
        }
        Ok(SealedPage { block })
    }
}

impl SealedPage {
    /// The page's memory as an open page in which nothing is written.
    pub(crate) fn reopen(self) -> OpenPage
        ensures { result ≡ empty_page self.size }
    {
        let SealedPage { mut block } = self;
        block.clear();
        OpenPage { block }
    }

    /// How large a page its memory has room for.
    pub fn size(&self) -> PageSize
        ensures { result ≡ self.now.size }
    {
        self.block.size
    }

    /// A page of this size of these bytes, which make whole words, at least one and at most a full page's.
    ///
    /// # Errors
    ///
    /// Where the allocator refuses its memory.
    pub fn of(alloc: Global, size: PageSize, bytes: &[u8]) -> Result<SealedPage, AllocError>
        requires whole { IsWhole bytes.now }
        requires fits { length bytes.now ≤ 4 * size }
        ensures { IfOk result (λ page. page ≡ record { size = size; bytes = bytes.now }) }
    {
        let mut page = OpenPage::new(alloc, size)?;
        page.write(bytes);
        match page.seal() {
            Ok(page) => Ok(page),
            Err(_) => unreachable!(),
        }
    }

    /// The bytes, without a copy: 4 to 4,096, or to 16,384 in a large page, and a multiple of 4.
    pub fn bytes(&self) -> &[u8]
        ensures same { result.now ≡ self.now.bytes }
        ensures size { (length self.now.bytes ≤ 4 * large_page) × IsWhole self.now.bytes }
    {
        self.block.bytes.as_slice(self.block.len)
    }

    /// How many words the page holds: 1 to 1,024, or to 4,096 in a large page.
    #[tactic(auto, using(a64_word::proofs::WordLaws::words_count))]
    pub fn len_words(&self) -> usize
        ensures count { result ≡ length (words_of self.now.bytes) }
        ensures range { (1 ≤ result) × (result ≤ large_page) }
    {
        word_count(self.bytes())
    }

    /// The word at `i`, its lowest byte first.
    pub fn word(&self, i: usize) -> u32
        requires { i < length (words_of self.now.bytes) }
        ensures { result ≡ slice_index (words_of self.now.bytes) i }
    {
        word_at(self.bytes(), i)
    }
}

impl Words for SealedPage {
    ghost words = { λ page. words_of page.bytes };

    fn count(&self) -> usize {
        self.len_words()
    }

    fn word(&self, i: usize) -> u32 {
        SealedPage::word(self, i)
    }
}

//! What the tests share: the items of a module of three pages, 1,024 words, 1,024 and one.

ghost use Rattle.std.specs.Prelude.{◌≡◌};

use lfi_model::{Item, ItemKind, Judged, Reason};
use lfi_module::{Extent, ModuleNumber, PageSize, Profile, WordCount};
use page_buf::{OpenPage, PoolMember, SealedPage};
use std::process::Abort;

/// How many words the module has.
pub const WORDS: u32 = 2049;

/// NOP.
pub const NOP: u32 = 0xD503_201F;

/// SVC #0, which isn't in the profile.
pub const UNKNOWN: u32 = 0xD400_0001;

/// What an item of the module brings.
#[derive(Clone, Copy)]
pub enum Part {
    /// The Open, with entry 7, or that of the last word.
    Open,
    /// A page of NOPs, by its index, with this word at its end.
    Page(u32, u32),
    /// The End after a number of pages.
    End(u32, Reason),
}

/// ADD X0, X0, #number, for a number below 4,096.
pub fn mark(number: u32) -> u32 {
    0x9100_0000 | (number & 0xFFF) << 10
}

/// The module, which is number 3.
pub fn module() -> ModuleNumber
    ensures { result ≡ 3 }
{
    ModuleNumber::at(3)
}

/// A page of this size and of `words` words, which it has room for: NOPs, and this word at its end.
pub fn page_ending(
    rt: &(impl Abort + AllocGlobal),
    size: PageSize,
    words: u32,
    last: u32,
) -> SealedPage {
    let mut page = OpenPage::new(rt.alloc(), size).expect(rt, "no page");
    for _ in 1..words {
        page.write(&NOP.to_le_bytes());
    }
    page.write(&last.to_le_bytes());
    match page.seal() {
        Ok(page) => page,
        Err(_) => panic!(rt; "the page was not sealed"),
    }
}

/// A page's item.
fn page(rt: &impl Abort, extent: Extent, index: u32, page: SealedPage) -> Item {
    let words = extent.words();
    let bytes = page.bytes().len();
    let pages = extent.pages();
    assert!(rt; index <= 4095 && page.size() == pages && words.is_due(pages, index, index, bytes));
    Item {
        module: module(),
        ordinal: index + 1,
        extent,
        kind: ItemKind::Page(page),
    }
}

/// An End's item.
fn end(rt: &impl Abort, extent: Extent, pages: u32, reason: Reason) -> Item {
    assert!(rt; pages <= 4096);
    Item {
        module: module(),
        ordinal: pages + 1,
        extent,
        kind: ItemKind::End(reason),
    }
}

/// A module of `words` words, entered at word 7, or its last one, that goes by a profile and has small pages.
pub fn extent_of(words: WordCount, profile: Profile) -> Extent {
    let entry = 7.min(words.number() - 1);
    Extent::of(words, entry, profile, PageSize::SMALL)
}

/// The item of this part, in such a module.
pub fn item_of(rt: &(impl Abort + AllocGlobal), extent: Extent, part: Part) -> Item {
    match part {
        Part::Open => Item {
            module: module(),
            ordinal: 0,
            extent,
            kind: ItemKind::Open,
        },
        Part::Page(index, last) => {
            let size = extent.pages();
            let words = extent.words().bytes_in_page(size, index) / 4;
            page(rt, extent, index, page_ending(rt, size, words, last))
        }
        Part::End(pages, reason) => end(rt, extent, pages, reason),
    }
}

/// The judged item of this part.
pub fn judged(rt: &(impl Abort + AllocGlobal), part: Part) -> Judged {
    let extent = extent_of(WordCount::of(WORDS), Profile::One);
    item_of(rt, extent, part).judge()
}

/// How many pages are in the pool of this member, of 64 at most. It gets them all.
pub fn pooled(member: &mut PoolMember) -> u64 {
    let mut count = 0u64;
    for _ in 0..64 {
        count = count.wrapping_add(u64::from(member.get().is_some()));
    }
    count
}

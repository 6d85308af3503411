//! What is placed of one module.

ghost use Rattle.std.specs.Prelude.{◌≡◌, ◌+◌, ◌-◌, ◌*◌, ◌<◌, ◌≤◌, ◌&&◌, ◌==◌, ℕ, List, [], ◌∷◌, ◌++◌, None, Some, IsSome, IfOk, IfErr, OnErr, length};
ghost use Rattle.a64_word.specs.Words.{words_of};
ghost use Rattle.lfi_rules.specs.Faults.{FirstFault};
ghost use Rattle.lfi_module.specs.Numbers.{most_words};
ghost use Rattle.lfi_image.specs.Built.{with_placed};
ghost use Rattle.lfi_model.specs.Item.{ItemView, IsItem};
ghost use Rattle.lfi_model.specs.declared.item.ItemKind.TheVariants.{Open, Page, End};
ghost use Rattle.lfi_model.specs.Modules.{IsModule};
ghost use Rattle.lfi_sequence.specs.Refused.{AreNear};
ghost use Rattle.lfi_sequence.specs.Sequenced.{is_same};
ghost use Rattle.lfi_sequence.specs.inner.Pools.{Offers};

use crate::refused::{NearbyWords, Refusal};
use lfi_image::{Builder, JudgedPage, PageMemory};
use lfi_model::{ItemKind, Judged, Reason};
use lfi_module::{Extent, ModuleNumber};
use page_buf::PoolMember;

/// Whether two extents are the same.
pub(crate) fn is_same(one: Extent, other: Extent) -> bool
    ensures { result ≡ is_same one other }
{
    one.words().number() == other.words().number()
        && one.entry() == other.entry()
        && one.profile().number() == other.profile().number()
        && one.pages().words() == other.pages().words()
}

/// How a module ended: why, and how many pages of it had come.
#[derive(Clone, Copy, PartialEq, Eq)]
pub struct Ended {
    pub reason: Reason,
    pub pages: u32,
}

/// Gives a page that isn't placed back to the pool. Where that has no room, or the page is a large one, its memory is freed.
fn give_back(pool: &mut PoolMember, page: JudgedPage)
    ensures offers { Offers page.page.size pool.old pool.new }
    ensures sized { page.page.size ≡ page.extent.pages }
{
    let (page, _) = page.into_parts();
    let _ = pool.give(page);
}

/// Passes over an item: its page, where it brings one, goes back to the pool.
pub(crate) fn pass_over(pool: &mut PoolMember, item: Judged)
    ensures { (bytes : List ℕ) → item.kind ≡ Page bytes → Offers item.extent.pages pool.old pool.new }
{
    match item.kind {
        ItemKind::Page(page) => give_back(pool, page),
        ItemKind::Open | ItemKind::End(_) => {}
    }
}

/// Places the page that is next. `Err` where it brings a fault: then it is the first, with the words
/// near it, and the page goes back to the pool.
fn place(builder: &mut Builder, page: JudgedPage, pool: &mut PoolMember) -> Result<(), Refusal>
    requires module { page.extent ≡ builder.old.extent }
    requires next { page.first ≡ length builder.old.placed }
    ensures placed { IfOk result (λ _. builder.new ≡ with_placed builder.old (words_of page.page.bytes)) }
    ensures faultless { IfOk result (λ _. FirstFault builder.old.extent.profile (builder.old.placed ++ words_of page.page.bytes) builder.old.extent.words None) }
    ensures fault { IfErr result (λ found. FirstFault builder.old.extent.profile (builder.old.placed ++ words_of page.page.bytes) builder.old.extent.words (Some found.fault)) }
    ensures near { IfErr result (λ found. AreNear (builder.old.placed ++ words_of page.page.bytes) found.fault.word found.near) }
    ensures stays { OnErr result (builder.new ≡ builder.old) }
    ensures offers { OnErr result (Offers page.page.size pool.old pool.new) }
{
    match builder.append(page) {
        Ok(()) => Ok(()),
        Err((fault, page)) => {
            let near = NearbyWords::find(builder, &page, fault.word);
            let _ = pool.give(page);
            Err(Refusal { fault, near })
        }
    }
}

/// A module whose Open has come.
#[derive(Drop)]
pub struct Placing {
    /// What is placed of it, with its extent.
    pub builder: Builder,
    /// Its first fault, with the words near it.
    pub refusal: Option<Refusal>,
    /// Its End, once that has come.
    pub ended: Option<Ended>,
}

impl Placing {
    ghost use Rattle.lfi_sequence.specs.Placed.{IsPlacing};

    /// A module of which nothing but its Open has come, with the memory for its pages.
    fn new(memory: PageMemory, module: ModuleNumber, extent: Extent) -> Placing
        requires { extent.words ≤ memory }
        ensures { (first : ItemView) → first.extent ≡ extent → first.kind ≡ Open → IsPlacing «module» result (first ∷ []) }
    {
        Placing {
            builder: Builder::in_memory(memory, extent, module),
            refusal: None,
            ended: None,
        }
    }

    /// Whether the page is the one that the builder has to get next.
    fn is_next(&self, page: &JudgedPage) -> bool
        ensures { result ≡ (page.now.first == length self.now.builder.placed && is_same page.now.extent self.now.builder.extent) }
    {
        page.first() == self.builder.placed() && is_same(page.extent(), self.builder.extent())
    }

    /// A page brought the first fault.
    fn refuse(&mut self, refusal: Refusal)
        ensures { self.new ≡ record self.old { refusal = Some refusal } }
    {
        self.refusal = Some(refusal);
    }

    /// The next page: it is placed, unless it or one before it brings a fault; then it goes back to
    /// the pool.
    fn page(&mut self, page: JudgedPage, pool: &mut PoolMember)
        ensures placing { (m : ℕ) (taken : List ItemView) (item : ItemView) → IsPlacing m self.old taken → IsModule (taken ++ item ∷ []) → IsItem item
            → page.first ≡ item.extent.pages * (item.ordinal - 1) → page.extent ≡ item.extent → item.kind ≡ Page page.page.bytes → IsPlacing m self.new (taken ++ item ∷ []) }
        ensures offers { IsSome self.new.refusal → Offers page.page.size pool.old pool.new }
    {
        if self.refusal.is_some() {
            give_back(pool, page);
            return;
        }
        if !self.is_next(&page) {
            give_back(pool, page);
            return;
        }
        match place(&mut self.builder, page, pool) {
            Ok(()) => {}
            Err(refusal) => self.refuse(refusal),
        }
    }

    /// The End.
    fn end(&mut self, ended: Ended)
        ensures { (m : ℕ) (taken : List ItemView) (item : ItemView) → IsPlacing m self.old taken → IsModule (taken ++ item ∷ []) → item.kind ≡ End ended.reason → item.ordinal ≡ ended.pages + 1 → IsPlacing m self.new (taken ++ item ∷ []) }
    {
        self.ended = Some(ended);
    }

    /// One more item after the Open.
    fn after(mut self, item: Judged, pool: &mut PoolMember) -> Placing
        ensures { (m : ℕ) (taken : List ItemView) → IsPlacing m self taken → IsModule (taken ++ item ∷ []) → IsPlacing m result (taken ++ item ∷ []) }
    {
        let Judged {
            module: _,
            ordinal,
            extent: _,
            kind,
        } = item;
        match kind {
            ItemKind::Open => {}
            ItemKind::Page(page) => self.page(page, pool),
            ItemKind::End(reason) => self.end(Ended {
                reason,
                pages: ordinal - 1,
            }),
        }
        self
    }
}

ghost use Rattle.lfi_sequence.specs.Placed.{HandledBy};

/// What is placed of a module, after one more of its items. Its Open takes the memory that is
/// reserved for it.
pub(crate) fn after(
    spare: &mut Option<PageMemory>,
    module: ModuleNumber,
    before: Option<Placing>,
    item: Judged,
    pool: &mut PoolMember,
) -> Option<Placing>
    requires spare { before ≡ None → spare.old ≡ Some most_words }
    ensures spare { result ≡ None → spare.new ≡ Some most_words }
    ensures handled { (taken : List ItemView) → HandledBy «module» before taken → IsModule (taken ++ item ∷ []) → HandledBy «module» result (taken ++ item ∷ []) }
{
    let Some(placing) = before else {
        return opened(spare, module, item, pool);
    };
    Some(placing.after(item, pool))
}

/// What is placed of a module, after the first of its items, which is its Open.
fn opened(
    spare: &mut Option<PageMemory>,
    module: ModuleNumber,
    item: Judged,
    pool: &mut PoolMember,
) -> Option<Placing>
    requires { spare.old ≡ Some most_words }
    ensures spare { result ≡ None → spare.new ≡ Some most_words }
    ensures handled { IsModule (item ∷ []) → HandledBy «module» result (item ∷ []) }
{
    match item.kind {
        ItemKind::Open => match spare.take() {
            Some(memory) => Some(Placing::new(memory, module, item.extent)),
            None => unreachable!(),
        },
        ItemKind::Page(page) => {
            give_back(pool, page);
            None
        }
        ItemKind::End(_) => None,
    }
}

//! What one module gets of a connection.

ghost use Rattle.std.specs.Prelude.{◌≡◌, ◌+◌, ◌++◌, ◌==◌, ◌&&◌, true, ◌<◌, ◌≤◌, ◌^◌, map, IfOk};
ghost use Rattle.lfi_model.specs.Items.{item_of, reason_of, is_going, nothing_yet, with_stray, with_item, after_message, after_rest, share_of, ends_of};
ghost use Rattle.lfi_module.specs.Numbers.{small_page, large_page};
ghost use Rattle.lfi_module.specs.Pages.{page_count, is_due};
ghost use Rattle.lfi_model.specs.declared.item.ItemKind.TheVariants as kind;
ghost use Rattle.lfi_model.specs.declared.connection.Progress.TheVariants.{Unclaimed, Going, Ended};
ghost use Rattle.lfi_reference.specs.Shares.{progress_by, share_by, item_by, items_by};
ghost use Rattle.lfi_reference.specs.Messages.{size_of, extent_by, message_of, rest_by};

use crate::message::{PlainExtent, PlainMessage};
use crate::rest::PlainRest;
use lfi_frame::FrameFault;
use lfi_model::Reason;
use std::alloc::{AllocError, Global};

/// What an item brings.
#[derive(Drop)]
pub enum PlainKind {
    /// The module's opening, with the word where it is entered.
    Open,
    /// A page, as its bytes.
    Page(Vec<u8>),
    /// The end.
    End(Reason),
}

/// One of the numbered items of a module.
#[derive(Drop)]
pub struct PlainItem {
    /// The module.
    pub module: u16,
    /// The item's place among those of its module.
    pub ordinal: u64,
    /// How many words the module has.
    pub extent: PlainExtent,
    /// What it brings.
    pub kind: PlainKind,
}

/// How far a connection has come with a module.
#[derive(Clone, Copy, PartialEq, Eq)]
pub enum PlainProgress {
    /// The connection hasn't claimed it.
    Unclaimed,
    /// It is open, and `pages` of its pages have come.
    Going { extent: PlainExtent, pages: u32 },
    /// It has ended.
    Ended,
}

/// What one module got of a connection.
#[derive(Drop)]
pub struct PlainShare {
    /// Its items, in order.
    pub items: Vec<PlainItem>,
    /// Its messages that made none.
    pub strays: u128,
    /// How far it is.
    pub progress: PlainProgress,
}

/// How many pages a module of `words` words has, large ones or small ones.
pub fn page_count(large: bool, words: u32) -> u32
    ensures { result ≡ page_count (size_of large) words }
{
    if large {
        words.div_ceil(4096)
    } else {
        words.div_ceil(1024)
    }
}

/// Whether page `index` of `len` bytes is the one that has to come after the first `pages` small
/// pages of a module of `words` words.
fn is_due_small(words: u32, pages: u32, index: u32, len: usize) -> bool
    ensures { result ≡ is_due small_page words pages index len }
{
    let left = (4 * u64::from(words)).saturating_sub(4096 * u64::from(pages));
    index == pages && index < page_count(false, words) && len as u64 == left.min(4096)
}

/// The same of large pages.
fn is_due_large(words: u32, pages: u32, index: u32, len: usize) -> bool
    ensures { result ≡ is_due large_page words pages index len }
{
    let left = (4 * u64::from(words)).saturating_sub(16_384 * u64::from(pages));
    index == pages && index < page_count(true, words) && len as u64 == left.min(16_384)
}

/// Whether page `index` of `len` bytes, a large one or a small one, is the one that has to come
/// after the first `pages` pages of a module of this extent.
pub fn is_due(extent: PlainExtent, pages: u32, large: bool, index: u32, len: usize) -> bool
    ensures { result ≡ (size_of large == size_of extent.large && is_due (size_of extent.large) extent.words pages index len) }
{
    match (large, extent.large) {
        (false, false) => is_due_small(extent.words, pages, index, len),
        (true, true) => is_due_large(extent.words, pages, index, len),
        _ => false,
    }
}

impl PlainShare {
    /// A module that has got nothing yet.
    fn new(alloc: Global) -> PlainShare
        ensures { share_by result ≡ nothing_yet }
    {
        PlainShare {
            items: Vec::new(alloc),
            strays: 0,
            progress: PlainProgress::Unclaimed,
        }
    }

    /// One more message that makes no item.
    fn stray(self) -> PlainShare
        requires { self.strays < 2 ^ 64 }
        ensures { share_by result ≡ with_stray (share_by self) }
    {
        PlainShare {
            items: self.items,
            strays: self.strays + 1,
            progress: self.progress,
        }
    }

    /// One more item, after which the module is so far.
    fn with(self, item: PlainItem, progress: PlainProgress) -> Result<PlainShare, AllocError>
        ensures { IfOk result (λ share. share_by share ≡ with_item (share_by self) (item_by item) (progress_by progress)) }
    {
        let mut items = self.items;
        items.push(item)?;
        Ok(PlainShare {
            items,
            strays: self.strays,
            progress,
        })
    }

    /// The item with this number, of a module that is open, and how far the module is then.
    fn with_end(
        self,
        module: u16,
        extent: PlainExtent,
        pages: u32,
        reason: Reason,
    ) -> Result<PlainShare, AllocError>
        ensures { IfOk result (λ share. share_by share ≡ with_item (share_by self) (item_of «module» (pages + 1) (extent_by extent) (kind.End reason)) Ended) }
    {
        let item = PlainItem {
            module,
            ordinal: u64::from(pages) + 1,
            extent,
            kind: PlainKind::End(reason),
        };
        self.with(item, PlainProgress::Ended)
    }

    /// One more message of a module that isn't open.
    fn opened(
        self,
        claimed: bool,
        module: u16,
        message: &PlainMessage,
    ) -> Result<PlainShare, AllocError>
        requires { self.strays < 2 ^ 64 }
        ensures { IfOk result (λ share. share_by share ≡ after_message claimed «module» (share_by self) Unclaimed (message_of message.now)) }
    {
        match message {
            PlainMessage::Open { extent, .. } if claimed => {
                let extent = *extent;
                let item = PlainItem {
                    module,
                    ordinal: 0,
                    extent,
                    kind: PlainKind::Open,
                };
                self.with(item, PlainProgress::Going { extent, pages: 0 })
            }
            _ => Ok(self.stray()),
        }
    }

    /// One more message of a module that is open, and of which `pages` pages have come.
    fn going(
        self,
        alloc: Global,
        module: u16,
        extent: PlainExtent,
        pages: u32,
        message: &PlainMessage,
    ) -> Result<PlainShare, AllocError>
        requires { self.strays < 2 ^ 64 }
        ensures { IfOk result (λ share. share_by share
            ≡ after_message true «module» (share_by self) (Going (extent_by extent) pages) (message_of message.now)) }
    {
        match message {
            PlainMessage::Open { .. } => Ok(self.stray()),
            PlainMessage::Page {
                large,
                index,
                payload,
                ..
            } => {
                let index = *index;
                if !is_due(extent, pages, *large, index, payload.len()) {
                    return self.with_end(module, extent, pages, Reason::PageFault(index));
                }
                let page = Vec::from_slice(alloc, payload.as_slice())?;
                let item = PlainItem {
                    module,
                    ordinal: u64::from(pages) + 1,
                    extent,
                    kind: PlainKind::Page(page),
                };
                let pages = pages + 1;
                self.with(item, PlainProgress::Going { extent, pages })
            }
            PlainMessage::Close { .. } => self.with_end(module, extent, pages, Reason::Close),
        }
    }

    /// One more message of the module.
    fn after_message(
        self,
        alloc: Global,
        claimed: bool,
        module: u16,
        message: &PlainMessage,
    ) -> Result<PlainShare, AllocError>
        requires { self.strays < 2 ^ 64 }
        ensures { IfOk result (λ share. share_by share
            ≡ after_message claimed «module» (share_by self) (progress_by self.progress) (message_of message.now)) }
    {
        match self.progress {
            PlainProgress::Unclaimed => self.opened(claimed, module, message),
            PlainProgress::Going { extent, pages } => self.going(
                alloc, module, extent, pages, message,
            ),
            PlainProgress::Ended => Ok(self.stray()),
        }
    }

    /// What follows the messages of the connection.
    fn after_rest(self, module: u16, rest: PlainRest) -> Result<PlainShare, AllocError>
        requires { self.strays < 2 ^ 64 }
        ensures { IfOk result (λ share. share_by share ≡ after_rest «module» (share_by self) (rest_by rest)) }
    {
        let PlainRest::Unfinished {
            module: of,
            large,
            index,
            len,
        } = rest
        else {
            return Ok(self);
        };
        if of != module {
            return Ok(self);
        }
        match self.progress {
            PlainProgress::Going { extent, pages } => {
                if is_due(extent, pages, large, index, len as usize) {
                    Ok(self)
                } else {
                    self.with_end(module, extent, pages, Reason::PageFault(index))
                }
            }
            _ => Ok(self.stray()),
        }
    }

    /// Whether the module is open.
    pub(crate) fn is_going(&self) -> bool
        ensures { result ≡ is_going (progress_by self.now.progress) }
    {
        match self.progress {
            PlainProgress::Going { .. } => true,
            _ => false,
        }
    }

    /// Its items, with the End that the connection's fault makes of a module that is still open.
    pub(crate) fn ended(
        self,
        module: u16,
        fault: Option<FrameFault>,
    ) -> Result<Vec<PlainItem>, AllocError>
        ensures { IfOk result (λ items. items_by items.items
            ≡ (share_by self).items ++ ends_of «module» (progress_by self.progress) fault) }
    {
        match (self.progress, fault) {
            (PlainProgress::Going { extent, pages }, Some(fault)) => {
                let share = self.with_end(module, extent, pages, reason_of(fault))?;
                Ok(share.items)
            }
            _ => Ok(self.items),
        }
    }
}

/// Why a module that is still open ends at this fault of its connection.
pub fn reason_of(fault: FrameFault) -> Reason
    ensures { result ≡ reason_of fault }
{
    match fault {
        FrameFault::NoMemory => Reason::NoMemory,
        _ => Reason::Lost(fault),
    }
}

/// What a module, which is claimed or isn't, gets of these messages and this rest.
///
/// # Errors
///
/// Where memory was refused.
pub fn share(
    alloc: Global,
    claimed: bool,
    module: u16,
    messages: &[PlainMessage],
    rest: PlainRest,
) -> Result<PlainShare, AllocError>
    ensures is { IfOk result (λ share. share_by share
        ≡ share_of claimed «module» (map message_of messages.now) (rest_by rest)) }
    ensures few { IfOk result (λ share. share.strays ≤ 2 ^ 64) }
{
    let mut share = PlainShare::new(alloc);
    for message in messages {
        if message.module() == module {
            share = share.after_message(alloc, claimed, module, message)?;
        }
    }
    share.after_rest(module, rest)
}

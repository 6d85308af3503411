//! A connection goes on.

ghost use Rattle.std.specs.Prelude.{◌≡◌, ◌≢◌, ◌==◌, ◌&&◌, ◌++◌, ◌∷◌, ℕ, Bool, true, false, List, [], length, drop, Option};
ghost use Rattle.lfi_module.specs.Pages.{is_due};
ghost use Rattle.lfi_frame.specs.declared.feed.Feed.{Feed};
ghost use Rattle.lfi_frame.specs.declared.answer.Got.TheVariants.{More};
ghost use Rattle.lfi_frame.specs.Streams.{Message, open_message, page_message, close_message, rest_of, unfinished};
ghost use Rattle.lfi_frame.specs.Feeds.{IsTold};
ghost use Rattle.lfi_model.specs.declared.connection.Progress.TheVariants.{Unclaimed};
ghost use Rattle.lfi_connection.specs.declared.due_page.DuePage.{DuePage};
ghost use Rattle.lfi_connection.specs.Connections.{Holds};
ghost use Rattle.lfi_connection.specs.Events.{Answers, Grows, IsPlain, Follows, Continues, TellsCode, coming_after, Moves};

use crate::due_page::DuePage;
use crate::event::Event;
use crate::progress_table::ProgressTable;
use lfi_frame::Got;
use lfi_model::{Progress, Reason};
use lfi_module::{Extent, ModuleNumber, PageSize};

/// An Open: it opens its module, where that wasn't opened before and this connection may claim it; else it is passed over.
#[inline(always)]
fn open<P: ProgressTable>(
    table: &mut P,
    module: ModuleNumber,
    extent: Extent,
    is_free: bool,
) -> Event
    ensures holds { (coming : Option DuePage) (claimed : ℕ → Bool) (messages : List Message) (payload : List ℕ) → (P.progress_at table.old «module» ≡ Unclaimed → claimed «module» ≡ is_free) → Holds (P.progress_at table.old) coming claimed messages [] →
        let now = messages ++ open_message «module» extent ∷ [] in Holds (P.progress_at table.new) coming claimed now [] × Grows result claimed messages [] now [] payload }
    ensures plain { IsPlain result }
    ensures follows { Follows result (P.progress_at table.old) }
    ensures comes { (count : ℕ) (coming : Option DuePage) → coming_after result count coming ≡ coming }
{
    match table.at(module) {
        Progress::Unclaimed => {
            if !is_free {
                return Event::Stray { module };
            }
            table.set(module, Progress::Going { extent, pages: 0 });
            Event::Open { module, extent }
        }
        _ => Event::Stray { module },
    }
}

/// A Close: it ends its module, where that is open; else it is passed over.
#[inline(always)]
fn close<P: ProgressTable>(table: &mut P, module: ModuleNumber) -> Event
    ensures holds { (coming : Option DuePage) (claimed : ℕ → Bool) (messages : List Message) (payload : List ℕ) → Holds (P.progress_at table.old) coming claimed messages [] →
        let now = messages ++ close_message «module» ∷ [] in Holds (P.progress_at table.new) coming claimed now [] × Grows result claimed messages [] now [] payload }
    ensures plain { IsPlain result }
    ensures follows { Follows result (P.progress_at table.old) }
    ensures comes { (count : ℕ) (coming : Option DuePage) → coming_after result count coming ≡ coming }
{
    match table.at(module) {
        Progress::Going { extent, pages } => {
            table.set(module, Progress::Ended);
            Event::End {
                module,
                extent,
                pages,
                reason: Reason::Close,
            }
        }
        _ => Event::Stray { module },
    }
}

/// Whether page `index` of this size, with `len` payload bytes, is the one due of an open module of which `pages` came.
#[inline(always)]
fn is_next(extent: Extent, pages: u32, size: PageSize, index: u32, len: u32) -> bool
    ensures { result ≡ (size == extent.pages && is_due extent.pages extent.words pages index len) }
{
    size == extent.pages()
        && extent
            .words()
            .is_due(extent.pages(), pages, index, len as usize)
}

/// The header of page `index` of this size with `len` payload bytes: it is the one due of an open module, and is coming; or
/// it ends its module; or it is passed over.
#[inline(always)]
fn page<P: ProgressTable>(
    table: &mut P,
    module: ModuleNumber,
    size: PageSize,
    index: u32,
    len: u32,
) -> Event
    ensures holds { (coming : Option DuePage) (claimed : ℕ → Bool) (messages : List Message) (rest payload : List ℕ) (count : ℕ) → Holds (P.progress_at table.old) coming claimed messages [] → rest_of rest ≡ unfinished «module» size index len →
        drop 12 rest ≡ [] → Holds (P.progress_at table.new) (coming_after result count coming) claimed messages rest × Grows result claimed messages [] messages rest payload }
    ensures plain { IsPlain result }
    ensures follows { Follows result (P.progress_at table.old) }
{
    let Progress::Going { extent, pages } = table.at(module) else {
        return Event::Stray { module };
    };
    if !is_next(extent, pages, size, index, len) {
        table.set(module, Progress::Ended);
        return Event::End {
            module,
            extent,
            pages,
            reason: Reason::PageFault(index),
        };
    }
    Event::Begin(DuePage {
        module,
        extent,
        pages,
        come: 0,
    })
}

/// Payload bytes: they are code of the page that is coming, and where that has ended its module has one page more; or they
/// are passed over.
#[inline(always)]
fn payload<P: ProgressTable>(
    table: &mut P,
    coming: Option<DuePage>,
    count: usize,
    ended: bool,
) -> Event
    ensures more { (claimed : ℕ → Bool) (messages : List Message) (rest used : List ℕ) (m size index len : ℕ) → «ended» ≡ false → length used ≡ count → Holds (P.progress_at table.old) coming claimed messages rest →
        rest_of rest ≡ unfinished m size index len → rest_of (rest ++ used) ≡ unfinished m size index len →
        Holds (P.progress_at table.new) (coming_after result (length used) coming) claimed messages (rest ++ used) × Grows result claimed messages rest messages (rest ++ used) (drop 12 rest ++ used) × TellsCode result claimed messages rest used }
    ensures whole { (claimed : ℕ → Bool) (messages : List Message) (rest used : List ℕ) (m size index len : ℕ) → «ended» ≡ true → length used ≡ count → Holds (P.progress_at table.old) coming claimed messages rest →
        rest_of rest ≡ unfinished m size index len → length (drop 12 rest ++ used) ≡ len →
        let now = messages ++ page_message m size index (drop 12 rest ++ used) ∷ [] in
        Holds (P.progress_at table.new) (coming_after result (length used) coming) claimed now [] × Grows result claimed messages rest now [] (drop 12 rest ++ used) × TellsCode result claimed messages rest used }
    ensures follows { Follows result (P.progress_at table.old) }
    ensures continues { Continues result coming count }
{
    let Some(page) = coming else {
        return Event::Nothing;
    };
    if !page.goes_on(count, ended) {
        return Event::Nothing;
    }
    if !ended {
        return Event::Code { page, ended: false };
    }
    table.set(
        page.module,
        Progress::Going {
            extent: page.extent,
            pages: page.pages + 1,
        },
    );
    Event::Code { page, ended: true }
}

/// What is told of what `count` bytes brought, which a feed has told, where this page is coming. Where a module opens,
/// `is_free` answers whether this connection may claim it; it is asked for nothing else. Code is told of the page that is
/// coming alone, and as far as that has bytes to come, whatever the numbers are.
#[inline(always)]
pub fn advance<P: ProgressTable>(
    table: &mut P,
    coming: &Option<DuePage>,
    got: Got,
    count: usize,
    is_free: bool,
) -> Event
    ensures moves { (feed : Feed) (claimed : ℕ → Bool) (messages : List Message) (rest used : List ℕ) → length used ≡ count → (got ≢ More → used ≢ []) → Answers got is_free claimed (P.progress_at table.old) →
        Holds (P.progress_at table.old) coming.now claimed messages rest → IsTold got feed messages rest used →
        Moves feed (P.progress_at table.new) coming.now claimed messages rest used result }
    ensures follows { Follows result (P.progress_at table.old) }
    ensures continues { Continues result coming.now count }
{
    match got {
        Got::More => Event::Nothing,
        Got::Open { module, extent } => open(table, module, extent, is_free),
        Got::Page {
            module,
            size,
            index,
            len,
        } => page(table, module, size, index, len),
        Got::Payload { ended } => payload(table, *coming, count, ended),
        Got::Close { module } => close(table, module),
    }
}

//! What becomes of a module.

ghost use Rattle.std.specs.Prelude.{◌≡◌, ◌≤◌, length, IfOk};
ghost use Rattle.lfi_module.specs.Numbers.{most_words};
ghost use Rattle.lfi_rules.specs.Verdicts.{all_words};
ghost use Rattle.lfi_model.specs.Outcomes.{Load, Placed, pages_of, end_of, by_end};
ghost use Rattle.lfi_reference.specs.Messages.{size_of, extent_by};
ghost use Rattle.lfi_reference.specs.Shares.{items_by};
ghost use Rattle.lfi_reference.specs.Pages.{pages_by, outcome_by, told_by, IsEnded};

use crate::message::PlainExtent;
use crate::share::{PlainItem, PlainKind, page_count};
use crate::words::{all_words, first_fault, pages_of, placed};
use lfi_model::{Outcome, Reason};
use lfi_rules::Fault;
use std::alloc::{AllocError, Global};

/// What became of a module, and the pages of it that were placed.
#[derive(Drop)]
pub struct Loaded {
    /// The outcome.
    pub outcome: Outcome,
    /// The longest beginning of its pages that has no fault, each as its words.
    pub placed: Vec<Vec<u32>>,
}

/// Why a module with these items ended, where it has.
pub fn end_of(items: &[PlainItem]) -> Option<Reason>
    ensures { result ≡ end_of (items_by items.now) }
{
    for item in items {
        if let PlainKind::End(reason) = &item.kind {
            return Some(*reason);
        }
    }
    None
}

/// The outcome of a module of this extent by its End, where there is no fault in the words that came.
fn by_end(extent: PlainExtent, words: usize, pages: usize, reason: Reason) -> Outcome
    requires { pages ≤ most_words }
    ensures { result ≡ outcome_by (size_of extent.large) extent.words words pages reason }
{
    let n = extent.words;
    match reason {
        Reason::Close if words == n as usize => Outcome::Complete { words: n },
        Reason::Close => Outcome::Incomplete {
            pages: pages as u32,
            of: page_count(extent.large, n),
        },
        Reason::Lost(fault) => Outcome::Lost(fault),
        Reason::PageFault(index) => Outcome::PageFault(index),
        Reason::NoMemory => Outcome::NoMemory,
    }
}

/// The outcome of a module of this extent, by the words and pages of it that came, by their first fault
/// and why it ended.
fn outcome(
    extent: PlainExtent,
    fault: Option<Fault>,
    end: Option<Reason>,
    words: usize,
    pages: usize,
) -> Outcome
    requires { pages ≤ most_words }
    ensures { result ≡ told_by (size_of extent.large) extent.words fault end words pages }
{
    match (fault, end) {
        (Some(fault), _) => Outcome::Refused(fault),
        (None, Some(reason)) => by_end(extent, words, pages, reason),
        (None, None) => Outcome::Unused,
    }
}

/// What becomes of a module of this extent with these items.
///
/// # Errors
///
/// Where memory was refused.
pub fn load_module(
    alloc: Global,
    extent: PlainExtent,
    items: &[PlainItem],
) -> Result<Loaded, AllocError>
    requires most { extent.words ≤ most_words }
    requires room { length (all_words (pages_of (items_by items.now))) ≤ extent.words }
    requires pages { length (pages_of (items_by items.now)) ≤ most_words }
    requires ended { IsEnded (items_by items.now) }
    ensures outcome { IfOk result (λ loaded. Load (extent_by extent) (items_by items.now) loaded.outcome) }
    ensures placed { IfOk result (λ loaded. Placed (extent_by extent) (pages_of (items_by items.now)) (pages_by loaded.placed.items)) }
{
    let mut pages = pages_of(alloc, items)?;
    let words = all_words(alloc, pages.as_slice())?;
    let fault = first_fault(&words, extent.words, extent.profile);
    let outcome = outcome(extent, fault, end_of(items), words.len(), pages.len());
    let count = placed(alloc, extent, pages.as_slice())?;
    pages.truncate(count);
    Ok(Loaded {
        outcome,
        placed: pages,
    })
}

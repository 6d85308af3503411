//! The words of a module, and their first fault.

ghost use Rattle.std.specs.Prelude.{◌≡◌, ◌≤◌, ◌<◌, take, length, IfOk};
ghost use Rattle.lfi_module.specs.Numbers.{most_words};
ghost use Rattle.lfi_rules.specs.Faults.{FirstFault};
ghost use Rattle.lfi_rules.specs.Verdicts.{all_words};
ghost use Rattle.a64_word.specs.Words.{words_of};
ghost use Rattle.lfi_model.specs.Outcomes.{Placed, pages_of};
ghost use Rattle.lfi_reference.specs.Messages.{extent_by};
ghost use Rattle.lfi_reference.specs.Shares.{items_by};
ghost use Rattle.lfi_reference.specs.Pages.{pages_by};

use crate::message::PlainExtent;
use crate::share::{PlainItem, PlainKind};
use lfi_module::Profile;
use lfi_rules::{Fault, Need, fault_after, judge};
use std::alloc::{AllocError, Global};

/// The words that bytes spell, four bytes a word, the lowest first.
///
/// # Errors
///
/// Where memory was refused.
pub fn words_of(alloc: Global, bytes: &[u8]) -> Result<Vec<u32>, AllocError>
    ensures { IfOk result (λ words. words.items ≡ words_of bytes.now) }
{
    let mut words = Vec::new(alloc);
    for i in 0..bytes.len() / 4 {
        let at = 4 * i;
        words.push(u32::from_le_bytes([bytes[at], bytes[at + 1], bytes[at + 2], bytes[at + 3]]))?;
    }
    Ok(words)
}

/// The pages among the items of a module, each as its words.
///
/// # Errors
///
/// Where memory was refused.
pub fn pages_of(alloc: Global, items: &[PlainItem]) -> Result<Vec<Vec<u32>>, AllocError>
    ensures { IfOk result (λ pages. pages_by pages.items ≡ pages_of (items_by items.now)) }
{
    let mut pages = Vec::new(alloc);
    for item in items {
        if let PlainKind::Page(bytes) = &item.kind {
            pages.push(words_of(alloc, bytes.as_slice())?)?;
        }
    }
    Ok(pages)
}

/// The words of all pages.
///
/// # Errors
///
/// Where memory was refused.
pub fn all_words(alloc: Global, pages: &[Vec<u32>]) -> Result<Vec<u32>, AllocError>
    ensures { IfOk result (λ words. words.items ≡ all_words (pages_by pages.now)) }
{
    let mut words = Vec::new(alloc);
    for page in pages {
        words.extend_from_slice(page.as_slice())?;
    }
    Ok(words)
}

/// The first fault of words, the beginning of a module of n words, by a profile.
pub fn first_fault(words: &Vec<u32>, n: u32, profile: Profile) -> Option<Fault>
    requires room { length words.now.items ≤ n }
    requires most { n ≤ most_words }
    ensures { FirstFault profile words.now.items n result }
{
    if words.is_empty() {
        return None;
    }
    let verdict = judge(words, 0, n, profile);
    fault_after(n, Need::Nothing, &verdict, words.len())
}

/// How many of the pages of a module of this extent make their longest beginning without a fault.
///
/// # Errors
///
/// Where memory was refused.
pub fn placed(alloc: Global, extent: PlainExtent, pages: &[Vec<u32>]) -> Result<usize, AllocError>
    requires room { length (all_words (pages_by pages.now)) ≤ extent.words }
    requires most { extent.words ≤ most_words }
    ensures within { IfOk result (λ count. count ≤ length pages.now) }
    ensures longest { IfOk result (λ count. Placed (extent_by extent) (pages_by pages.now) (take count (pages_by pages.now))) }
{
    for count in 0..pages.len() {
        let (front, _) = pages.split_at(count + 1);
        let words = all_words(alloc, front)?;
        if first_fault(&words, extent.words, extent.profile).is_some() {
            return Ok(count);
        }
    }
    Ok(pages.len())
}

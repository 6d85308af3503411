//! Words that open a need, and what the words after them break: a probe may come late.

ghost use Rattle.std.specs.Prelude.{◌≢◌, ◌+◌, ◌<◌, ◌≤◌, IsTrue, IfSome, IfNone, length, Some};
ghost use Rattle.lfi_module.specs.Numbers.{most_words};
ghost use Rattle.lfi_module.specs.declared.profile.Profile.{Profile};
ghost use Rattle.lfi_rules.specs.declared.needs.Need.TheVariants.{Nothing, Probe};
ghost use Rattle.lfi_rules.specs.Faults.{IsFirstInside};
ghost use Rattle.lfi_rules.specs.inner.Passing.{IsMetAfter, IsFine, AreFine, OpensAt};

use crate::calm::is_calm_word;
use crate::fault::Fault;
use crate::inspect::inspect;
use crate::met::{is_met, is_plain_probe};
use crate::needs::{Need, window};
use crate::region::Region;
use crate::straight::is_surely_calm;
use a64_word::Words;
use lfi_module::Profile;

/// Whether the word at a place moves sp, and calm words alone stand between it and its probe, or the words' end: it is fine.
pub fn is_told_late<W: Words>(region: Region<'_, W>, i: usize) -> bool
    requires within { i < length (W.words region.words.now) }
    ensures { IsTrue result → IsFine region.entry.profile (W.words region.entry.words.now) region.entry.first region.entry.n i }
{
    if !region.tables.classes_of(region.words.word(i)).opens_probe() {
        return false;
    }
    for gone in 0..window(region.profile) {
        let at = i + 1 + usize::from(gone);
        if at >= region.words.count() {
            return true;
        }
        let word = region.words.word(at);
        if is_met(word, Need::Probe(1)) {
            return true;
        }
        if !is_calm_word(word, region.profile) {
            return false;
        }
    }
    false
}

/// Whether the word at a place moves sp, and calm words alone stand between it and its probe, two to four words behind it, where as
/// many words follow: it is fine. Without a branch by what a word is.
#[inline(always)]
fn probes_late<W: Words>(region: Region<'_, W>, i: usize) -> bool
    requires within { i < length (W.words region.words.now) }
    ensures { IsTrue result → IsFine region.entry.profile (W.words region.entry.words.now) region.entry.first region.entry.n i }
{
    if i + 4 >= region.words.count() {
        return false;
    }
    let one = region.words.word(i + 1);
    let two = region.words.word(i + 2);
    let three = region.words.word(i + 3);
    let four = region.words.word(i + 4);
    let past_two = is_surely_calm(three) & is_plain_probe(four);
    let past_one = is_surely_calm(two) & (is_plain_probe(three) | past_two);
    let behind = is_surely_calm(one) & (is_plain_probe(two) | past_one);
    region.tables.classes_of(region.words.word(i)).opens_probe()
        & (window(region.profile) == 4)
        & behind
}

/// Whether the word after a place surely meets Probe: so it is, where the words end.
#[inline(always)]
fn probes_after<W: Words>(words: &W, i: usize) -> bool
    requires within { i < length (W.words words.now) }
    requires small { length (W.words words.now) ≤ most_words }
    ensures { (profile : Profile) → IsTrue result → IsMetAfter profile (W.words words.now) i (Probe 1) }
{
    i + 1 >= words.count() || is_met(words.word(i + 1), Need::Probe(1))
}

/// Whether the word at a place moves sp, and the next one is the probe, or the words end: it is fine.
#[inline(always)]
fn probes_next<W: Words>(region: Region<'_, W>, i: usize) -> bool
    requires within { i < length (W.words region.words.now) }
    ensures { IsTrue result → IsFine region.entry.profile (W.words region.entry.words.now) region.entry.first region.entry.n i }
{
    region.tables.classes_of(region.words.word(i)).opens_probe() && probes_after(region.words, i)
}

/// Whether the word at a place moves sp, and is told by a probe one to four words behind it: it is fine.
#[inline(always)]
pub fn is_probed<W: Words>(region: Region<'_, W>, i: usize) -> bool
    requires within { i < length (W.words region.words.now) }
    ensures { IsTrue result → IsFine region.entry.profile (W.words region.entry.words.now) region.entry.first region.entry.n i }
{
    probes_next(region, i) || probes_late(region, i)
}

/// The first fault of the words after one that opens a need, up to the one that meets it or should have: what a word breaks by
/// itself, or after what is open there.
pub fn fault_behind<W: Words>(region: Region<'_, W>, i: usize, opened: Need) -> Option<Fault>
    requires within { i < length (W.words region.words.now) }
    requires some { opened ≢ Nothing }
    requires opens { OpensAt region.profile (W.words region.words.now) region.first region.n i opened }
    ensures some { IfSome result (λ fault. AreFine region.entry.profile (W.words region.entry.words.now) region.entry.first region.entry.n 0 i → IsFirstInside region.entry.profile (W.words region.entry.words.now) region.entry.first region.entry.n (Some fault)) }
    ensures none { IfNone result (IsFine region.entry.profile (W.words region.entry.words.now) region.entry.first region.entry.n i) }
{
    let mut need = opened;
    for gone in 0..window(region.profile) {
        let at = i + 1 + usize::from(gone);
        if need == Need::Nothing || at >= region.words.count() {
            return None;
        }
        let place = region.first + at as u32;
        let (rule, left) = inspect(region.words.word(at), need, place, region.n, region.profile);
        if let Some(rule) = rule {
            return Some(Fault { word: place, rule });
        }
        need = left;
    }
    None
}

//! The first fault of words by themselves: nearly all are told by their classes, and a closer look is taken at the others alone.

ghost use Rattle.std.specs.Prelude.{◌≡◌, ◌≢◌, ◌+◌, ◌<◌, ◌≤◌, IsTrue, IfSome, IfNone, ℕ, length, slice_index};
ghost use Rattle.lfi_module.specs.Numbers.{most_words};
ghost use Rattle.lfi_module.specs.Profiles.{is_two};
ghost use Rattle.lfi_module.specs.declared.profile.Profile.{Profile};
ghost use Rattle.lfi_module.specs.declared.profile.Profile.TheVariants.{Two};
ghost use Rattle.lfi_classes.specs.Classes.{least_of};
ghost use Rattle.lfi_classes.specs.declared.classes.Reach.TheVariants.{Quiet, Ordered};
ghost use Rattle.lfi_rules.specs.declared.needs.Need.TheVariants.{Nothing, Call, Guard};
ghost use Rattle.lfi_rules.specs.Faults.{IsFirstInside};
ghost use Rattle.lfi_rules.specs.inner.Quiet.{IsToldWord};
ghost use Rattle.lfi_rules.specs.inner.Passing.{IsMetAfter, IsFine, AreFine, AreMarked, AreNoted, AreWithin, AreMarkedFine, IsFoundIn};

use crate::direct::stays_inside;
use crate::fault::Fault;
use crate::inspect::inspect;
use crate::late::{fault_behind, is_probed, is_told_late};
use crate::marks::{Marks, QUARTER, SPAN, mark_rest, mark_span};
use crate::met::is_met;
use crate::needs::Need;
use crate::region::Region;
use a64_word::Words;
use lfi_classes::Kinds;
use lfi_module::Profile;

/// Whether a profile has ordered loads and stores.
#[inline(always)]
fn has_ordered(profile: Profile) -> bool
    ensures { result ≡ is_two profile }
{
    match profile {
        Profile::One => false,
        Profile::Two => true,
    }
}

/// Which needs a word meets. Whether it meets Probe is asked of those alone that come after a move of sp (`keep_unprobed`).
#[derive(Clone, Copy)]
struct Met {
    call: bool,
    guard: bool,
}

/// Which needs the word after a place surely meets. Where none follows, the last word is asked once more: there all are met.
#[inline(always)]
fn met_after<W: Words>(words: &W, i: usize) -> Met
    requires within { i < length (W.words words.now) }
    requires small { length (W.words words.now) ≤ most_words }
    ensures call { (profile : Profile) → IsTrue result.call → IsMetAfter profile (W.words words.now) i Call }
    ensures guard { (profile : Profile) → IsTrue result.guard → IsMetAfter profile (W.words words.now) i Guard }
{
    let next = words.word((i + 1).min(words.count() - 1));
    Met {
        call: is_met(next, Need::Call),
        guard: is_met(next, Need::Guard),
    }
}

/// Whether the word at a place is told by its class, its own fields and the word after it: it is fine. No move of sp is told here.
#[inline(always)]
fn is_told<W: Words>(region: Region<'_, W>, i: usize) -> bool
    requires within { i < length (W.words region.words.now) }
    ensures { IsTrue result → IsFine region.entry.profile (W.words region.entry.words.now) region.entry.first region.entry.n i }
{
    let word = region.words.word(i);
    let met = met_after(region.words, i);
    let kinds = Kinds {
        call: met.call,
        guard: met.guard,
        pair: word & 31 != word >> 10 & 31,
        direct: stays_inside(word, region.first + i as u32, region.n),
        ordered: has_ordered(region.profile),
    };
    region.tables.classes_of(word).is_of(kinds)
}

/// Writes the places that notes stand for, each of them moved ahead, down behind `before` places, but for those whose words are told;
/// answers how many there are then. Without a branch by what a word is.
#[inline(never)]
fn add_untold<W: Words>(
    region: Region<'_, W>,
    ahead: usize,
    notes: &[u8],
    places: &mut [u32],
    before: usize,
) -> usize
    requires room { before + length notes.now ≤ length places.old }
    requires within { (p : ℕ) → p < length notes.now → slice_index notes.now p + ahead < length (W.words region.words.now) }
    ensures count { result ≤ before + length notes.now }
    ensures marked { (begin start stop : ℕ) → begin ≤ start → start ≤ stop → AreMarked region.entry.profile (W.words region.entry.words.now) region.entry.first region.entry.n begin start places.old before
        → AreNoted region.entry.profile (W.words region.entry.words.now) region.entry.first region.entry.n start stop ahead notes.entry.now
        → AreMarked region.entry.profile (W.words region.entry.words.now) region.entry.first region.entry.n begin stop places.new result }
{
    let mut kept = before;
    for note in notes {
        let place = usize::from(*note) + ahead;
        places[kept] = place as u32;
        if !is_told(region, place) {
            kept += 1;
        }
    }
    kept
}

/// Of the first `count` places keeps those whose words aren't told by a probe one to four words behind, in order and before all
/// others; answers how many they are.
#[inline(never)]
fn keep_unprobed<W: Words>(region: Region<'_, W>, places: &mut [u32], count: usize) -> usize
    requires count { count ≤ length places.old }
    requires within { (p : ℕ) → p < count → slice_index places.old p < length (W.words region.words.now) }
    ensures count { result ≤ count }
    ensures marked { (start stop : ℕ) → AreMarked region.entry.profile (W.words region.entry.words.now) region.entry.first region.entry.n start stop places.old count
        → AreMarked region.entry.profile (W.words region.entry.words.now) region.entry.first region.entry.n start stop places.new result }
{
    let mut left = 0;
    for at in 0..count {
        let place = places[at];
        places[left] = place;
        if !is_probed(region, place as usize) {
            left += 1;
        }
    }
    left
}

/// The first fault of the words from the place `first + i` on, up to the one that meets what the first opens: what that breaks
/// by itself; else what those after it break.
fn fault_at<W: Words>(region: Region<'_, W>, i: usize) -> Option<Fault>
    requires within { i < length (W.words region.words.now) }
    ensures some { IfSome result (λ fault. AreFine region.entry.profile (W.words region.entry.words.now) region.entry.first region.entry.n 0 i → IsFirstInside region.entry.profile (W.words region.entry.words.now) region.entry.first region.entry.n (Some fault)) }
    ensures none { IfNone result (IsFine region.entry.profile (W.words region.entry.words.now) region.entry.first region.entry.n i) }
{
    let place = region.first + i as u32;
    let (rule, opened) = inspect(
        region.words.word(i),
        Need::Nothing,
        place,
        region.n,
        region.profile,
    );
    if let Some(rule) = rule {
        return Some(Fault { word: place, rule });
    }
    if opened == Need::Nothing {
        return None;
    }
    fault_behind(region, i, opened)
}

/// The first fault that a closer look at words finds that aren't told.
#[inline(never)]
fn first_by_look<W: Words>(region: Region<'_, W>, marked: &[u32]) -> Option<Fault>
    requires within { AreWithin marked.now (length (W.words region.words.now)) }
    ensures some { IfSome result (λ fault. IsFoundIn region.entry.profile (W.words region.entry.words.now) region.entry.first region.entry.n marked.now fault) }
    ensures none { IfNone result (AreMarkedFine region.entry.profile (W.words region.entry.words.now) region.entry.first region.entry.n marked.now (length marked.now)) }
{
    for place in marked {
        let i = *place as usize;
        if !is_told_late(region, i) {
            let fault = fault_at(region, i);
            if fault.is_some() {
                return fault;
            }
        }
    }
    None
}

/// The first fault of the words at the first `count` places.
#[inline(always)]
fn first_untold<W: Words>(region: Region<'_, W>, places: &mut [u32], count: usize) -> Option<Fault>
    requires count { count ≤ length places.old }
    requires marked { (start : ℕ) × (stop : ℕ) × (stop ≤ length (W.words region.words.now)) × AreMarked region.profile (W.words region.words.now) region.first region.n start stop places.old count }
    ensures some { (start stop : ℕ) → stop ≤ length (W.words region.entry.words.now) → AreMarked region.entry.profile (W.words region.entry.words.now) region.entry.first region.entry.n start stop places.old count
        → IfSome result (λ fault. AreFine region.entry.profile (W.words region.entry.words.now) region.entry.first region.entry.n 0 start → IsFirstInside region.entry.profile (W.words region.entry.words.now) region.entry.first region.entry.n (Some fault)) }
    ensures none { (start stop : ℕ) → AreMarked region.entry.profile (W.words region.entry.words.now) region.entry.first region.entry.n start stop places.old count
        → IfNone result (AreFine region.entry.profile (W.words region.entry.words.now) region.entry.first region.entry.n start stop) }
{
    if count == 0 {
        return None;
    }
    let left = keep_unprobed(region, places, count);
    first_by_look(region, &places[..left])
}

/// Marks the words of a span that aren't told by the next word; answers how many they are.
#[inline(always)]
fn mark_untold<W: Words>(
    region: Region<'_, W>,
    start: usize,
    marks: &mut Marks,
    places: &mut [u32],
) -> usize
    requires room { start + SPAN ≤ length (W.words region.words.now) }
    requires space { SPAN ≤ length places.old }
    ensures count { result ≤ SPAN }
    ensures marked { AreMarked region.entry.profile (W.words region.entry.words.now) region.entry.first region.entry.n start (start + SPAN) places.new result }
{
    let counts = mark_span(region, start, marks);
    let one = add_untold(region, start, &marks.first[..counts.first], places, 0);
    let two = add_untold(
        region,
        start + QUARTER,
        &marks.second[..counts.second],
        places,
        one,
    );
    let three = add_untold(
        region,
        start + 2 * QUARTER,
        &marks.third[..counts.third],
        places,
        two,
    );
    add_untold(
        region,
        start + 3 * QUARTER,
        &marks.fourth[..counts.fourth],
        places,
        three,
    )
}

/// The first fault of the words of a span, where none before has one.
#[inline(always)]
fn first_in_span<W: Words>(
    region: Region<'_, W>,
    start: usize,
    marks: &mut Marks,
    places: &mut [u32],
) -> Option<Fault>
    requires room { start + SPAN ≤ length (W.words region.words.now) }
    requires space { SPAN ≤ length places.old }
    ensures some { IfSome result (λ fault. AreFine region.entry.profile (W.words region.entry.words.now) region.entry.first region.entry.n 0 start → IsFirstInside region.entry.profile (W.words region.entry.words.now) region.entry.first region.entry.n (Some fault)) }
    ensures none { IfNone result (AreFine region.entry.profile (W.words region.entry.words.now) region.entry.first region.entry.n start (start + SPAN)) }
{
    let count = mark_untold(region, start, marks, places);
    first_untold(region, places, count)
}

/// Marks the words from a place on, up to another, that aren't told by the next word; answers how many they are.
fn mark_untold_rest<W: Words>(
    region: Region<'_, W>,
    start: usize,
    stop: usize,
    notes: &mut [u8],
    places: &mut [u32],
) -> usize
    requires start { start ≤ stop }
    requires stop { stop ≤ length (W.words region.words.now) }
    requires room { stop ≤ start + length notes.old }
    requires small { length notes.old ≤ QUARTER }
    requires space { length notes.old ≤ length places.old }
    ensures count { result ≤ length places.new }
    ensures marked { AreMarked region.entry.profile (W.words region.entry.words.now) region.entry.first region.entry.n start stop places.new result }
{
    let count = mark_rest(region, start, stop, notes);
    add_untold(region, start, &notes[..count], places, 0)
}

/// The first fault of the words from a place on, where those before have none, as many of them at once as there is room for notes.
fn first_in_rest<W: Words>(
    region: Region<'_, W>,
    from: usize,
    notes: &mut [u8],
    places: &mut [u32],
) -> Option<Fault>
    requires from { from ≤ length (W.words region.words.now) }
    requires fine { AreFine region.profile (W.words region.words.now) region.first region.n 0 from }
    requires some { 1 ≤ length notes.old }
    requires small { length notes.old ≤ QUARTER }
    requires space { length notes.old ≤ length places.old }
    ensures { IsFirstInside region.entry.profile (W.words region.entry.words.now) region.entry.first region.entry.n result }
{
    let count = region.words.count();
    let mut start = from;
    while start < count {
        let stop = count.min(start + notes.len());
        let marked = mark_untold_rest(region, start, stop, notes, places);
        let fault = first_untold(region, places, marked);
        if fault.is_some() {
            return fault;
        }
        start = stop;
    }
    None
}

/// The first fault of words: span by span, and then of the rest.
#[inline(always)]
fn first_in_spans<W: Words>(
    region: Region<'_, W>,
    marks: &mut Marks,
    places: &mut [u32],
) -> Option<Fault>
    requires space { SPAN ≤ length places.old }
    ensures { IsFirstInside region.entry.profile (W.words region.entry.words.now) region.entry.first region.entry.n result }
{
    let count = region.words.count();
    let mut start = 0;
    while count - start >= SPAN {
        let fault = first_in_span(region, start, marks, places);
        if fault.is_some() {
            return fault;
        }
        start += SPAN;
    }
    first_in_rest(region, start, &mut marks.first, places)
}

/// The first fault of words that stand in a module of n words from `first` on.
#[inline(never)]
pub fn first_inside<W: Words>(region: Region<'_, W>) -> Option<Fault>
    ensures { IsFirstInside region.entry.profile (W.words region.entry.words.now) region.entry.first region.entry.n result }
{
    let mut marks = Marks::none();
    let mut places = [0u32; SPAN];
    first_in_spans(region, &mut marks, &mut places)
}

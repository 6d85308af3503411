//! Marks the words that aren't quiet by their class: those of four quarters of a span at once, without a branch by what a word is.
//!
//! A note is a place in a quarter, a byte. Four lists of them have no order to wait for, and one number is noted in all four.

ghost use Rattle.std.specs.Prelude.{◌≡◌, ◌≢◌, ◌⊎◌, ◌+◌, ◌*◌, ◌<◌, ◌≤◌, length, take, slice_index, slice_set, IsTrue};
ghost use Rattle.lfi_module.specs.declared.profile.Profile.TheVariants.{Two};
ghost use Rattle.lfi_classes.specs.declared.classes.Reach.TheVariants.{Quiet, Ordered};
ghost use Rattle.lfi_rules.specs.inner.Passing.{AreFarFromEnds, AreNoted, IsToldFrom};

use crate::region::Region;
use a64_word::Words;
use lfi_classes::Reach;
use lfi_module::Profile;

/// How many words a near branch goes at most, either way.
const REACH: u32 = 2048;

/// How many words a quarter of a span has.
pub const QUARTER: usize = 256;

/// How many words a span has.
pub const SPAN: usize = 1024;

/// The marks of a span, a list for each quarter: of each marked word a note of its place in the quarter.
#[derive(Drop)]
pub struct Marks {
    pub first: [u8; QUARTER],
    pub second: [u8; QUARTER],
    pub third: [u8; QUARTER],
    pub fourth: [u8; QUARTER],
}

impl Marks {
    /// None yet.
    #[inline(always)]
    pub fn none() -> Marks {
        Marks {
            first: [0; QUARTER],
            second: [0; QUARTER],
            third: [0; QUARTER],
            fourth: [0; QUARTER],
        }
    }
}

/// How many words of each quarter are marked.
#[derive(Clone, Copy)]
pub struct Counts {
    pub first: usize,
    pub second: usize,
    pub third: usize,
    pub fourth: usize,
}

/// Whether the places from one on, up to another, are so far from both ends of a module that each near branch stays in it.
fn are_far_from_ends(start: u32, stop: u32, n: u32) -> bool
    requires { stop ≤ n }
    ensures { IsTrue result → AreFarFromEnds start stop n }
{
    start >= REACH && n - stop >= REACH
}

/// Which classes count as quiet at the places from one on, up to another.
fn reach_between(start: u32, stop: u32, n: u32, profile: Profile) -> Reach
    requires { stop ≤ n }
    ensures far { result ≢ Quiet → AreFarFromEnds start stop n }
    ensures of_profile { result ≡ Ordered → profile ≡ Two }
{
    if !are_far_from_ends(start, stop, n) {
        return Reach::Quiet;
    }
    match profile {
        Profile::One => Reach::Near,
        Profile::Two => Reach::Ordered,
    }
}

/// Writes a note down behind `count` others, and answers how many there are then: one more, where the word `at` isn't of a class from
/// `least` on.
#[inline(always)]
fn mark<W: Words>(
    region: Region<'_, W>,
    at: usize,
    least: u64,
    note: usize,
    notes: &mut [u8],
    count: usize,
) -> usize
    requires at { at < length (W.words region.words.now) }
    requires small { note < 256 }
    requires room { count < length notes.old }
    ensures written { notes.new ≡ slice_set notes.old count note }
    ensures step { (result ≡ count + 1) ⊎ ((result ≡ count) × IsToldFrom least (slice_index (W.words region.entry.words.now) at)) }
{
    notes[count] = note as u8;
    let classes = region.tables.classes_of(region.words.word(at));
    if classes.is_quiet_from(least) {
        count
    } else {
        count + 1
    }
}

/// Marks the words of a span that aren't quiet.
#[inline(always)]
pub fn mark_span<W: Words>(region: Region<'_, W>, start: usize, marks: &mut Marks) -> Counts
    requires room { start + SPAN ≤ length (W.words region.words.now) }
    ensures first { (result.first ≤ QUARTER) × AreNoted region.entry.profile (W.words region.entry.words.now) region.entry.first region.entry.n start (start + QUARTER) start (take result.first marks.new.first) }
    ensures second { (result.second ≤ QUARTER) × AreNoted region.entry.profile (W.words region.entry.words.now) region.entry.first region.entry.n (start + QUARTER) (start + 2 * QUARTER) (start + QUARTER) (take result.second marks.new.second) }
    ensures third { (result.third ≤ QUARTER) × AreNoted region.entry.profile (W.words region.entry.words.now) region.entry.first region.entry.n (start + 2 * QUARTER) (start + 3 * QUARTER) (start + 2 * QUARTER) (take result.third marks.new.third) }
    ensures fourth { (result.fourth ≤ QUARTER) × AreNoted region.entry.profile (W.words region.entry.words.now) region.entry.first region.entry.n (start + 3 * QUARTER) (start + SPAN) (start + 3 * QUARTER) (take result.fourth marks.new.fourth) }
{
    let from = region.first + start as u32;
    let least = reach_between(from, from + SPAN as u32, region.n, region.profile).least();
    let mut counts = Counts {
        first: 0,
        second: 0,
        third: 0,
        fourth: 0,
    };
    for i in 0..QUARTER {
        let at = start + i;
        counts = Counts {
            first: mark(region, at, least, i, &mut marks.first, counts.first),
            second: mark(
                region,
                at + QUARTER,
                least,
                i,
                &mut marks.second,
                counts.second,
            ),
            third: mark(
                region,
                at + 2 * QUARTER,
                least,
                i,
                &mut marks.third,
                counts.third,
            ),
            fourth: mark(
                region,
                at + 3 * QUARTER,
                least,
                i,
                &mut marks.fourth,
                counts.fourth,
            ),
        };
    }
    counts
}

/// Marks the words from a place on, up to another, that aren't quiet, by notes of their places behind the first; answers how many
/// they are.
pub fn mark_rest<W: Words>(
    region: Region<'_, W>,
    start: usize,
    stop: usize,
    notes: &mut [u8],
) -> usize
    requires start { start ≤ stop }
    requires stop { stop ≤ length (W.words region.words.now) }
    requires space { stop ≤ start + length notes.old }
    requires small { length notes.old ≤ QUARTER }
    ensures count { result ≤ length notes.new }
    ensures marked { AreNoted region.entry.profile (W.words region.entry.words.now) region.entry.first region.entry.n start stop start (take result notes.new) }
{
    let least = reach_between(
        region.first + start as u32,
        region.first + stop as u32,
        region.n,
        region.profile,
    )
    .least();
    let mut count = 0;
    for i in 0..stop - start {
        count = mark(region, start + i, least, i, notes, count);
    }
    count
}

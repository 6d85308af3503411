//! The verdict on a page, and what it and the page before say together.

ghost use Rattle.std.specs.Prelude.{◌≡◌, ◌≢◌, ◌+◌, ◌<◌, ◌≤◌, ℕ, List, ◌++◌, length, slice_get, Some, None};
ghost use Rattle.lfi_module.specs.Numbers.{most_words};

use crate::calm::is_calm_word;
use crate::fault::Fault;
use crate::left::open_before;
use crate::met::is_met;
use crate::needs::{Need, meets};
use crate::pass::first_inside;
use crate::region::Region;
use crate::rule::Rule;
use a64_word::{Words, decode};
use lfi_classes::ClassTables;
use lfi_module::Profile;

/// What the first words of a page meet.
#[derive(Clone, Copy, PartialEq, Eq)]
pub struct HeadMeets {
    /// The first is the call through x30.
    pub call: bool,
    /// The first is the guard of x30 by itself.
    pub guard: bool,
    /// How many calm words begin the page, of which four are counted.
    pub calm: u8,
    /// They are the whole page.
    pub whole: bool,
    /// After them comes an access at sp and offset 0.
    pub probe: bool,
}

/// What is known of a page by itself.
#[derive(Clone, Copy, PartialEq, Eq)]
pub struct PageVerdict {
    /// The place of its first word in the module.
    pub first: u32,
    /// Its first fault by rules 1 to 9, and by rule 10 between two of its words.
    pub inner: Option<Fault>,
    /// What its first words meet.
    pub head: HeadMeets,
    /// What its words leave open.
    pub tail: Need,
}

ghost use Rattle.lfi_module.specs.declared.profile.Profile.{Profile};
ghost use Rattle.lfi_rules.specs.declared.needs.Need.TheVariants.{Nothing};
ghost use Rattle.lfi_rules.specs.Calm.{IsCalm};
ghost use Rattle.lfi_rules.specs.Faults.{Meets, IsFirstInside, FirstFault};
ghost use Rattle.lfi_rules.specs.Verdicts.{Tells, MeetsAt, IsHead, LeavesOpen, Judges, fails_at, seam_by, seam_of, leave_of, earlier, closing, fault_after};

/// Whether the instruction that a word spells, if any does, meets a need.
fn spells_met(word: u32, need: Need, profile: Profile) -> bool
    requires { need ≢ Nothing }
    ensures { Tells result (Meets profile word need) }
{
    match decode(word, profile) {
        Some(instruction) => meets(&instruction, need),
        None => false,
    }
}

/// Whether a word meets a need.
#[inline(always)]
fn word_meets(word: u32, need: Need, profile: Profile) -> bool
    requires { need ≢ Nothing }
    ensures { Tells result (Meets profile word need) }
{
    match need {
        Need::Call => is_met(word, need),
        Need::Guard => is_met(word, need),
        _ => is_met(word, need) || spells_met(word, need, profile),
    }
}

/// Whether the word at a place is there and meets a need.
fn meets_at<W: Words>(words: &W, place: usize, need: Need, profile: Profile) -> bool
    requires { need ≢ Nothing }
    ensures { Tells result (MeetsAt profile (W.words words.now) place need) }
{
    place < words.count() && word_meets(words.word(place), need, profile)
}

/// How many calm words begin a page, of which four are counted.
fn calm_at_start<W: Words>(words: &W, profile: Profile) -> u8
    ensures calm { (j word : ℕ) → j < result → slice_get (W.words words.now) j ≡ Some word → IsCalm profile word }
    ensures range { (result ≤ 4) × (result ≤ length (W.words words.now)) }
    ensures next { (word : ℕ) → result < 4 → slice_get (W.words words.now) result ≡ Some word → IsCalm profile word → ⊥ }
{
    for i in 0..4u8 {
        if usize::from(i) >= words.count() {
            return i;
        }
        if !is_calm_word(words.word(usize::from(i)), profile) {
            return i;
        }
    }
    4
}

/// What the first words of a page meet.
fn head_of<W: Words>(words: &W, profile: Profile) -> HeadMeets
    ensures { IsHead profile (W.words words.now) result }
{
    let calm = calm_at_start(words, profile);
    HeadMeets {
        call: meets_at(words, 0, Need::Call, profile),
        guard: meets_at(words, 0, Need::Guard, profile),
        calm,
        whole: usize::from(calm) == words.count(),
        probe: meets_at(words, usize::from(calm), Need::Probe(1), profile),
    }
}

/// The verdict on the words of a page, which stand in a module of n words from the place `first` on.
pub fn judge<W: Words>(words: &W, first: u32, n: u32, profile: Profile) -> PageVerdict
    requires some { 1 ≤ length (W.words words.now) }
    requires room { first + length (W.words words.now) ≤ n }
    requires most { n ≤ most_words }
    ensures { Judges profile (W.words words.now) first n result }
{
    PageVerdict {
        first,
        inner: first_inside(Region {
            words,
            first,
            n,
            profile,
            tables: ClassTables::all(),
        }),
        head: head_of(words, profile),
        tail: open_before(words, words.count(), profile),
    }
}

/// The word of a page, if any, at which a need fails that was open before the page.
fn fails_at(head: HeadMeets, need: Need) -> Option<u8>
    ensures { result ≡ fails_at head need }
{
    match need {
        Need::Nothing => None,
        Need::Call => { if head.call { None } else { Some(0) } }
        Need::Guard => { if head.guard { None } else { Some(0) } }
        Need::Probe(count) => {
            if head.calm < count {
                if head.whole || head.probe {
                    None
                } else {
                    Some(head.calm)
                }
            } else {
                Some(count.saturating_sub(1))
            }
        }
    }
}

/// The fault of a module that ends with an open need.
fn closing(n: u32, need: Need) -> Option<Fault>
    requires { 1 ≤ n }
    ensures { result ≡ closing n need }
{
    match need {
        Need::Nothing => None,
        _ => Some(Fault {
            word: n - 1,
            rule: Rule::NeedMet,
        }),
    }
}

/// The fault of the two that comes first.
fn earlier(fault: Fault, other: Option<Fault>) -> Option<Fault>
    ensures { result ≡ earlier fault other }
{
    match other {
        Some(other)
            if other.word < fault.word
                || (other.word == fault.word && other.rule.number() < fault.rule.number()) => Some(
            other,
        ),
        _ => Some(fault),
    }
}

/// The fault that comes first of a page's own and the one at a word of it, if any, where a need fails.
fn seam_at(place: Option<u8>, verdict: &PageVerdict) -> Option<Fault>
    ensures { verdict.now.first ≤ most_words → result ≡ seam_by place verdict.now }
{
    match place {
        Some(place) => earlier(
            Fault {
                word: verdict.first.saturating_add(u32::from(place)),
                rule: Rule::NeedMet,
            },
            verdict.inner,
        ),
        None => verdict.inner,
    }
}

/// The first fault of a page after words that have none and leave `tail` open: that its words don't meet `tail` comes
/// after what the word that fails breaks by itself, and before any later word.
pub fn seam(tail: Need, verdict: &PageVerdict) -> Option<Fault>
    ensures value { verdict.now.first ≤ most_words → result ≡ seam_of tail verdict.now }
    ensures first { (profile : Profile) (ws page : List ℕ) (n : ℕ) → length ws ≤ most_words → IsFirstInside profile ws 0 n None
        → LeavesOpen profile ws tail → Judges profile page (length ws) n verdict.now → IsFirstInside profile (ws ++ page) 0 n result }
{
    seam_at(fails_at(verdict.head, tail), verdict)
}

/// What is left of a need that is open before a page; else what the page's own words leave open.
fn left_by(tail: Need, verdict: &PageVerdict) -> Need
    ensures { result ≡ leave_of tail verdict.now }
{
    match tail {
        Need::Probe(count) => {
            if verdict.head.whole && verdict.head.calm < count {
                Need::Probe(count - verdict.head.calm)
            } else {
                verdict.tail
            }
        }
        _ => verdict.tail,
    }
}

/// What is open after a page, where words leave `tail` open before it.
pub fn leave(tail: Need, verdict: &PageVerdict) -> Need
    ensures value { result ≡ leave_of tail verdict.now }
    ensures left { (profile : Profile) (ws page : List ℕ) (n : ℕ) → LeavesOpen profile ws tail
        → Judges profile page (length ws) n verdict.now → LeavesOpen profile (ws ++ page) result }
{
    left_by(tail, verdict)
}

/// The first fault of a module of n words, once a page of `count` words comes after words that have none and leave `tail`
/// open: the fault at its seam; else, where the page completes the module, that of an open end.
pub fn fault_after(n: u32, tail: Need, verdict: &PageVerdict, count: usize) -> Option<Fault>
    requires some { 1 ≤ n }
    requires most { n ≤ most_words }
    requires room { verdict.now.first + count ≤ n }
    ensures value { result ≡ fault_after n tail verdict.now count }
    ensures first { (profile : Profile) (placed page : List ℕ) → FirstFault profile placed n None → LeavesOpen profile placed tail
        → Judges profile page (length placed) n verdict.now → count ≡ length page → FirstFault profile (placed ++ page) n result }
{
    let found = seam(tail, verdict);
    if found.is_some() {
        return found;
    }
    if verdict.first as usize + count == n as usize {
        closing(n, leave(tail, verdict))
    } else {
        None
    }
}

/// The first fault of a module; None where it is lawful.
pub fn check_all<W: Words>(words: &W, profile: Profile) -> Option<Fault>
    requires some { 1 ≤ length (W.words words.now) }
    requires most { length (W.words words.now) ≤ most_words }
    ensures { FirstFault profile (W.words words.now) (length (W.words words.now)) result }
{
    let n = words.count() as u32;
    let inner = first_inside(Region {
        words,
        first: 0,
        n,
        profile,
        tables: ClassTables::all(),
    });
    if inner.is_some() {
        return inner;
    }
    closing(n, open_before(words, words.count(), profile))
}

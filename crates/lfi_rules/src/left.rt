//! What words leave open: found from the last of them back.

ghost use Rattle.std.specs.Prelude.{◌≡◌, ◌≤◌, nat_lt, if◌then◌else◌, length};
ghost use Rattle.lfi_rules.specs.declared.needs.Need.TheVariants.{Nothing};
ghost use Rattle.lfi_rules.specs.Needs as spec;
ghost use Rattle.lfi_rules.specs.Calm.{IsCalm};
ghost use Rattle.lfi_rules.specs.Faults.{Opens, IsOpenAt};
ghost use Rattle.lfi_rules.specs.Verdicts.{Tells};

use crate::calm::is_calm;
use crate::needs::{Need, opens, window};
use crate::straight::is_surely_calm;
use a64_word::{Words, decode};
use lfi_module::Profile;

/// What the instruction that a word spells opens, if any does, and whether it is calm.
fn spelled_kind(word: u32, profile: Profile) -> (Need, bool)
    ensures opens { Opens profile word result.0 }
    ensures calm { Tells result.1 (IsCalm profile word) }
{
    match decode(word, profile) {
        Some(instruction) => (opens(&instruction, profile), is_calm(&instruction, profile)),
        None => (Need::Nothing, false),
    }
}

/// What a word opens, and whether it is calm.
#[inline(always)]
fn kind_of(word: u32, profile: Profile) -> (Need, bool)
    ensures opens { Opens profile word result.0 }
    ensures calm { Tells result.1 (IsCalm profile word) }
{
    if is_surely_calm(word) {
        (Need::Nothing, true)
    } else {
        spelled_kind(word, profile)
    }
}

/// What is left of a need after `gone` words that went by: nothing, where it had no more.
fn rest_of(need: Need, gone: u8) -> Need
    ensures { result ≡ (if nat_lt gone (spec.term_of need) then spec.rest_of need gone else Nothing) }
{
    match need {
        Need::Probe(count) => {
            if gone < count {
                Need::Probe(count - gone)
            } else {
                Need::Nothing
            }
        }
        Need::Nothing => Need::Nothing,
        _ => { if gone < 1 { need } else { Need::Nothing } }
    }
}

/// What is open at a place.
pub fn open_before<W: Words>(words: &W, place: usize, profile: Profile) -> Need
    requires { place ≤ length (W.words words.now) }
    ensures { IsOpenAt profile (W.words words.now) place result }
{
    for gone in 0..window(profile) {
        if usize::from(gone) >= place {
            return Need::Nothing;
        }
        let (opened, calm) = kind_of(words.word(place - 1 - usize::from(gone)), profile);
        if !calm {
            return rest_of(opened, gone);
        }
    }
    Need::Nothing
}

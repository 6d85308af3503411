//! The rule of needs by its letter, place by place: slow, and without anything that is carried from word to word.

use crate::plain::{is_calm_word, rule_of};
use a64_word::decode;
use lfi_module::Profile;
use lfi_rules::{Fault, Need, Rule, meets, opens};

/// Among how many words after a move of sp the probe has to come.
fn late(profile: Profile) -> usize {
    match profile {
        Profile::One => 1,
        Profile::Two => 4,
    }
}

/// What the word at a place opens; Nothing, where there is none.
fn opened_at(words: &[u32], place: usize, profile: Profile) -> Need {
    match words.get(place) {
        Some(word) => match decode(*word, profile) {
            Some(instruction) => opens(&instruction, profile),
            None => Need::Nothing,
        },
        None => Need::Nothing,
    }
}

/// Whether the word at a place moves sp by an immediate.
fn moves_stack(words: &[u32], place: usize) -> bool {
    match words.get(place) {
        Some(word) => word & 0xBFC003FF == 0x910003FF,
        None => false,
    }
}

/// Whether a word is an instruction that meets a need.
fn is_met(word: u32, need: Need, profile: Profile) -> bool {
    match decode(word, profile) {
        Some(instruction) => meets(&instruction, need),
        None => need == Need::Nothing,
    }
}

/// Whether the words from one place on, up to another, may stand between a move of sp and its probe.
fn are_calm(words: &[u32], start: usize, stop: usize, profile: Profile) -> bool {
    for place in start..stop {
        if let Some(word) = words.get(place) {
            if !is_calm_word(*word, profile) {
                return false;
            }
        }
    }
    true
}

/// Whether the word at a place isn't the probe that a word before it asks for, and isn't calm or comes too late.
fn misses_probe(words: &[u32], place: usize, word: u32, profile: Profile) -> bool {
    for back in 1..late(profile).saturating_add(1) {
        if back <= place {
            let start = place.saturating_sub(back);
            let between = start.saturating_add(1);
            let asked = moves_stack(words, start) && are_calm(words, between, place, profile);
            let probes = is_met(word, Need::Probe(1), profile);
            let waits = is_calm_word(word, profile) && back < late(profile);
            if asked && !probes && !waits {
                return true;
            }
        }
    }
    false
}

/// Whether a probe is asked for that would come after the word at the last place.
fn leaves_probe(words: &[u32], place: usize, profile: Profile) -> bool {
    for back in 0..late(profile) {
        if back <= place {
            let start = place.saturating_sub(back);
            let (after, end) = (start.saturating_add(1), place.saturating_add(1));
            if moves_stack(words, start) && are_calm(words, after, end, profile) {
                return true;
            }
        }
    }
    false
}

/// Whether the word at a place breaks the rule of needs.
fn breaks_needs(words: &[u32], place: usize, word: u32, profile: Profile) -> bool {
    let before = match place {
        0 => Need::Nothing,
        _ => opened_at(words, place.saturating_sub(1), profile),
    };
    let missed = match before {
        Need::Call | Need::Guard => !is_met(word, before, profile),
        _ => misses_probe(words, place, word, profile),
    };
    if missed || place.saturating_add(1) < words.len() {
        return missed;
    }
    opened_at(words, place, profile) != Need::Nothing || leaves_probe(words, place, profile)
}

/// The first fault of a module by the letter of the rules.
pub fn fault_by_letter(words: &[u32], profile: Profile) -> Option<Fault> {
    let n = words.len().min(4_194_304) as u32;
    for place in 0..words.len() {
        let word = words[place];
        let here = place.min(4_194_304) as u32;
        let (rule, _) = rule_of(word, Need::Nothing, here, n, profile);
        if let Some(rule) = rule {
            return Some(Fault { word: here, rule });
        }
        if breaks_needs(words, place, word, profile) {
            return Some(Fault {
                word: here,
                rule: Rule::NeedMet,
            });
        }
    }
    None
}

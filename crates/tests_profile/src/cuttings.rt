//! Small modules at random, cut into pages in every way.

use crate::letter::fault_by_letter;
use crate::pages::{fault_with, verdict_of};
use crate::plain::fault_word_by_word;
use crate::random::Draws;
use crate::row::Row;
use crate::words::{PROFILES, fault_of};
use lfi_module::Profile;
use lfi_rules::{Fault, Need, PageVerdict, broken_at, leave};
use std::test::Fail;

/// How many words a module has, at most.
const MOST: u32 = 13;

/// Words that matter to a move of sp and its probe, NOP and the moves more often than the others.
const ALPHABET: [u32; 32] = [
    0xD10043FF, // SUB SP, SP, #16
    0xD10043FF, 0xD13FFFFF, // SUB SP, SP, #4095
    0x910043FF, // ADD SP, SP, #16
    0xF90003E0, // STR X0, [SP]
    0xF90003E0, 0xF94003E1, // LDR X1, [SP]
    0xA90007E0, // STP X0, X1, [SP]
    0xF94003FE, // LDR X30, [SP], which opens Guard
    0xD503201F, // NOP
    0xD503201F, 0xD503201F, 0xD503201F, 0xAA0103E0, // MOV X0, X1
    0xEB01001F, // CMP X0, X1
    0xF9400240, // LDR X0, [X18]
    0xF90007E0, // STR X0, [SP, #8]
    0xF80003E0, // STUR X0, [SP]
    0xF81F0FE0, // STR X0, [SP, #-16]!
    0xC8DFFE40, // LDAR X0, [X18]
    0xC8DFFFE0, // LDAR X0, [SP]
    0xF94006BE, // LDR X30, [X21, #8]
    0xD63F03C0, // BLR X30
    0xF9400A5E, // LDR X30, [X18, #16]
    0x8B3E42BE, // ADD X30, X21, W30, UXTW
    0x8B2042BF, // ADD SP, X21, W0, UXTW
    0x8B3662BF, // ADD SP, X21, X22, UXTX
    0x14000001, // B to the next word
    0xB4000020, // CBZ X0, to the next word
    0xD4200000, // BRK #0
    0xAA0003F5, // MOV X21, X0, which breaks a rule
    0xD4000001, // SVC #0, which nothing spells
];

/// A module at random.
fn module_of(rt: &HostRuntime, draws: &mut Draws) -> Result<Vec<u32>, Fail> {
    let count = draws.below(MOST);
    let mut words = Vec::with_capacity(rt.alloc(), 13)?;
    for _i in 0..count.saturating_add(1) {
        words.push(ALPHABET[draws.below(32) as usize])?;
    }
    Ok(words)
}

/// Where the verdict on the words from one place on, up to another, stands among those on all pieces of a module.
fn index_of(start: usize, stop: usize) -> usize {
    start.saturating_mul(16).saturating_add(stop)
}

/// The verdicts on all pieces of a module.
fn verdicts_of(
    rt: &HostRuntime,
    words: &[u32],
    profile: Profile,
) -> Result<Vec<Option<PageVerdict>>, Fail> {
    let n = u32::try_from(words.len())?;
    let mut verdicts = Vec::with_capacity(rt.alloc(), 256)?;
    for index in 0..256usize {
        let (start, stop) = (index / 16, index % 16);
        let verdict = match words.get(start..stop) {
            Some(piece) if !piece.is_empty() => {
                Some(verdict_of(piece, u32::try_from(start)?, n, profile)?)
            }
            _ => None,
        };
        verdicts.push(verdict)?;
    }
    Ok(verdicts)
}

/// The first fault of a module that is cut after the words whose bits are set, by the verdicts on its pieces.
fn fault_by_cut(
    verdicts: &[Option<PageVerdict>],
    count: usize,
    cuts: u32,
) -> Result<Option<Fault>, Fail> {
    let n = u32::try_from(count)?;
    let (mut left, mut start, mut rest) = (Need::Nothing, 0usize, cuts);
    for place in 0..count {
        let stop = place.saturating_add(1);
        if stop == count || rest & 1 == 1 {
            let Some(Some(verdict)) = verdicts.get(index_of(start, stop)) else {
                return Err(Fail::new("there is no such piece"));
            };
            let fault = fault_with(n, left, verdict, stop.saturating_sub(start))?;
            if fault.is_some() {
                return Ok(fault);
            }
            left = leave(left, verdict);
            start = stop;
        }
        rest = rest >> 1;
    }
    Ok(None)
}

/// Whether a module has this fault in whatever way it is cut.
fn has_fault_cut(
    rt: &HostRuntime,
    words: &[u32],
    expected: Option<Fault>,
    profile: Profile,
) -> Result<bool, Fail> {
    let verdicts = verdicts_of(rt, words, profile)?;
    for cuts in 0..4096u32 {
        if words.len() < 13 && cuts >> words.len() != 0 {
            break;
        }
        if fault_by_cut(&verdicts, words.len(), cuts)? != expected {
            return Ok(false);
        }
    }
    Ok(true)
}

/// The first fault of a module, each place asked by itself.
fn fault_by_places(words: &[u32], profile: Profile) -> Option<Fault> {
    let words = Row(&words[..words.len().min(4_194_304)]);
    for place in 0..words.0.len() {
        if let Some(rule) = broken_at(&words, place, profile) {
            let word = place as u32;
            return Some(Fault { word, rule });
        }
    }
    None
}

/// Whether a module has one fault: by the letter, at once, word by word, place by place and cut in every way.
pub fn has_one_fault(rt: &HostRuntime, words: &[u32], profile: Profile) -> Result<bool, Fail> {
    let letter = fault_by_letter(words, profile);
    Ok(
        fault_of(words, profile) == letter
            && fault_word_by_word(words, profile) == letter
            && fault_by_places(words, profile) == letter
            && has_fault_cut(rt, words, letter, profile)?,
    )
}

/// The first of a number of modules at random that has several faults, and how many of them have none.
fn first_several(
    rt: &HostRuntime,
    draws: &mut Draws,
    count: u32,
    profile: Profile,
) -> Result<(Option<Vec<u32>>, u32), Fail> {
    let mut lawful = 0u32;
    for _i in 0..count {
        let words = module_of(rt, draws)?;
        if !has_one_fault(rt, &words, profile)? {
            return Ok((Some(words), lawful));
        }
        if fault_by_letter(&words, profile) == None {
            lawful = lawful.saturating_add(1);
        }
    }
    Ok((None, lawful))
}

#[test]
fn cuts_modules_in_every_way(rt: HostRuntime) -> Result<(), Fail> {
    for profile in PROFILES {
        let mut draws = Draws { state: 3 };
        let (several, lawful) = first_several(&rt, &mut draws, 20_000, profile)?;
        assert!(rt; several.is_none(), "{several:?}");
        assert!(rt; lawful > 1_000, "{lawful}");
    }
    Ok(())
}

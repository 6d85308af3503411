//! A million words at random, judged by the pass and by the rules asked one by one.

ghost use Rattle.std.specs.Prelude.{◌<◌};

use crate::pages::{fault_by_pages, verdict_of};
use crate::plain::{fault_word_by_word, rule_of};
use crate::words::{PROFILES, fault_of};
use lfi_module::Profile;
use lfi_rules::Need;
use std::test::Fail;

/// Registers, the reserved ones more often than the others.
const REGISTERS: [u32; 16] = [0, 1, 5, 17, 18, 19, 21, 21, 22, 23, 24, 29, 30, 30, 31, 31];

/// Middle parts that matter: shifts, the guard's, indexes, the ends of near branches, and two without a bit or with all.
const MIDDLES: [u32; 16] = [
    0, 1, 2, 3, 4, 15, 16, 18, 31, 63, 200, 1432, 1984, 2016, 2046, 2047,
];

/// Words that meet needs, and one that meets none.
const NEXT: [u32; 4] = [0xD63F03C0, 0x8B3E42BE, 0xF90003E0, 0xD503201F];

/// Random numbers, always the same.
#[derive(Clone, Copy)]
pub struct Draws {
    pub state: u64,
}

impl Draws {
    fn next(&mut self) -> u32 {
        self.state = self
            .state
            .wrapping_mul(6_364_136_223_846_793_005)
            .wrapping_add(1_442_695_040_888_963_407);
        (self.state >> 33) as u32
    }

    /// A number at random below another.
    pub fn below(&mut self, most: u32) -> u32
        requires { 0 < most }
        ensures { result < most }
    {
        self.next() % most
    }

    /// The top and the middle part of an ordered load or store.
    fn ordered(&mut self) -> (u32, u32) {
        (self.below(4) << 9 | 0x44 | self.below(2) << 1, 2047)
    }

    /// A word at random, of each top part equally often, but that one in 16 is an ordered load or store.
    fn word(&mut self) -> u32 {
        let (top, middle) = if self.below(16) == 0 {
            self.ordered()
        } else {
            self.any()
        };
        let rn = REGISTERS[self.below(16) as usize];
        let rd = REGISTERS[self.below(16) as usize];
        top << 21 | middle << 10 | rn << 5 | rd
    }

    /// A top and a middle part at random.
    fn any(&mut self) -> (u32, u32) {
        let top = self.below(2048);
        let middle = if self.below(4) == 0 {
            MIDDLES[self.below(16) as usize]
        } else {
            self.below(2048)
        };
        (top, middle)
    }
}

/// Places of a module of 8,192 words: near its ends, near where branches by 2,048 words reach them, and between.
const INDICES: [u32; 16] = [
    0, 1, 2, 1023, 1024, 2047, 2048, 2049, 4096, 6142, 6143, 6144, 6145, 7168, 8190, 8191,
];

/// The first of `count` words at random whose verdict, on a page of this word alone, isn't that of the rules one by one.
fn first_other(draws: &mut Draws, count: u32, profile: Profile) -> Result<Option<u32>, Fail> {
    for _i in 0..count {
        let word = draws.word();
        let place = INDICES[draws.below(16) as usize];
        let verdict = verdict_of(&[word], place, 8192, profile)?;
        let (rule, opened) = rule_of(word, Need::Nothing, place, 8192, profile);
        let same = match verdict.inner {
            Some(fault) => rule == Some(fault.rule) && fault.word == place,
            None => rule == None,
        };
        if !same || verdict.tail != opened {
            return Ok(Some(word));
        }
    }
    Ok(None)
}

/// A lawful module of n words at random, of as many draws as that takes, at most a hundred a word; the rest is NOPs.
fn lawful_module(
    rt: &HostRuntime,
    draws: &mut Draws,
    n: usize,
    profile: Profile,
) -> Result<Vec<u32>, Fail>
    requires { n < 4194304 }
{
    let mut words = Vec::with_capacity(rt.alloc(), n)?;
    let mut need = Need::Nothing;
    for _i in 0..100 * n {
        let place = words.len();
        if place >= n {
            break;
        }
        let word = match need {
            Need::Nothing => draws.word(),
            _ => NEXT[draws.below(4) as usize],
        };
        let (rule, left) = rule_of(word, need, place as u32, n as u32, profile);
        if rule == None && (left == Need::Nothing || place + 1 < n) {
            words.push(word)?;
            need = left;
        }
    }
    for _i in words.len()..n {
        words.push(NEXT[3])?;
    }
    Ok(words)
}

/// Whether a module's first fault is that of the rules one by one: whole, and cut into pages of one to nine words.
fn is_judged_alike(words: &[u32], profile: Profile) -> Result<bool, Fail> {
    let expected = fault_word_by_word(words, profile);
    if fault_of(words, profile) != expected {
        return Ok(false);
    }
    for size in 1..10usize {
        if fault_by_pages(words, size, profile)? != expected {
            return Ok(false);
        }
    }
    Ok(true)
}

#[test]
fn judges_words_at_random(rt: HostRuntime) -> Result<(), Fail> {
    for profile in PROFILES {
        let mut draws = Draws { state: 1 };
        let other = first_other(&mut draws, 300_000, profile)?;
        assert!(rt; other == None, "{other:?}");
    }
    Ok(())
}

/// Whether lawful modules at random, and the same with words at random in them, are judged alike.
fn are_judged_alike(rt: &HostRuntime, draws: &mut Draws, profile: Profile) -> Result<bool, Fail> {
    for size in [
        1usize, 7, 100, 2047, 2048, 2049, 4095, 4096, 4097, 5000, 6000,
    ] {
        let mut words = lawful_module(rt, draws, size, profile)?;
        let mut alike = is_judged_alike(&words, profile)?;
        for _i in 0..8u32 {
            let place = draws.next() as usize % size;
            let word = draws.word();
            if place < words.len() {
                words[place] = word;
            }
            alike = alike && is_judged_alike(&words, profile)?;
        }
        if !alike {
            return Ok(false);
        }
    }
    Ok(true)
}

#[test]
fn judges_modules_at_random(rt: HostRuntime) -> Result<(), Fail> {
    for profile in PROFILES {
        let mut draws = Draws { state: 2 };
        assert!(rt; are_judged_alike(&rt, &mut draws, profile)?);
    }
    Ok(())
}

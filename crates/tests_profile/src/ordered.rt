//! The ordered loads and stores under the rules of both profiles: for rule 2 they are accesses at an immediate offset of 0.
use crate::words::fault_of;
use lfi_module::Profile;
use lfi_rules::{Fault, Rule};
use std::alloc::AllocError;
use std::test::Fail;

const NOP: u32 = 0xD503201F;

/// Words, and the place and the rule of their first fault in the second profile, if they have one. In the first profile the
/// first of them that is ordered breaks rule 1.
const ROWS: [(&[u32], Option<(u32, Rule)>); 24] = [
    (&[0xC8DFFE40], None), // LDAR X0, [X18]
    (&[0xC8DFFEA0], None), // LDAR X0, [X21]
    (&[0xC8DFFEE0], None), // LDAR X0, [X23]
    (&[0xC8DFFF00], None), // LDAR X0, [X24]
    (&[0xC8DFFFE0], None), // LDAR X0, [SP]
    (&[0xC89FFFE0], None), // STLR X0, [SP]
    (&[0xC89FFF16], None), // STLR X22, [X24]
    (&[0xC8DFFE5F], None), // LDAR XZR, [X18]
    (&[0x88DFFE56], None), // LDAR W22, [X18]
    (&[0x08DFFE56], None), // LDARB W22, [X18]
    (&[0xC8DFFC20], Some((0, Rule::AccessConfined))), // LDAR X0, [X1]
    (&[0xC8DFFEC0], Some((0, Rule::AccessConfined))), // LDAR X0, [X22]
    (&[0x489FFFC0], Some((0, Rule::AccessConfined))), // STLRH W0, [X30]
    (&[0xC8DFFE55], Some((0, Rule::BaseKept))), // LDAR X21, [X18]
    (&[0x08DFFE55], Some((0, Rule::BaseKept))), // LDARB W21, [X18]
    (&[0xC8DFFE52], Some((0, Rule::AddressGuarded))), // LDAR X18, [X18]
    (&[0x88DFFE5E], Some((0, Rule::LinkGuarded))), // LDAR W30, [X18]
    (&[0xC8DFFE56], Some((0, Rule::OffsetNarrow))), // LDAR X22, [X18]
    (&[0xC8DFFEBE], Some((0, Rule::NeedMet))), // LDAR X30, [X21]
    (&[0xC8DFFEBE, 0xD63F03C0], Some((1, Rule::NeedMet))), // LDAR X30, [X21]; BLR X30
    (&[0xC8DFFEBE, 0x8B3E42BE], None), // LDAR X30, [X21]; its guard
    (&[0xD10043FF, 0xC89FFFE0], Some((1, Rule::NeedMet))), // SUB SP, SP, #16; STLR X0, [SP]
    (&[0xD10043FF, 0xC8DFFFE0], Some((1, Rule::NeedMet))), // SUB SP, SP, #16; LDAR X0, [SP]
    (&[0xD10043FF, 0xF90003E0, 0xC89FFFE0], None), // SUB SP, SP, #16; STR X0, [SP]; STLR X0, [SP]
];

/// The first fault at this place by this rule.
fn fault_by(row: Option<(u32, Rule)>) -> Option<Fault> {
    let (word, rule) = row?;
    Some(Fault { word, rule })
}

/// The words in a module of 6,000 words, far from its ends, all others NOP.
fn among(rt: &HostRuntime, words: &[u32]) -> Result<Vec<u32>, AllocError> {
    let mut all = Vec::with_capacity(rt.alloc(), 6000)?;
    for place in 0..6000usize {
        let word = words.get(place.wrapping_sub(3000)).copied();
        all.push(word.unwrap_or(NOP))?;
    }
    Ok(all)
}

#[test]
fn ordered_words_by_the_second_profile(rt: HostRuntime) {
    for (words, fault) in &ROWS {
        assert!(rt;
            fault_of(words, Profile::Two) == fault_by(*fault),
            "{words:?}"
        );
    }
}

/// The place of the first ordered load or store.
fn first_ordered(words: &[u32]) -> u32 {
    let mut place = 0u32;
    for word in words {
        if word & 0x3FBFFC00 == 0x089FFC00 {
            return place;
        }
        place = place.saturating_add(1);
    }
    place
}

#[test]
fn ordered_words_by_the_first_profile(rt: HostRuntime) {
    for (words, _) in &ROWS {
        let unspelled = Some(Fault {
            word: first_ordered(words),
            rule: Rule::Spelled,
        });
        assert!(rt; fault_of(words, Profile::One) == unspelled, "{words:?}");
    }
}

/// Where a fault far from the ends of a module is: its place among the words, 3,000 words on; but what the last word opens
/// is found at the next one.
fn far_fault(words: &[u32], fault: Option<(u32, Rule)>) -> Option<Fault> {
    let (place, rule) = fault?;
    let last = words.len() == 1 && rule == Rule::NeedMet;
    let word = if last {
        3001
    } else {
        place.saturating_add(3000)
    };
    Some(Fault { word, rule })
}

#[test]
fn ordered_words_far_from_the_ends(rt: HostRuntime) -> Result<(), Fail> {
    for (words, fault) in &ROWS {
        let all = among(&rt, words)?;
        assert!(rt;
            fault_of(&all, Profile::Two) == far_fault(words, *fault),
            "{words:?}"
        );
    }
    Ok(())
}

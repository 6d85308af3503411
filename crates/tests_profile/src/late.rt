//! A probe that comes late: rows of the second profile.

use crate::cuttings::has_one_fault;
use crate::pages::fault_by_pages;
use crate::words::{PROFILES, fault_of};
use lfi_module::Profile;
use lfi_rules::{Fault, Rule};
use std::alloc::{AllocError, Global};
use std::test::Fail;

const NOP: u32 = 0xD503201F;
/// SUB SP, SP, #16
const MOVE: u32 = 0xD10043FF;
/// STR X0, [SP]
const STORE: u32 = 0xF90003E0;

/// Words, and the place at which they break the rule of needs first in the second profile; None where they are lawful.
const ROWS: [(&[u32], Option<u32>); 33] = [
    (&[MOVE, STORE], None),
    (&[MOVE, NOP, STORE], None),
    (&[MOVE, NOP, NOP, STORE], None),
    (&[MOVE, NOP, NOP, NOP, STORE], None),
    (&[MOVE, NOP, NOP, NOP, NOP, STORE], Some(4)),
    (&[MOVE, NOP, NOP, NOP, NOP], Some(4)),
    (&[MOVE, NOP, 0xF90007E0], Some(2)), // STR X0, [SP, #8]
    (&[MOVE, 0xF90007E0, STORE], Some(1)),
    (&[MOVE, NOP, NOP, NOP, 0xF90007E0], Some(4)),
    (&[MOVE, MOVE, STORE], Some(1)),
    (&[MOVE, 0x14000001, STORE], Some(1)), // B
    (&[MOVE, 0xB4000020, STORE], Some(1)), // CBZ X0
    (&[MOVE, 0x54000020, STORE], Some(1)), // B.EQ
    (&[MOVE, 0x36000020, STORE], Some(1)), // TBZ W0, #0
    (&[MOVE, 0xD65F03C0, STORE], Some(1)), // RET X30
    (&[MOVE, 0xD63F0240, STORE], Some(1)), // BLR X18
    (&[MOVE, 0xD4200000, STORE], Some(1)), // BRK #0
    (&[MOVE, 0xF94006BE, STORE], Some(1)), // LDR X30, [X21, #8]
    (&[MOVE, 0xF9400A5E, 0x8B3E42BE, STORE], Some(1)), // LDR X30, [X18, #16]
    (&[MOVE, 0x8B2042BF, STORE], Some(1)), // ADD SP, X21, W0, UXTW
    (&[MOVE, 0xF81F0FE0, STORE], Some(1)), // STR X0, [SP, #-16]!
    (&[MOVE, 0xF80003E0, STORE], Some(1)), // STUR X0, [SP]
    (&[MOVE, 0xC8DFFFE0, STORE], Some(1)), // LDAR X0, [SP]
    (&[MOVE, 0xC8DFFE40, STORE], None), // LDAR X0, [X18]
    (&[MOVE, 0xF9400240, STORE], None), // LDR X0, [X18]
    (&[MOVE, 0xF8614AA0, STORE], None), // LDR X0, [X21, W1, UXTW]
    (&[MOVE, 0x910003FD, STORE], None), // MOV X29, SP
    (&[MOVE, 0x8B3E42BE, STORE], None), // ADD X30, X21, W30, UXTW
    (&[MOVE, NOP, 0xF94003FE, 0x8B3E42BE], None), // LDR X30, [SP]
    (&[MOVE, NOP, 0xF94003FE, NOP], Some(3)),
    (&[MOVE, NOP], Some(1)),
    (&[MOVE, NOP, NOP, NOP], Some(3)),
    (&[MOVE], Some(0)),
];

/// The fault at a place of a need that isn't met.
fn unmet_at(place: Option<u32>) -> Option<Fault> {
    Some(Fault {
        word: place?,
        rule: Rule::NeedMet,
    })
}

#[test]
fn probes_by_the_second_profile(rt: HostRuntime) -> Result<(), Fail> {
    for (words, place) in &ROWS {
        let found = fault_of(words, Profile::Two);
        assert!(rt;
            found == unmet_at(*place) && has_one_fault(&rt, words, Profile::Two)?,
            "{words:?}"
        );
    }
    Ok(())
}

/// In the first profile the word after the move is the probe, or at fault.
#[test]
fn probes_by_the_first_profile(rt: HostRuntime) {
    for (words, _) in &ROWS[1..31] {
        assert!(rt;
            matches!(fault_of(words, Profile::One), Some(Fault { word: 1, .. })),
            "{words:?}"
        );
    }
}

/// A word between breaks its own rule first; the need stays for those after it.
#[test]
fn words_between_keep_their_rules(rt: HostRuntime) {
    let wrong = 0xAA0003F5; // MOV X21, X0
    for profile in PROFILES {
        let fault = fault_of(&[STORE, MOVE, wrong, NOP, NOP, NOP], profile);
        let expected = Some(Fault {
            word: 2,
            rule: Rule::BaseKept,
        });
        assert!(rt; fault == expected);
    }
}

/// NOPs, but for a move at one place and a store at another.
fn apart(alloc: Global, count: usize, moved: usize, stored: usize) -> Result<Vec<u32>, AllocError> {
    let mut words = Vec::with_capacity(alloc, count)?;
    for place in 0..count {
        words.push(if place == moved {
            MOVE
        } else if place == stored {
            STORE
        } else {
            NOP
        })?;
    }
    Ok(words)
}

/// How many words, the places of a move and of a store, and where the second profile finds the fault: a probe in the next
/// page, among four words or too late, and far from the ends of a module.
const APART: [(usize, u32, usize, Option<u32>); 8] = [
    (1026, 1022, 1025, None),
    (1026, 1022, 1026, Some(1025)),
    (1026, 1021, 1025, None),
    (1027, 1021, 1026, Some(1025)),
    (1024, 1022, 1024, Some(1023)),
    (6000, 3070, 3074, None),
    (6000, 3070, 3075, Some(3074)),
    (6000, 3071, 3073, None),
];

/// A module's fault by the second profile, at once and by pages of 1,024 words and of one, and that by the first.
fn faults_of(words: &[u32]) -> Result<[Option<Fault>; 4], Fail> {
    Ok([
        fault_of(words, Profile::Two),
        fault_by_pages(words, 1024, Profile::Two)?,
        fault_by_pages(words, 1, Profile::Two)?,
        fault_of(words, Profile::One),
    ])
}

#[test]
fn probes_across_a_seam(rt: HostRuntime) -> Result<(), Fail> {
    for (count, moved, stored, place) in APART {
        let words = apart(rt.alloc(), count, moved as usize, stored)?;
        let late = unmet_at(place);
        let first = unmet_at(Some(moved.saturating_add(1)));
        assert!(rt;
            faults_of(&words)? == [late, late, late, first],
            "{moved} {stored}"
        );
    }
    Ok(())
}

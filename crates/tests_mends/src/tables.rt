//! The tables beside `mend_of`, and the mends beside the rules.
use crate::reasons::{ORDERED_REASONS, REASONS};
use crate::rows::{OTHERS, OUTSIDE, PAIRS, Row, SINGLES};
use crate::writes::WRITES;
use a64_encode::encode;
use a64_word::{Instruction, Words, decode};
use lfi_mends::{Mend, Reason, mend_of};
use lfi_module::Profile;
use lfi_rules::{Need, Rule, check_all};
use std::test::Fail;

/// Words that are lent.
#[derive(Clone, Copy)]
pub struct Lent<'a>(pub &'a [u32]);

impl Words for Lent<'_> {
    ghost words = { λ row. row.0.now };

    fn count(&self) -> usize {
        self.0.len()
    }

    fn word(&self, i: usize) -> u32 {
        self.0[i]
    }
}

/// Whether the words of instructions are these.
fn spells(instructions: &[Instruction], words: &[u32], profile: Profile) -> bool {
    if instructions.len() != words.len() {
        return false;
    }
    for (instruction, word) in instructions.iter().zip(words) {
        if encode(instruction, profile) != Some(*word) {
            return false;
        }
    }
    true
}

/// What the row's word gets.
pub fn answer(row: &Row) -> Result<Mend, Reason> {
    let next = decode(row.next, row.profile);
    mend_of(row.profile, row.rule, row.word, row.unmet, &next)
}

/// Whether the mend of a row is that of the table.
fn is_as_told(row: &Row) -> bool {
    match answer(row) {
        Ok(mend) => spells(mend.instructions(), row.mend, row.profile),
        Err(_) => false,
    }
}

/// Whether a row's mend is a lawful module by itself, where it has a word and no need is open before it.
fn is_lawful(row: &Row) -> bool {
    let words = row.mend;
    if words.is_empty() || words.len() > 8 || row.unmet != Need::Nothing {
        return true;
    }
    check_all(&Lent(words), row.profile).is_none()
}

/// The first word of a table whose mend is another, or isn't lawful.
pub fn first_wrong(rows: &[Row]) -> Option<u32> {
    for row in rows {
        if !is_as_told(row) || !is_lawful(row) {
            return Some(row.word);
        }
    }
    None
}

#[test]
fn mends_singles(rt: HostRuntime) -> Result<(), Fail> {
    assert!(rt; first_wrong(&SINGLES) == None);
    Ok(())
}

#[test]
fn mends_pairs(rt: HostRuntime) -> Result<(), Fail> {
    assert!(rt; first_wrong(&PAIRS) == None);
    Ok(())
}

#[test]
fn mends_writes(rt: HostRuntime) -> Result<(), Fail> {
    assert!(rt; first_wrong(&WRITES) == None);
    Ok(())
}

#[test]
fn mends_branches_and_needs(rt: HostRuntime) -> Result<(), Fail> {
    assert!(rt; first_wrong(&OTHERS) == None);
    Ok(())
}

#[test]
fn mends_what_the_profile_leaves_out(rt: HostRuntime) -> Result<(), Fail> {
    assert!(rt; first_wrong(&OUTSIDE) == None);
    Ok(())
}

/// br, blr and ret through x0; the guard of x18 or x30 by w0; and the branch through that register.
const BRANCHES: [(u32, u32, u32); 3] = [
    (0xD61F0000, 0x8B2042B2, 0xD61F0240), // add x18, x21, w0, uxtw; br x18
    (0xD63F0000, 0x8B2042B2, 0xD63F0240), // add x18, x21, w0, uxtw; blr x18
    (0xD65F0000, 0x8B2042BE, 0xD65F03C0), // add x30, x21, w0, uxtw; ret
];

/// ldr xzr, [sp]
const PROBE: u32 = 0xF94003FF;
/// add x30, x21, w30, uxtw
const RETURN_GUARD: u32 = 0x8B3E42BE;

/// Whether a branch through a register gets these words, behind a need.
fn is_branch_mended(word: u32, unmet: Need, mended: &[u32]) -> bool {
    let rule = Rule::BranchBounded;
    match mend_of(Profile::One, rule, word, unmet, &None) {
        Ok(mend) => spells(mend.instructions(), mended, Profile::One),
        Err(_) => false,
    }
}

#[test]
fn mends_branches_through_each_register(rt: HostRuntime) -> Result<(), Fail> {
    for register in 0..32u32 {
        for (word, guard, branch) in BRANCHES {
            let through = word | register << 5;
            let by = guard | register << 16;
            assert!(rt;
                is_branch_mended(through, Need::Nothing, &[by, branch]),
                "{through:x}"
            );
            assert!(rt;
                is_branch_mended(through, Need::Guard, &[RETURN_GUARD, by, branch]),
                "{through:x}"
            );
            assert!(rt;
                is_branch_mended(through, Need::Probe(1), &[PROBE, by, branch]),
                "{through:x}"
            );
        }
    }
    Ok(())
}

/// What reverses bits, and what follows it, which doesn't count the zeros of that result in its register.
const NO_COUNTS: [(u32, u32); 5] = [
    (0xDAC00000, 0x5AC01000), // rbit x0, x0; clz w0, w0
    (0x5AC00000, 0xDAC01000), // rbit w0, w0; clz x0, x0
    (0xDAC00001, 0xDAC01000), // rbit x1, x0; clz x0, x0
    (0xDAC00000, 0xDAC01001), // rbit x0, x0; clz x1, x0
    (0xDAC00000, 0xDAC01400), // rbit x0, x0; cls x0, x0
];

/// Whether there is no mend of a word that this one follows, since it reverses bits.
fn is_only_bits(word: u32, next: u32) -> bool {
    let following = decode(next, Profile::One);
    match mend_of(Profile::One, Rule::Spelled, word, Need::Nothing, &following) {
        Ok(_) => false,
        Err(told) => told == Reason::Bits,
    }
}

#[test]
fn mends_reversed_bits_only_where_they_are_counted(rt: HostRuntime) -> Result<(), Fail> {
    for (word, next) in NO_COUNTS {
        assert!(rt; is_only_bits(word, next), "{word:x} {next:x}");
    }
    Ok(())
}

/// Whether a word has this reason.
fn has_reason(profile: Profile, rule: Rule, word: u32, reason: Reason) -> bool {
    match mend_of(profile, rule, word, Need::Nothing, &None) {
        Ok(_) => false,
        Err(told) => told == reason,
    }
}

#[test]
fn tells_why_there_is_none(rt: HostRuntime) -> Result<(), Fail> {
    for (rule, word, reason) in REASONS {
        assert!(rt; has_reason(Profile::One, rule, word, reason), "{word:x}");
    }
    for (rule, word, reason) in ORDERED_REASONS {
        assert!(rt; has_reason(Profile::Two, rule, word, reason), "{word:x}");
    }
    Ok(())
}

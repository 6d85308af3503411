//! What an instruction asks of the next one: docs/PROFILE.md.

ghost use Rattle.std.specs.Prelude.{◌≡◌, nat_lt};
ghost use Rattle.lfi_rules.specs.Needs as spec;

use crate::guard::guards_link;
use crate::map::ENTRY_COUNT;
use crate::registers::{BASE, LINK, STACK};
use a64_effects::ordered_transfer;
use a64_word::{BranchKind, Instruction, PairMode, Size, Transfer, Width};
use lfi_module::Profile;

/// What an instruction asks of the words after it.
#[derive(Clone, Copy, PartialEq, Eq)]
pub enum Need {
    /// No condition.
    Nothing,
    /// The call through x30, after a load of a table entry into it.
    Call,
    /// The guard of x30 by itself, after any other load of 64 bits into it.
    Guard,
    /// An access at sp, after sp was moved by an immediate, among as many words as this number says; those before it are calm.
    Probe(u8),
}

/// Among how many words after an instruction that moves sp the probe has to come.
pub fn window(profile: Profile) -> u8
    ensures { result ≡ spec.window profile }
{
    match profile {
        Profile::One => 1,
        Profile::Two => 4,
    }
}

/// Whether a single access loads 64 bits.
pub fn is_load_64(size: Size, transfer: Transfer) -> bool
    ensures { result ≡ spec.is_load_64 size transfer }
{
    size == Size::Double && transfer == Transfer::Load
}

/// Whether an instruction loads 64 bits into x30.
pub fn loads_link(instruction: &Instruction) -> bool
    ensures { result ≡ spec.loads_link instruction.now }
{
    match instruction {
        Instruction::UnsignedOffset(i) => is_load_64(i.size, i.transfer) && i.rt.number() == LINK,
        Instruction::SignedOffset(i) => is_load_64(i.size, i.transfer) && i.rt.number() == LINK,
        Instruction::RegisterOffset(i) => is_load_64(i.size, i.transfer) && i.rt.number() == LINK,
        Instruction::Ordered(i) => {
            is_load_64(i.size, ordered_transfer(i.load)) && i.rt.number() == LINK
        }
        Instruction::Pair(i) => i.load
            && i.width == Width::X
            && (i.rt.number() == LINK || i.rt2.number() == LINK),
        _ => false,
    }
}

/// Whether an instruction loads a table entry into x30.
fn loads_entry(instruction: &Instruction) -> bool
    ensures { result ≡ spec.loads_entry instruction.now }
{
    match instruction {
        Instruction::UnsignedOffset(i) => {
            is_load_64(i.size, i.transfer)
                && i.rt.number() == LINK
                && i.rn.number() == BASE
                && u64::from(i.imm12) < ENTRY_COUNT
        }
        _ => false,
    }
}

/// Whether an instruction adds an unshifted immediate to sp, or subtracts it, as a 64-bit number and without flags.
pub fn moves_stack(instruction: &Instruction) -> bool
    ensures { result ≡ spec.moves_stack instruction.now }
{
    match instruction {
        Instruction::AddSubImmediate(i) => {
            i.width == Width::X
                && !i.set_flags
                && !i.shifted
                && i.rd.number() == STACK
                && i.rn.number() == STACK
        }
        _ => false,
    }
}

/// The need that an instruction opens, for the words after it to meet.
pub fn opens(instruction: &Instruction, profile: Profile) -> Need
    ensures { result ≡ spec.opens_of profile instruction.now }
{
    if loads_entry(instruction) {
        Need::Call
    } else if loads_link(instruction) {
        Need::Guard
    } else if moves_stack(instruction) {
        Need::Probe(window(profile))
    } else {
        Need::Nothing
    }
}

/// Whether an instruction is the call through x30.
fn calls_link(instruction: &Instruction) -> bool
    ensures { result ≡ spec.calls_link instruction.now }
{
    match instruction {
        Instruction::BranchRegister(i) => i.kind == BranchKind::Blr && i.rn.number() == LINK,
        _ => false,
    }
}

/// Whether an instruction accesses memory at sp and offset 0.
fn probes_stack(instruction: &Instruction) -> bool
    ensures { result ≡ spec.probes_stack instruction.now }
{
    match instruction {
        Instruction::UnsignedOffset(i) => i.rn.number() == STACK && i.imm12 == 0,
        Instruction::Pair(i) => i.mode == PairMode::Offset && i.rn.number() == STACK && i.imm7 == 0,
        _ => false,
    }
}

/// Whether an instruction meets a need.
pub fn meets(instruction: &Instruction, need: Need) -> bool
    ensures { result ≡ spec.meets_of instruction.now need }
{
    match need {
        Need::Nothing => true,
        Need::Call => calls_link(instruction),
        Need::Guard => guards_link(instruction),
        Need::Probe(_) => probes_stack(instruction),
    }
}

/// What is left of a need after a word that may go by: nothing, where that was the last that might.
pub fn waits(need: Need) -> Need
    ensures { result ≡ spec.waits need }
{
    match need {
        Need::Probe(count) => {
            if count > 1 {
                Need::Probe(count - 1)
            } else {
                Need::Nothing
            }
        }
        _ => Need::Nothing,
    }
}

/// Whether a word may go by before a need is met.
pub fn may_wait(need: Need) -> bool
    ensures { result ≡ nat_lt 1 (spec.term_of need) }
{
    match need {
        Need::Probe(count) => count > 1,
        _ => false,
    }
}

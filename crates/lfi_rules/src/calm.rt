//! The words that may stand between an instruction that moves sp and its probe: docs/PROFILE.md, "Needs".

ghost use Rattle.std.specs.Prelude.{◌≡◌};
ghost use Rattle.lfi_rules.specs.Registers.{stack};
ghost use Rattle.lfi_rules.specs.Rules as rules;
ghost use Rattle.lfi_rules.specs.Calm as spec;
ghost use Rattle.lfi_rules.specs.Calm.{IsCalm};
ghost use Rattle.lfi_rules.specs.Verdicts.{Tells};

use crate::needs::{Need, opens};
use crate::registers::STACK;
use crate::straight::is_surely_calm;
use a64_effects::{Address, address_of, writes};
use a64_word::{Instruction, decode};
use lfi_module::Profile;

/// Whether an instruction is a branch of any kind.
fn branches(instruction: &Instruction) -> bool
    ensures { result ≡ spec.branches instruction.now }
{
    match instruction {
        Instruction::Branch(_)
        | Instruction::ConditionalBranch(_)
        | Instruction::CompareBranch(_)
        | Instruction::TestBranch(_)
        | Instruction::BranchRegister(_) => true,
        _ => false,
    }
}

/// Whether an instruction is BRK.
fn is_breakpoint(instruction: &Instruction) -> bool
    ensures { result ≡ spec.is_breakpoint instruction.now }
{
    match instruction {
        Instruction::Breakpoint(_) => true,
        _ => false,
    }
}

/// Whether an access has base sp.
fn is_at_stack(address: &Option<Address>) -> bool
    ensures { result ≡ spec.is_at_stack address.now }
{
    match address {
        Some(address) => address.base.number() == STACK,
        None => false,
    }
}

/// Whether an instruction writes sp.
#[tactic(auto, unfolding(crate::specs::Rules::written))]
fn writes_stack(instruction: &Instruction) -> bool
    ensures { result ≡ rules.writes instruction.now stack }
{
    writes(instruction).sp().is_some()
}

/// Whether an instruction is calm: it is no branch and no BRK, doesn't write sp, accesses nothing with base sp, and opens
/// nothing.
pub fn is_calm(instruction: &Instruction, profile: Profile) -> bool
    ensures { result ≡ spec.is_calm profile instruction.now }
{
    !branches(instruction)
        && !is_breakpoint(instruction)
        && !writes_stack(instruction)
        && !is_at_stack(&address_of(instruction))
        && opens(instruction, profile) == Need::Nothing
}

/// Whether the instruction that a word spells, if any does, is calm.
fn spells_calm(word: u32, profile: Profile) -> bool
    ensures { Tells result (IsCalm profile word) }
{
    match decode(word, profile) {
        Some(instruction) => is_calm(&instruction, profile),
        None => false,
    }
}

/// Whether a word is calm.
#[inline(always)]
pub fn is_calm_word(word: u32, profile: Profile) -> bool
    ensures { Tells result (IsCalm profile word) }
{
    is_surely_calm(word) || spells_calm(word, profile)
}

ghost use Rattle.std.specs.Prelude.{◌≡◌, None, true, false};
ghost use Rattle.a64_word.specs.Encoding.{IsLegal};
ghost use Rattle.a64_effects.specs.Effects.{address_of};
ghost use Rattle.a64_semantics.specs.Branches.{is_branch};
ghost use Rattle.a64_semantics.specs.Performs.{Performs};

use crate::branches::{branch, branch_register, compare_branch, conditional_branch, test_branch};
use crate::immediates::{add_sub_immediate, bitfield, logical_immediate, move_wide, pc_relative};
use crate::register_forms::{
    add_sub_extended, add_sub_shifted, conditional_compare, conditional_select,
    count_leading_zeros, logical_shifted, multiply_add, multiply_high, two_source,
};
use crate::registers::Registers;
use crate::results::mask_of;
use crate::writing::go_on;
use a64_word::Instruction;

/// Whether an instruction may go on elsewhere than with the next word.
#[inline(always)]
pub fn is_branch(i: &Instruction) -> bool
    ensures { result ≡ is_branch i.now }
{
    // Asked one by one, these tests become one jump with those of a match that follows; a match of its own would not.
    if let Instruction::Branch(_) = i {
        return true;
    }
    if let Instruction::ConditionalBranch(_) = i {
        return true;
    }
    if let Instruction::CompareBranch(_) = i {
        return true;
    }
    if let Instruction::TestBranch(_) = i {
        return true;
    }
    if let Instruction::BranchRegister(_) = i {
        return true;
    }
    false
}

/// Carries out a branch.
#[inline(always)]
pub fn perform_branch(registers: &mut Registers, i: &Instruction)
    requires { is_branch i.now ≡ true }
    ensures { Performs i.now registers.old registers.new }
{
    match i {
        Instruction::Branch(i) => branch(registers, i),
        Instruction::ConditionalBranch(i) => conditional_branch(registers, i),
        Instruction::CompareBranch(i) => compare_branch(registers, i),
        Instruction::TestBranch(i) => test_branch(registers, i),
        Instruction::BranchRegister(i) => branch_register(registers, i),
        Instruction::AddSubImmediate(_)
        | Instruction::LogicalImmediate(_)
        | Instruction::MoveWide(_)
        | Instruction::PcRelative(_)
        | Instruction::Bitfield(_)
        | Instruction::LogicalShifted(_)
        | Instruction::AddSubShifted(_)
        | Instruction::AddSubExtended(_)
        | Instruction::ConditionalCompare(_)
        | Instruction::ConditionalSelect(_)
        | Instruction::TwoSource(_)
        | Instruction::CountLeadingZeros(_)
        | Instruction::MultiplyAdd(_)
        | Instruction::MultiplyHigh(_)
        | Instruction::Nop
        | Instruction::Breakpoint(_)
        | Instruction::UnsignedOffset(_)
        | Instruction::SignedOffset(_)
        | Instruction::RegisterOffset(_)
        | Instruction::Pair(_)
        | Instruction::Ordered(_) => unreachable!(),
    }
}

/// Carries out an instruction that is no branch and accesses no memory. BRK does as NOP does here: that it stops is for
/// the machine to say. The mask of a logical immediate is made anew at each call; `logical_immediate` takes one that is
/// known.
#[inline(always)]
pub fn perform_straight(registers: &mut Registers, i: &Instruction)
    requires legal { IsLegal i.now }
    requires no_access { address_of i.now ≡ None }
    requires no_branch { is_branch i.now ≡ false }
    ensures { Performs i.now registers.old registers.new }
{
    match i {
        Instruction::AddSubImmediate(i) => add_sub_immediate(registers, i),
        Instruction::LogicalImmediate(i) => logical_immediate(registers, i, mask_of(i)),
        Instruction::MoveWide(i) => move_wide(registers, i),
        Instruction::PcRelative(i) => pc_relative(registers, i),
        Instruction::Bitfield(i) => bitfield(registers, i),
        Instruction::LogicalShifted(i) => logical_shifted(registers, i),
        Instruction::AddSubShifted(i) => add_sub_shifted(registers, i),
        Instruction::AddSubExtended(i) => add_sub_extended(registers, i),
        Instruction::ConditionalCompare(i) => conditional_compare(registers, i),
        Instruction::ConditionalSelect(i) => conditional_select(registers, i),
        Instruction::TwoSource(i) => two_source(registers, i),
        Instruction::CountLeadingZeros(i) => count_leading_zeros(registers, i),
        Instruction::MultiplyAdd(i) => multiply_add(registers, i),
        Instruction::MultiplyHigh(i) => multiply_high(registers, i),
        Instruction::Nop | Instruction::Breakpoint(_) => go_on(registers, None),
        Instruction::Branch(_)
        | Instruction::ConditionalBranch(_)
        | Instruction::CompareBranch(_)
        | Instruction::TestBranch(_)
        | Instruction::BranchRegister(_)
        | Instruction::UnsignedOffset(_)
        | Instruction::SignedOffset(_)
        | Instruction::RegisterOffset(_)
        | Instruction::Pair(_)
        | Instruction::Ordered(_) => unreachable!(),
    }
}

/// Carries out an instruction that accesses no memory: `perform_branch` and `perform_straight`.
#[inline(always)]
pub fn perform(registers: &mut Registers, i: &Instruction)
    requires legal { IsLegal i.now }
    requires no_access { address_of i.now ≡ None }
    ensures { Performs i.now registers.old registers.new }
{
    if is_branch(i) {
        perform_branch(registers, i);
    } else {
        perform_straight(registers, i);
    }
}

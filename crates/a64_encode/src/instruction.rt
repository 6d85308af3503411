ghost use Rattle.a64_encode.specs.Encoding.{EncodesIn};
ghost use Rattle.a64_encode.specs.inner.Encoding.{Encodes};

use crate::branch::{
    branch, branch_register, breakpoint, compare_branch, conditional_branch, test_branch,
};
use crate::data_immediate::{
    add_sub_immediate, bitfield, logical_immediate, move_wide, pc_relative,
};
use crate::data_register::{
    add_sub_extended, add_sub_shifted, conditional_compare, conditional_select,
    count_leading_zeros, logical_shifted, multiply_add, multiply_high, two_source,
};
use crate::load_store::{ordered, pair, register_offset, signed_offset, unsigned_offset};
use a64_word::{Instruction, is_of};
use lfi_module::Profile;

/// The word of an instruction of a profile, where each of its fields is in its range.
pub fn encode(instruction: &Instruction, profile: Profile) -> Option<u32>
    ensures { EncodesIn profile instruction.now result }
{
    if !is_of(profile, instruction) {
        return None;
    }
    word_in_any(instruction)
}

/// The word of an instruction, where each of its fields is in its range.
fn word_in_any(instruction: &Instruction) -> Option<u32>
    ensures { Encodes instruction.now result }
{
    match instruction {
        Instruction::AddSubImmediate(i) => add_sub_immediate(i),
        Instruction::LogicalImmediate(i) => logical_immediate(i),
        Instruction::MoveWide(i) => move_wide(i),
        Instruction::PcRelative(i) => pc_relative(i),
        Instruction::Bitfield(i) => bitfield(i),
        Instruction::LogicalShifted(i) => logical_shifted(i),
        Instruction::AddSubShifted(i) => add_sub_shifted(i),
        Instruction::AddSubExtended(i) => add_sub_extended(i),
        Instruction::ConditionalCompare(i) => conditional_compare(i),
        Instruction::ConditionalSelect(i) => conditional_select(i),
        Instruction::TwoSource(i) => two_source(i),
        Instruction::CountLeadingZeros(i) => count_leading_zeros(i),
        Instruction::MultiplyAdd(i) => multiply_add(i),
        Instruction::MultiplyHigh(i) => multiply_high(i),
        Instruction::Branch(i) => branch(i),
        Instruction::ConditionalBranch(i) => conditional_branch(i),
        Instruction::CompareBranch(i) => compare_branch(i),
        Instruction::TestBranch(i) => test_branch(i),
        Instruction::BranchRegister(i) => branch_register(i),
        Instruction::Breakpoint(i) => breakpoint(i),
        Instruction::UnsignedOffset(i) => unsigned_offset(i),
        Instruction::SignedOffset(i) => signed_offset(i),
        Instruction::RegisterOffset(i) => register_offset(i),
        Instruction::Pair(i) => pair(i),
        Instruction::Ordered(i) => ordered(i),
        Instruction::Nop => Some(0xD503201F),
    }
}

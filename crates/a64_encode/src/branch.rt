ghost use Rattle.std.specs.Prelude.{◌≡◌};
ghost use Rattle.a64_word.specs.declared.instruction.Instruction.{Instruction};
ghost use Rattle.a64_word.specs.Encoding.{fields, IsLegal};
ghost use Rattle.a64_encode.specs.inner.Encoding.{Encodes};

use crate::fields::{field, twos_complement, word_of};
use crate::operands::branch_code;
use a64_word::{
    Branch, BranchRegister, Breakpoint, CompareBranch, ConditionalBranch, Field, TestBranch,
};

fn branch_fields(i: &Branch) -> [Field; 3]
    requires { IsLegal (Instruction.Branch i.now) }
    ensures { result ≡ fields (Instruction.Branch i.now) }
{
    [
        field(1, u32::from(i.link)),
        field(5, 0b00101),
        field(26, twos_complement(i.offset, 26)),
    ]
}

/// The word of an instruction of this class, where each of its fields is in its range.
pub(crate) fn branch(i: &Branch) -> Option<u32>
    ensures { Encodes (Instruction.Branch i.now) result }
{
    if !i.is_legal() {
        return None;
    }
    word_of(&branch_fields(i))
}

fn conditional_branch_fields(i: &ConditionalBranch) -> [Field; 4]
    requires { IsLegal (Instruction.ConditionalBranch i.now) }
    ensures { result ≡ fields (Instruction.ConditionalBranch i.now) }
{
    [
        field(8, 0b01010100),
        field(19, twos_complement(i.offset, 19)),
        field(1, 0),
        field(4, i.condition.code()),
    ]
}

/// The word of an instruction of this class, where each of its fields is in its range.
pub(crate) fn conditional_branch(i: &ConditionalBranch) -> Option<u32>
    ensures { Encodes (Instruction.ConditionalBranch i.now) result }
{
    if !i.is_legal() {
        return None;
    }
    word_of(&conditional_branch_fields(i))
}

fn compare_branch_fields(i: &CompareBranch) -> [Field; 5]
    requires { IsLegal (Instruction.CompareBranch i.now) }
    ensures { result ≡ fields (Instruction.CompareBranch i.now) }
{
    [
        field(1, i.width.sf()),
        field(6, 0b011010),
        field(1, u32::from(i.nonzero)),
        field(19, twos_complement(i.offset, 19)),
        field(5, i.rt.value()),
    ]
}

/// The word of an instruction of this class, where each of its fields is in its range.
pub(crate) fn compare_branch(i: &CompareBranch) -> Option<u32>
    ensures { Encodes (Instruction.CompareBranch i.now) result }
{
    if !i.is_legal() {
        return None;
    }
    word_of(&compare_branch_fields(i))
}

fn test_branch_fields(i: &TestBranch) -> [Field; 6]
    requires { IsLegal (Instruction.TestBranch i.now) }
    ensures { result ≡ fields (Instruction.TestBranch i.now) }
{
    [
        field(1, u32::from(i.bit) / 32),
        field(6, 0b011011),
        field(1, u32::from(i.nonzero)),
        field(5, u32::from(i.bit) % 32),
        field(14, twos_complement(i.offset, 14)),
        field(5, i.rt.value()),
    ]
}

/// The word of an instruction of this class, where each of its fields is in its range.
pub(crate) fn test_branch(i: &TestBranch) -> Option<u32>
    ensures { Encodes (Instruction.TestBranch i.now) result }
{
    if !i.is_legal() {
        return None;
    }
    word_of(&test_branch_fields(i))
}

fn branch_register_fields(i: &BranchRegister) -> [Field; 5]
    ensures { result ≡ fields (Instruction.BranchRegister i.now) }
{
    [
        field(9, 0b110101100),
        field(2, branch_code(i.kind)),
        field(11, 0b11111000000),
        field(5, i.rn.value()),
        field(5, 0),
    ]
}

/// The word of an instruction of this class, where each of its fields is in its range.
pub(crate) fn branch_register(i: &BranchRegister) -> Option<u32>
    ensures { Encodes (Instruction.BranchRegister i.now) result }
{
    word_of(&branch_register_fields(i))
}

fn breakpoint_fields(i: &Breakpoint) -> [Field; 3]
    ensures { result ≡ fields (Instruction.Breakpoint i.now) }
{
    [
        field(11, 0b11010100001),
        field(16, u32::from(i.imm16)),
        field(5, 0),
    ]
}

/// The word of an instruction of this class, where each of its fields is in its range.
pub(crate) fn breakpoint(i: &Breakpoint) -> Option<u32>
    ensures { Encodes (Instruction.Breakpoint i.now) result }
{
    word_of(&breakpoint_fields(i))
}

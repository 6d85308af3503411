ghost use Rattle.std.specs.Prelude.{◌≡◌, ◌<◌, ◌/◌, ◌%◌, ◌^◌, ◌==◌};
ghost use Rattle.a64_word.specs.declared.instruction.Instruction.{Instruction};
ghost use Rattle.a64_semantics.specs.Branches.{words_on, branches_if};
ghost use Rattle.a64_semantics.specs.Writes.{linked};
ghost use Rattle.a64_semantics.specs.Registers.{put_all};
ghost use Rattle.a64_semantics.specs.Numbers.{operand};
ghost use Rattle.a64_semantics.specs.Performs.{Performs};

use crate::registers::Registers;
use crate::writing::flags_in;
use a64_word::{
    Branch, BranchKind, BranchRegister, CompareBranch, ConditionalBranch, Register, TestBranch,
    Width,
};

/// The address that lies `offset` words from pc.
#[inline(always)]
fn words_on(registers: &Registers, offset: i32) -> u64
    ensures { result ≡ words_on registers.now offset }
{
    registers.pc.wrapping_add_signed(i64::from(offset) * 4)
}

/// Where a branch on a condition leads.
#[inline(always)]
fn branches_if(taken: bool, registers: &Registers, offset: i32) -> u64
    ensures { result ≡ branches_if taken registers.now offset }
{
    if taken {
        words_on(registers, offset)
    } else {
        registers.pc.wrapping_add(4)
    }
}

/// Writes the address of the next word to x30, where the branch links.
#[inline(always)]
fn link(registers: &mut Registers, links: bool)
    ensures { registers.new ≡ put_all (linked links registers.old) registers.old }
{
    if links {
        let next = registers.pc.wrapping_add(4);
        registers.put(Register::new(30), Width::X, next);
    }
}

/// B and BL.
#[inline(always)]
pub(crate) fn branch(registers: &mut Registers, i: &Branch)
    ensures { Performs (Instruction.Branch i.now) registers.old registers.new }
{
    let target = words_on(registers, i.offset);
    link(registers, i.link);
    registers.pc = target;
}

/// B.cond.
#[inline(always)]
pub(crate) fn conditional_branch(registers: &mut Registers, i: &ConditionalBranch)
    ensures { Performs (Instruction.ConditionalBranch i.now) registers.old registers.new }
{
    let taken = flags_in(registers).holds(i.condition);
    registers.pc = branches_if(taken, registers, i.offset);
}

/// Whether the operand is 0.
#[inline(always)]
fn is_zero(width: Width, held: u64) -> bool
    ensures { result ≡ (operand width held == 0) }
{
    match width {
        Width::W => held % (1 << 32) == 0,
        Width::X => held == 0,
    }
}

/// CBZ and CBNZ.
#[inline(always)]
pub(crate) fn compare_branch(registers: &mut Registers, i: &CompareBranch)
    ensures { Performs (Instruction.CompareBranch i.now) registers.old registers.new }
{
    let zero = is_zero(i.width, registers.x(i.rt));
    let taken = if i.nonzero { !zero } else { zero };
    registers.pc = branches_if(taken, registers, i.offset);
}

/// Whether a bit is 0.
#[inline(always)]
fn is_clear(held: u64, bit: u8) -> bool
    ensures { result ≡ (held / 2 ^ bit % 2 == 0) }
{
    if bit >= 64 {
        true
    } else {
        (held >> bit) % 2 == 0
    }
}

/// TBZ and TBNZ.
#[inline(always)]
pub(crate) fn test_branch(registers: &mut Registers, i: &TestBranch)
    ensures { Performs (Instruction.TestBranch i.now) registers.old registers.new }
{
    let clear = is_clear(registers.x(i.rt), i.bit);
    let taken = if i.nonzero { !clear } else { clear };
    registers.pc = branches_if(taken, registers, i.offset);
}

/// BR, BLR and RET.
#[inline(always)]
pub(crate) fn branch_register(registers: &mut Registers, i: &BranchRegister)
    ensures { Performs (Instruction.BranchRegister i.now) registers.old registers.new }
{
    let target = registers.x(i.rn);
    link(registers, i.kind == BranchKind::Blr);
    registers.pc = target;
}

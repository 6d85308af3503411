ghost use Rattle.std.specs.Prelude.{◌≡◌};
ghost use Rattle.a64_word.specs.declared.instruction.Instruction.{Instruction};
ghost use Rattle.a64_word.specs.Encoding.{IsLegal};
ghost use Rattle.a64_word.specs.Bitmask.{mask_of};
ghost use Rattle.a64_semantics.specs.Performs.{Performs};

use crate::registers::Registers;
use crate::results;
use crate::writing::{finish, finish_to_sp};
use a64_word::{AddSubImmediate, Bitfield, Logical, LogicalImmediate, MoveWide, PcRelative, Width};

/// ADD, ADDS, SUB and SUBS of an immediate, of a width that is known.
#[inline(always)]
fn add_sub_immediate_as(
    registers: &mut Registers,
    i: &AddSubImmediate,
    width: Width,
    set_flags: bool,
)
    requires width { width ≡ i.now.width }
    requires set_flags { set_flags ≡ i.now.set_flags }
    ensures { Performs (Instruction.AddSubImmediate i.now) registers.old registers.new }
{
    let sum = results::add_sub_immediate(i, registers.x_or_sp(i.rn));
    finish_to_sp(registers, set_flags, i.rd, width, sum);
}

/// ADD, ADDS, SUB and SUBS of an immediate.
#[inline(always)]
pub(crate) fn add_sub_immediate(registers: &mut Registers, i: &AddSubImmediate)
    ensures { Performs (Instruction.AddSubImmediate i.now) registers.old registers.new }
{
    // Each of these is compiled by itself, with no further test of what is asked here.
    match (i.width, i.set_flags) {
        (Width::W, false) => add_sub_immediate_as(registers, i, Width::W, false),
        (Width::W, true) => add_sub_immediate_as(registers, i, Width::W, true),
        (Width::X, false) => add_sub_immediate_as(registers, i, Width::X, false),
        (Width::X, true) => add_sub_immediate_as(registers, i, Width::X, true),
    }
}

/// AND, ORR, EOR and ANDS of a bitmask that is known.
#[inline(always)]
pub fn logical_immediate(registers: &mut Registers, i: &LogicalImmediate, mask: u64)
    requires { mask ≡ mask_of i.now.width i.now.n i.now.immr i.now.imms }
    ensures { Performs (Instruction.LogicalImmediate i.now) registers.old registers.new }
{
    let bits = results::logical_masked(i, mask, registers.x(i.rn));
    finish_to_sp(registers, i.operation == Logical::Ands, i.rd, i.width, bits);
}

/// MOVN, MOVZ and MOVK.
#[inline(always)]
pub(crate) fn move_wide(registers: &mut Registers, i: &MoveWide)
    requires { IsLegal (Instruction.MoveWide i.now) }
    ensures { Performs (Instruction.MoveWide i.now) registers.old registers.new }
{
    let value = results::move_wide(i, registers.x(i.rd));
    finish(registers, i.rd, i.width, value);
}

/// ADR and ADRP.
#[inline(always)]
pub(crate) fn pc_relative(registers: &mut Registers, i: &PcRelative)
    requires { IsLegal (Instruction.PcRelative i.now) }
    ensures { Performs (Instruction.PcRelative i.now) registers.old registers.new }
{
    let value = results::pc_relative(i, registers.pc);
    finish(registers, i.rd, Width::X, value);
}

/// SBFM, BFM and UBFM.
#[inline(always)]
pub(crate) fn bitfield(registers: &mut Registers, i: &Bitfield)
    requires { IsLegal (Instruction.Bitfield i.now) }
    ensures { Performs (Instruction.Bitfield i.now) registers.old registers.new }
{
    let value = results::bitfield(i, registers.x(i.rn), registers.x(i.rd));
    finish(registers, i.rd, i.width, value);
}

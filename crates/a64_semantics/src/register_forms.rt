ghost use Rattle.std.specs.Prelude.{◌≡◌};
ghost use Rattle.a64_word.specs.declared.instruction.Instruction.{Instruction};
ghost use Rattle.a64_word.specs.Encoding.{IsLegal};
ghost use Rattle.a64_semantics.specs.Performs.{Performs};

use crate::registers::Registers;
use crate::results;
use crate::writing::{finish, finish_to_sp, finish_with_flags, flags_in, go_on};
use a64_word::{
    AddSubExtended, AddSubShifted, ConditionalCompare, ConditionalSelect, CountLeadingZeros,
    LogicalShifted, MultiplyAdd, MultiplyHigh, TwoSource, Width,
};

/// AND, ORR, EOR and ANDS of a shifted register, and BIC, ORN, EON and BICS of its complement, of a width that is known.
#[inline(always)]
fn logical_shifted_as(registers: &mut Registers, i: &LogicalShifted, width: Width)
    requires width { width ≡ i.now.width }
    requires legal { IsLegal (Instruction.LogicalShifted i.now) }
    ensures { Performs (Instruction.LogicalShifted i.now) registers.old registers.new }
{
    let bits = results::logical_shifted(i, registers.x(i.rn), registers.x(i.rm));
    finish_with_flags(registers, i.rd, width, bits);
}

/// AND, ORR, EOR and ANDS of a shifted register, and BIC, ORN, EON and BICS of its complement.
#[inline(always)]
pub(crate) fn logical_shifted(registers: &mut Registers, i: &LogicalShifted)
    requires { IsLegal (Instruction.LogicalShifted i.now) }
    ensures { Performs (Instruction.LogicalShifted i.now) registers.old registers.new }
{
    // Each of these is compiled by itself, with no further test of what is asked here.
    match i.width {
        Width::W => logical_shifted_as(registers, i, Width::W),
        Width::X => logical_shifted_as(registers, i, Width::X),
    }
}

/// ADD, ADDS, SUB and SUBS of a shifted register, of a width that is known.
#[inline(always)]
fn add_sub_shifted_as(registers: &mut Registers, i: &AddSubShifted, width: Width)
    requires width { width ≡ i.now.width }
    requires legal { IsLegal (Instruction.AddSubShifted i.now) }
    ensures { Performs (Instruction.AddSubShifted i.now) registers.old registers.new }
{
    let sum = results::add_sub_shifted(i, registers.x(i.rn), registers.x(i.rm));
    finish_with_flags(registers, i.rd, width, sum);
}

/// ADD, ADDS, SUB and SUBS of a shifted register.
#[inline(always)]
pub(crate) fn add_sub_shifted(registers: &mut Registers, i: &AddSubShifted)
    requires { IsLegal (Instruction.AddSubShifted i.now) }
    ensures { Performs (Instruction.AddSubShifted i.now) registers.old registers.new }
{
    // Each of these is compiled by itself, with no further test of what is asked here.
    match i.width {
        Width::W => add_sub_shifted_as(registers, i, Width::W),
        Width::X => add_sub_shifted_as(registers, i, Width::X),
    }
}

/// ADD, ADDS, SUB and SUBS of an extended register, of a width that is known.
#[inline(always)]
fn add_sub_extended_as(registers: &mut Registers, i: &AddSubExtended, width: Width, set_flags: bool)
    requires width { width ≡ i.now.width }
    requires set_flags { set_flags ≡ i.now.set_flags }
    requires legal { IsLegal (Instruction.AddSubExtended i.now) }
    ensures { Performs (Instruction.AddSubExtended i.now) registers.old registers.new }
{
    let sum = results::add_sub_extended(i, registers.x_or_sp(i.rn), registers.x(i.rm));
    finish_to_sp(registers, set_flags, i.rd, width, sum);
}

/// ADD, ADDS, SUB and SUBS of an extended register.
#[inline(always)]
pub(crate) fn add_sub_extended(registers: &mut Registers, i: &AddSubExtended)
    requires { IsLegal (Instruction.AddSubExtended i.now) }
    ensures { Performs (Instruction.AddSubExtended i.now) registers.old registers.new }
{
    // Each of these is compiled by itself, with no further test of what is asked here.
    match (i.width, i.set_flags) {
        (Width::W, false) => add_sub_extended_as(registers, i, Width::W, false),
        (Width::W, true) => add_sub_extended_as(registers, i, Width::W, true),
        (Width::X, false) => add_sub_extended_as(registers, i, Width::X, false),
        (Width::X, true) => add_sub_extended_as(registers, i, Width::X, true),
    }
}

/// CCMN and CCMP.
#[inline(always)]
pub(crate) fn conditional_compare(registers: &mut Registers, i: &ConditionalCompare)
    ensures { Performs (Instruction.ConditionalCompare i.now) registers.old registers.new }
{
    let flags = flags_in(registers);
    let flags = results::conditional_compare(i, flags, registers.x(i.rn), registers.x(i.rm));
    go_on(registers, Some(flags));
}

/// CSEL, CSINC, CSINV and CSNEG.
#[inline(always)]
pub(crate) fn conditional_select(registers: &mut Registers, i: &ConditionalSelect)
    ensures { Performs (Instruction.ConditionalSelect i.now) registers.old registers.new }
{
    let flags = flags_in(registers);
    let value = results::conditional_select(i, flags, registers.x(i.rn), registers.x(i.rm));
    finish(registers, i.rd, i.width, value);
}

/// UDIV, SDIV, LSLV, LSRV, ASRV and RORV.
#[inline(always)]
pub(crate) fn two_source(registers: &mut Registers, i: &TwoSource)
    ensures { Performs (Instruction.TwoSource i.now) registers.old registers.new }
{
    let value = results::two_source(i, registers.x(i.rn), registers.x(i.rm));
    finish(registers, i.rd, i.width, value);
}

/// CLZ.
#[inline(always)]
pub(crate) fn count_leading_zeros(registers: &mut Registers, i: &CountLeadingZeros)
    ensures { Performs (Instruction.CountLeadingZeros i.now) registers.old registers.new }
{
    let value = results::leading_zeros_of(i, registers.x(i.rn));
    finish(registers, i.rd, i.width, value);
}

/// MADD and MSUB, of a width that is known.
#[inline(always)]
fn multiply_add_as(registers: &mut Registers, i: &MultiplyAdd, width: Width)
    requires width { width ≡ i.now.width }
    ensures { Performs (Instruction.MultiplyAdd i.now) registers.old registers.new }
{
    let value = results::multiply_add(i, registers.x(i.rn), registers.x(i.rm), registers.x(i.ra));
    finish(registers, i.rd, width, value);
}

/// MADD and MSUB.
#[inline(always)]
pub(crate) fn multiply_add(registers: &mut Registers, i: &MultiplyAdd)
    ensures { Performs (Instruction.MultiplyAdd i.now) registers.old registers.new }
{
    // Each of these is compiled by itself, with no further test of what is asked here.
    match i.width {
        Width::W => multiply_add_as(registers, i, Width::W),
        Width::X => multiply_add_as(registers, i, Width::X),
    }
}

/// SMULH and UMULH.
#[inline(always)]
pub(crate) fn multiply_high(registers: &mut Registers, i: &MultiplyHigh)
    ensures { Performs (Instruction.MultiplyHigh i.now) registers.old registers.new }
{
    let value = results::multiply_high(i, registers.x(i.rn), registers.x(i.rm));
    finish(registers, i.rd, Width::X, value);
}

ghost use Rattle.std.specs.Prelude.{◌≡◌, ◌<◌, ◌≤◌, ◌+◌, ◌*◌, ◌%◌, ◌^◌, if◌then◌else◌};
ghost use Rattle.a64_word.specs.declared.instruction.Instruction.{Instruction};
ghost use Rattle.a64_word.specs.Encoding.{IsLegal};
ghost use Rattle.a64_word.specs.declared.operands.Width.TheVariants as widths;
ghost use Rattle.a64_word.specs.Operands.{data_size};
ghost use Rattle.a64_word.specs.Bitmask.{mask_of};
ghost use Rattle.a64_semantics.specs.Results as spec;
ghost use Rattle.a64_semantics.specs.Results.{move_wide_of, not_selected, two_source_of};

use crate::bitfields::{bitfield_move, inserted};
use crate::computed::Computed;
use crate::flags::Flags;
use crate::logical::logical;
use crate::numbers::{complement, operand};
use crate::products::{high_product, product_sum, quotient, signed_high_product, signed_quotient};
use crate::shifts::{extended_operand, shifted};
use crate::sums::{add_sub, flags_of_sum};
use a64_word::{
    AddSubExtended, AddSubImmediate, AddSubShifted, Bitfield, ConditionalCompare,
    ConditionalSelect, CountLeadingZeros, LogicalImmediate, LogicalShifted, MoveWide, MoveWideKind,
    MultiplyAdd, MultiplyHigh, PcRelative, Shift, TwoSource, TwoSourceKind, Width,
};

/// The immediate of a sum.
#[inline(always)]
fn immediate(shifted: bool, imm12: u16) -> u64
    ensures value { result ≡ (if shifted then imm12 * 2 ^ 12 else imm12) }
    ensures below { result < 2 ^ 32 }
{
    if shifted {
        u64::from(imm12) << 12
    } else {
        u64::from(imm12)
    }
}

/// ADD, ADDS, SUB and SUBS of an immediate; `rn` is what its register holds.
#[inline(always)]
pub fn add_sub_immediate(i: &AddSubImmediate, rn: u64) -> Computed
    ensures { result ≡ spec.add_sub_immediate i.now rn }
{
    let second = immediate(i.shifted, i.imm12);
    add_sub(
        i.width,
        i.subtract,
        i.set_flags,
        operand(i.width, rn),
        second,
    )
}

/// ADD, ADDS, SUB and SUBS of a shifted register; `rn` and `rm` are what their registers hold.
#[inline(always)]
pub fn add_sub_shifted(i: &AddSubShifted, rn: u64, rm: u64) -> Computed
    requires { IsLegal (Instruction.AddSubShifted i.now) }
    ensures { result ≡ spec.add_sub_shifted i.now rn rm }
{
    let rm = operand(i.width, rm);
    let second = shifted(i.width, i.shift, rm, u32::from(i.amount));
    add_sub(
        i.width,
        i.subtract,
        i.set_flags,
        operand(i.width, rn),
        second,
    )
}

/// ADD, ADDS, SUB and SUBS of an extended register; `rn` and `rm` are what their registers hold.
#[inline(always)]
pub fn add_sub_extended(i: &AddSubExtended, rn: u64, rm: u64) -> Computed
    requires { IsLegal (Instruction.AddSubExtended i.now) }
    ensures { result ≡ spec.add_sub_extended i.now rn rm }
{
    let second = extended_operand(i.width, i.extend, rm, u32::from(i.amount));
    add_sub(
        i.width,
        i.subtract,
        i.set_flags,
        operand(i.width, rn),
        second,
    )
}

/// The bitmask of AND, ORR, EOR and ANDS of an immediate.
pub fn mask_of(i: &LogicalImmediate) -> u64
    requires { IsLegal (Instruction.LogicalImmediate i.now) }
    ensures value { result ≡ mask_of i.now.width i.now.n i.now.immr i.now.imms }
{
    i.mask()
}

/// AND, ORR, EOR and ANDS of a bitmask that is known; `rn` is what its register holds.
#[inline(always)]
pub fn logical_masked(i: &LogicalImmediate, mask: u64, rn: u64) -> Computed
    requires { mask ≡ mask_of i.now.width i.now.n i.now.immr i.now.imms }
    ensures { result ≡ spec.logical_immediate i.now rn }
{
    logical(i.width, i.operation, operand(i.width, rn), mask)
}

/// AND, ORR, EOR and ANDS of a bitmask; `rn` is what its register holds.
pub fn logical_immediate(i: &LogicalImmediate, rn: u64) -> Computed
    requires { IsLegal (Instruction.LogicalImmediate i.now) }
    ensures { result ≡ spec.logical_immediate i.now rn }
{
    logical_masked(i, mask_of(i), rn)
}

/// AND, ORR, EOR and ANDS of a shifted register, and BIC, ORN, EON and BICS of its complement; `rn` and `rm` are
/// what their registers hold.
#[inline(always)]
pub fn logical_shifted(i: &LogicalShifted, rn: u64, rm: u64) -> Computed
    requires { IsLegal (Instruction.LogicalShifted i.now) }
    ensures { result ≡ spec.logical_shifted i.now rn rm }
{
    let rm = operand(i.width, rm);
    let second = shifted(i.width, i.shift, rm, u32::from(i.amount));
    let second = if i.invert {
        complement(i.width, second)
    } else {
        second
    };
    logical(i.width, i.operation, operand(i.width, rn), second)
}

/// The immediate of a wide move at its place.
#[inline(always)]
fn wide_immediate(width: Width, place: u32, imm16: u16) -> u64
    requires { place + 16 ≤ data_size width }
    ensures value { result ≡ imm16 * 2 ^ place }
    ensures place { result % 2 ^ place ≡ 0 }
    ensures below { result < 2 ^ (place + 16) }
    ensures within { result < 2 ^ data_size width }
{
    u64::from(imm16) << place
}

/// MOVN, MOVZ and MOVK, of the place of their 16 bits.
#[inline(always)]
fn move_wide_at(width: Width, kind: MoveWideKind, place: u32, imm16: u16, rd: u64) -> u64
    requires { place + 16 ≤ data_size width }
    ensures { result ≡ move_wide_of width kind place imm16 rd }
{
    let moved = wide_immediate(width, place, imm16);
    match kind {
        MoveWideKind::Movz => moved,
        MoveWideKind::Movn => complement(width, moved),
        MoveWideKind::Movk => inserted(place, place + 16, moved, operand(width, rd)),
    }
}

/// MOVN, MOVZ and MOVK; `rd` is what their register holds before.
#[inline(always)]
pub fn move_wide(i: &MoveWide, rd: u64) -> u64
    requires { IsLegal (Instruction.MoveWide i.now) }
    ensures { result ≡ spec.move_wide i.now rd }
{
    move_wide_at(i.width, i.kind, 16 * u32::from(i.hw), i.imm16, rd)
}

/// ADR and ADRP; `pc` is the address of the instruction.
#[inline(always)]
pub fn pc_relative(i: &PcRelative, pc: u64) -> u64
    requires { IsLegal (Instruction.PcRelative i.now) }
    ensures { result ≡ spec.pc_relative i.now pc }
{
    let offset = i64::from(i.offset);
    if i.page {
        (pc / 4096 * 4096).wrapping_add_signed(offset * 4096)
    } else {
        pc.wrapping_add_signed(offset)
    }
}

/// SBFM, BFM and UBFM; `rn` and `rd` are what their registers hold before.
#[inline(always)]
pub fn bitfield(i: &Bitfield, rn: u64, rd: u64) -> u64
    requires { IsLegal (Instruction.Bitfield i.now) }
    ensures { result ≡ spec.bitfield i.now rn rd }
{
    let (rn, rd) = (operand(i.width, rn), operand(i.width, rd));
    bitfield_move(
        i.width,
        i.kind,
        u32::from(i.immr),
        u32::from(i.imms),
        rn,
        rd,
    )
}

/// The flags of CCMN and CCMP; `rn` and `rm` are what their registers hold.
#[inline(always)]
pub fn conditional_compare(i: &ConditionalCompare, flags: Flags, rn: u64, rm: u64) -> Flags
    ensures { result ≡ spec.conditional_compare i.now flags rn rm }
{
    if !flags.holds(i.condition) {
        return Flags::of_number(i.nzcv);
    }
    let second = if i.immediate {
        u64::from(i.rm.number())
    } else {
        operand(i.width, rm)
    };
    let addend = if i.compare {
        complement(i.width, second)
    } else {
        second
    };
    flags_of_sum(i.width, operand(i.width, rn), addend, i.compare)
}

/// What CSEL, CSINC, CSINV and CSNEG give where the condition fails, in 64 bits.
#[inline(always)]
fn not_selected(invert: bool, increment: bool, x: u64) -> u64
    ensures { result ≡ not_selected widths.X invert increment x }
{
    let inverted = if invert { u64::MAX - x } else { x };
    if increment {
        inverted.wrapping_add(1)
    } else {
        inverted
    }
}

/// CSEL, CSINC, CSINV and CSNEG; `rn` and `rm` are what their registers hold.
#[inline(always)]
pub fn conditional_select(i: &ConditionalSelect, flags: Flags, rn: u64, rm: u64) -> u64
    ensures { result ≡ spec.conditional_select i.now flags rn rm }
{
    let selected = if flags.holds(i.condition) {
        rn
    } else {
        not_selected(i.invert, i.increment, rm)
    };
    operand(i.width, selected)
}

/// UDIV, SDIV, LSLV, LSRV, ASRV and RORV of two operands.
#[inline(always)]
fn two_source_at(width: Width, kind: TwoSourceKind, x: u64, y: u64) -> u64
    requires x { x < 2 ^ data_size width }
    requires y { y < 2 ^ data_size width }
    ensures { result ≡ two_source_of width kind x y }
{
    let by = (y % u64::from(width.bits())) as u32;
    match kind {
        TwoSourceKind::Udiv => quotient(x, y),
        TwoSourceKind::Sdiv => signed_quotient(width, x, y),
        TwoSourceKind::Lslv => shifted(width, Shift::Lsl, x, by),
        TwoSourceKind::Lsrv => shifted(width, Shift::Lsr, x, by),
        TwoSourceKind::Asrv => shifted(width, Shift::Asr, x, by),
        TwoSourceKind::Rorv => shifted(width, Shift::Ror, x, by),
    }
}

/// UDIV, SDIV, LSLV, LSRV, ASRV and RORV; `rn` and `rm` are what their registers hold.
#[inline(always)]
pub fn two_source(i: &TwoSource, rn: u64, rm: u64) -> u64
    ensures { result ≡ spec.two_source i.now rn rm }
{
    let (rn, rm) = (operand(i.width, rn), operand(i.width, rm));
    two_source_at(i.width, i.kind, rn, rm)
}

/// CLZ; `rn` is what its register holds.
#[inline(always)]
pub fn leading_zeros_of(i: &CountLeadingZeros, rn: u64) -> u64
    ensures { result ≡ spec.leading_zeros_of i.now rn }
{
    match i.width {
        Width::W => u64::from(((rn % (1 << 32)) as u32).leading_zeros()),
        Width::X => u64::from(rn.leading_zeros()),
    }
}

/// MADD and MSUB; `rn`, `rm` and `ra` are what their registers hold.
#[inline(always)]
pub fn multiply_add(i: &MultiplyAdd, rn: u64, rm: u64, ra: u64) -> u64
    ensures { result ≡ spec.multiply_add i.now rn rm ra }
{
    product_sum(
        i.width,
        i.subtract,
        operand(i.width, rn),
        operand(i.width, rm),
        operand(i.width, ra),
    )
}

/// SMULH and UMULH; `rn` and `rm` are what their registers hold.
#[inline(always)]
pub fn multiply_high(i: &MultiplyHigh, rn: u64, rm: u64) -> u64
    ensures { result ≡ spec.multiply_high i.now rn rm }
{
    if i.unsigned {
        high_product(rn, rm)
    } else {
        signed_high_product(rn, rm)
    }
}

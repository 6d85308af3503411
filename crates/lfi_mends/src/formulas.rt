//! Instructions that compute, of which mends of words outside of the profile are made.

ghost use Rattle.std.specs.Prelude.{◌≡◌, ◌<◌, ◌*◌, IsTrue, false, ◌⊎◌};
ghost use Rattle.lfi_module.specs.declared.profile.Profile.{Profile};
ghost use Rattle.lfi_rules.specs.declared.needs.Need.TheVariants.{Nothing};
ghost use Rattle.lfi_rules.specs.Needs.{opens_of};
ghost use Rattle.a64_word.specs.Operands.{data_size};
ghost use Rattle.lfi_mends.specs.Mends.{Stands};
ghost use Rattle.lfi_mends.specs.Registers.{is_reserved, is_free};

use crate::builders::computing;
use a64_word::{
    AddSubShifted, Bitfield, BitfieldKind, Condition, ConditionalCompare, ConditionalSelect,
    Instruction, Logical, LogicalImmediate, LogicalShifted, MoveWide, MoveWideKind, MultiplyAdd,
    Register, Shift, TwoSource, TwoSourceKind, Width,
};
use lfi_rules::registers::{OFFSET, STACK};

/// Bytes of a register that a mask keeps.
#[derive(Clone, Copy, PartialEq, Eq)]
pub(crate) enum Mask {
    /// The lower byte of each half word: 0x00FF00FF...
    LowBytes,
    /// The higher one: 0xFF00FF00...
    HighBytes,
    /// The first and the last byte of each word: 0xFF0000FF...
    OuterBytes,
    /// The two between them: 0x00FFFF00...
    InnerBytes,
}

/// ORR Rd, Rn, Rm, shifted.
pub(crate) fn shifted(
    width: Width,
    into: Register,
    one: Register,
    other: Register,
    shift: Shift,
    amount: u8,
) -> Instruction
    requires fits { amount < data_size width }
    requires free { is_reserved into ≡ false }
    ensures stands { (profile : Profile) → Stands profile Nothing result }
    ensures opens { (profile : Profile) → opens_of profile result ≡ Nothing }
{
    computing(Instruction::LogicalShifted(LogicalShifted {
        width,
        operation: Logical::Orr,
        invert: false,
        shift,
        amount,
        rm: other,
        rn: one,
        rd: into,
    }))
}

/// ORR Rd, ZR, Rm, ROR #amount: a rotation.
pub(crate) fn rotated(width: Width, into: Register, from: Register, amount: u8) -> Instruction
    requires fits { amount < data_size width }
    requires free { is_reserved into ≡ false }
    ensures stands { (profile : Profile) → Stands profile Nothing result }
    ensures opens { (profile : Profile) → opens_of profile result ≡ Nothing }
{
    shifted(width, into, Register::new(STACK), from, Shift::Ror, amount)
}

/// By how many places the mask's element is rotated to the right.
fn turn(mask: Mask) -> u8
    ensures { result < 32 }
{
    match mask {
        Mask::LowBytes => 0,
        Mask::HighBytes | Mask::OuterBytes => 8,
        Mask::InnerBytes => 24,
    }
}

/// The field `imms` of the mask: its element's size, and how many ones that has.
fn element(mask: Mask) -> u8
    ensures { (result ≡ 39) ⊎ (result ≡ 15) }
{
    match mask {
        Mask::LowBytes | Mask::HighBytes => 39,
        Mask::OuterBytes | Mask::InnerBytes => 15,
    }
}

/// AND Rd, Rn, #mask.
pub(crate) fn masked(width: Width, into: Register, from: Register, mask: Mask) -> Instruction
    requires free { IsTrue (is_free into) }
    ensures stands { (profile : Profile) → Stands profile Nothing result }
    ensures opens { (profile : Profile) → opens_of profile result ≡ Nothing }
{
    computing(Instruction::LogicalImmediate(LogicalImmediate {
        width,
        operation: Logical::And,
        n: false,
        immr: turn(mask),
        imms: element(mask),
        rn: from,
        rd: into,
    }))
}

/// UBFM or SBFM Xd, Xn, #0, #31: a W register, extended.
pub(crate) fn extended(signed: bool, into: Register, from: Register) -> Instruction
    requires free { is_reserved into ≡ false }
    ensures stands { (profile : Profile) → Stands profile Nothing result }
    ensures opens { (profile : Profile) → opens_of profile result ≡ Nothing }
{
    computing(Instruction::Bitfield(Bitfield {
        width: Width::X,
        kind: extension(signed),
        immr: 0,
        imms: 31,
        rn: from,
        rd: into,
    }))
}

/// How a W register is extended.
fn extension(signed: bool) -> BitfieldKind {
    if signed {
        BitfieldKind::Sbfm
    } else {
        BitfieldKind::Ubfm
    }
}

/// MADD or MSUB Xd, Xn, Xm, Xa.
pub(crate) fn multiplied(
    subtract: bool,
    into: Register,
    one: Register,
    other: Register,
    sum: Register,
) -> Instruction
    requires free { is_reserved into ≡ false }
    ensures stands { (profile : Profile) → Stands profile Nothing result }
    ensures opens { (profile : Profile) → opens_of profile result ≡ Nothing }
{
    computing(Instruction::MultiplyAdd(MultiplyAdd {
        width: Width::X,
        subtract,
        rm: other,
        ra: sum,
        rn: one,
        rd: into,
    }))
}

/// CSINC Rd, ZR, ZR, condition: 0 where the condition holds, else 1.
pub(crate) fn carry(width: Width, into: Register, condition: Condition) -> Instruction
    requires free { is_reserved into ≡ false }
    ensures stands { (profile : Profile) → Stands profile Nothing result }
    ensures opens { (profile : Profile) → opens_of profile result ≡ Nothing }
{
    computing(Instruction::ConditionalSelect(ConditionalSelect {
        width,
        invert: false,
        increment: true,
        rm: Register::new(STACK),
        condition,
        rn: Register::new(STACK),
        rd: into,
    }))
}

/// ADD or SUB Rd, Rn, Rm.
pub(crate) fn summed(
    width: Width,
    subtract: bool,
    into: Register,
    one: Register,
    other: Register,
) -> Instruction
    requires free { is_reserved into ≡ false }
    ensures stands { (profile : Profile) → Stands profile Nothing result }
    ensures opens { (profile : Profile) → opens_of profile result ≡ Nothing }
{
    computing(Instruction::AddSubShifted(AddSubShifted {
        width,
        subtract,
        set_flags: false,
        shift: Shift::Lsl,
        amount: 0,
        rm: other,
        rn: one,
        rd: into,
    }))
}

/// SUB Rd, ZR, Rm.
pub(crate) fn negated(width: Width, into: Register, from: Register) -> Instruction
    requires free { is_reserved into ≡ false }
    ensures stands { (profile : Profile) → Stands profile Nothing result }
    ensures opens { (profile : Profile) → opens_of profile result ≡ Nothing }
{
    summed(width, true, into, Register::new(STACK), from)
}

/// AND, ORR or ANDS Rd, Rn, Rm, or the same with the complement of Rm.
pub(crate) fn joined(
    width: Width,
    operation: Logical,
    invert: bool,
    into: Register,
    one: Register,
    other: Register,
) -> Instruction
    requires free { is_reserved into ≡ false }
    ensures stands { (profile : Profile) → Stands profile Nothing result }
    ensures opens { (profile : Profile) → opens_of profile result ≡ Nothing }
{
    computing(Instruction::LogicalShifted(LogicalShifted {
        width,
        operation,
        invert,
        shift: Shift::Lsl,
        amount: 0,
        rm: other,
        rn: one,
        rd: into,
    }))
}

/// CSINC W22, WZR, WZR, CC: the flag C.
pub(crate) fn carry_in_offset() -> Instruction
    ensures stands { (profile : Profile) → Stands profile Nothing result }
    ensures opens { (profile : Profile) → opens_of profile result ≡ Nothing }
{
    computing(Instruction::ConditionalSelect(ConditionalSelect {
        width: Width::W,
        invert: false,
        increment: true,
        rm: Register::new(STACK),
        condition: Condition::Cc,
        rn: Register::new(STACK),
        rd: Register::new(OFFSET),
    }))
}

/// CSINC Rd, Rn, Rn, CC: the register and the flag C.
pub(crate) fn with_carry(width: Width, into: Register, from: Register) -> Instruction
    requires free { is_reserved into ≡ false }
    ensures stands { (profile : Profile) → Stands profile Nothing result }
    ensures opens { (profile : Profile) → opens_of profile result ≡ Nothing }
{
    computing(Instruction::ConditionalSelect(ConditionalSelect {
        width,
        invert: false,
        increment: true,
        rm: from,
        condition: Condition::Cc,
        rn: from,
        rd: into,
    }))
}

/// CSEL Rd, Rn, Rm, EQ.
pub(crate) fn chosen(width: Width, into: Register, one: Register, other: Register) -> Instruction
    requires free { is_reserved into ≡ false }
    ensures stands { (profile : Profile) → Stands profile Nothing result }
    ensures opens { (profile : Profile) → opens_of profile result ≡ Nothing }
{
    computing(Instruction::ConditionalSelect(ConditionalSelect {
        width,
        invert: false,
        increment: false,
        rm: other,
        condition: Condition::Eq,
        rn: one,
        rd: into,
    }))
}

/// ADDS ZR, Rn, Rm, LSL #amount: the flags of a sum.
pub(crate) fn flags_of_sum(width: Width, one: Register, other: Register, amount: u8) -> Instruction
    requires fits { amount < 32 }
    ensures stands { (profile : Profile) → Stands profile Nothing result }
    ensures opens { (profile : Profile) → opens_of profile result ≡ Nothing }
{
    computing(Instruction::AddSubShifted(AddSubShifted {
        width,
        subtract: false,
        set_flags: true,
        shift: Shift::Lsl,
        amount,
        rm: other,
        rn: one,
        rd: Register::new(STACK),
    }))
}

/// CCMN Rn, Rm, #nzcv, NE: the flags of a sum, or these.
pub(crate) fn flags_of_sum_or(width: Width, one: Register, other: Register, nzcv: u8) -> Instruction
    requires fits { nzcv < 16 }
    ensures stands { (profile : Profile) → Stands profile Nothing result }
    ensures opens { (profile : Profile) → opens_of profile result ≡ Nothing }
{
    computing(Instruction::ConditionalCompare(ConditionalCompare {
        width,
        compare: false,
        immediate: false,
        rm: other,
        condition: Condition::Ne,
        rn: one,
        nzcv,
    }))
}

/// The highest 16 bits of a register, as a field of MOVZ.
fn top_half(width: Width) -> u8
    ensures fits { 16 * result < data_size width }
    ensures small { result < 4 }
{
    match width {
        Width::W => 1,
        Width::X => 3,
    }
}

/// MOVZ Rd, #0x8000, shifted to the top: the highest bit alone.
pub(crate) fn top_bit(width: Width, into: Register) -> Instruction
    requires free { is_reserved into ≡ false }
    ensures stands { (profile : Profile) → Stands profile Nothing result }
    ensures opens { (profile : Profile) → opens_of profile result ≡ Nothing }
{
    computing(Instruction::MoveWide(MoveWide {
        width,
        kind: MoveWideKind::Movz,
        hw: top_half(width),
        imm16: 0x8000,
        rd: into,
    }))
}

/// UDIV Rd, Rn, Rm, which is 0 where Rm is.
pub(crate) fn divided(width: Width, into: Register, one: Register, other: Register) -> Instruction
    requires free { is_reserved into ≡ false }
    ensures stands { (profile : Profile) → Stands profile Nothing result }
    ensures opens { (profile : Profile) → opens_of profile result ≡ Nothing }
{
    computing(Instruction::TwoSource(TwoSource {
        width,
        kind: TwoSourceKind::Udiv,
        rm: other,
        rn: one,
        rd: into,
    }))
}

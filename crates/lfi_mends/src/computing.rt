//! Instructions that only compute a register, and the same into another one.

ghost use Rattle.std.specs.Prelude.{◌≡◌, ◌<◌, ◌⊎◌, IsTrue, IfSome, true, []};
ghost use Rattle.a64_effects.specs.Uses.{general};
ghost use Rattle.a64_word.specs.declared.operands.Width.TheVariants.{W};
ghost use Rattle.a64_word.specs.Encoding.{IsLegal, fields};
ghost use Rattle.a64_word.specs.Fields.{AllFit};
ghost use Rattle.lfi_mends.specs.Obstacles as obstacles;
ghost use Rattle.lfi_mends.specs.Registers as spec;
ghost use Rattle.lfi_mends.specs.inner.Computing.{is_computing};

use a64_word::{
    AddSubExtended, AddSubImmediate, AddSubShifted, Bitfield, BitfieldKind, ConditionalSelect,
    CountLeadingZeros, Extend, Instruction, Logical, LogicalImmediate, LogicalShifted, MoveWide,
    MoveWideKind, MultiplyAdd, MultiplyHigh, Register, Shift, TwoSource, Width,
};
use lfi_rules::registers::{OFFSET, STACK};

/// A register, but for zr.
fn but_zero(register: Register) -> Option<Register>
    ensures { result ≡ obstacles.first_of (general register W []) }
{
    if register.number() == STACK {
        None
    } else {
        Some(register)
    }
}

/// The register that an instruction computes, where it does nothing else.
pub(crate) fn computed(instruction: &Instruction) -> Option<Register>
    ensures { result ≡ obstacles.computed instruction.now }
{
    match instruction {
        Instruction::AddSubImmediate(i) => {
            if i.set_flags {
                but_zero(i.rd)
            } else {
                Some(i.rd)
            }
        }
        Instruction::LogicalImmediate(i) => {
            if i.operation == Logical::Ands {
                but_zero(i.rd)
            } else {
                Some(i.rd)
            }
        }
        Instruction::MoveWide(i) => but_zero(i.rd),
        Instruction::Bitfield(i) => but_zero(i.rd),
        Instruction::LogicalShifted(i) => but_zero(i.rd),
        Instruction::AddSubShifted(i) => but_zero(i.rd),
        Instruction::AddSubExtended(i) => {
            if i.set_flags {
                but_zero(i.rd)
            } else {
                Some(i.rd)
            }
        }
        Instruction::ConditionalSelect(i) => but_zero(i.rd),
        Instruction::TwoSource(i) => but_zero(i.rd),
        Instruction::CountLeadingZeros(i) => but_zero(i.rd),
        Instruction::MultiplyAdd(i) => but_zero(i.rd),
        Instruction::MultiplyHigh(i) => but_zero(i.rd),
        _ => None,
    }
}

/// Whether an instruction keeps a part of the register that it computes: MOVK and BFM.
pub(crate) fn keeps_part(instruction: &Instruction) -> bool {
    match instruction {
        Instruction::MoveWide(i) => i.kind == MoveWideKind::Movk,
        Instruction::Bitfield(i) => i.kind == BitfieldKind::Bfm,
        _ => false,
    }
}

/// The register of which an instruction puts bits into what another register holds: that of BFM. Of any other instruction it
/// is none, for which number 31 stands.
pub(crate) fn inserted(instruction: &Instruction) -> Register {
    match instruction {
        Instruction::Bitfield(i) => i.rn,
        _ => Register::new(STACK),
    }
}

/// The same instruction into a free register.
pub(crate) fn into_free(instruction: &Instruction, register: Register) -> Instruction
    requires legal { IsLegal instruction.now }
    requires fits { AllFit (fields instruction.now) }
    requires computes { IsTrue (obstacles.is_computation instruction.now) }
    requires free { IsTrue (spec.is_free register) }
    ensures legal { IsLegal result }
    ensures fits { AllFit (fields result) }
    ensures computing { IsTrue (is_computing result) }
{
    match instruction {
        Instruction::AddSubImmediate(i) => Instruction::AddSubImmediate(AddSubImmediate {
            rd: register,
            ..*i
        }),
        Instruction::LogicalImmediate(i) => Instruction::LogicalImmediate(LogicalImmediate {
            rd: register,
            ..*i
        }),
        Instruction::MoveWide(i) => Instruction::MoveWide(MoveWide { rd: register, ..*i }),
        Instruction::Bitfield(i) => Instruction::Bitfield(Bitfield { rd: register, ..*i }),
        Instruction::LogicalShifted(i) => Instruction::LogicalShifted(LogicalShifted {
            rd: register,
            ..*i
        }),
        Instruction::AddSubShifted(i) => Instruction::AddSubShifted(AddSubShifted {
            rd: register,
            ..*i
        }),
        Instruction::AddSubExtended(i) => Instruction::AddSubExtended(AddSubExtended {
            rd: register,
            ..*i
        }),
        Instruction::ConditionalSelect(i) => Instruction::ConditionalSelect(ConditionalSelect {
            rd: register,
            ..*i
        }),
        Instruction::TwoSource(i) => Instruction::TwoSource(TwoSource { rd: register, ..*i }),
        Instruction::CountLeadingZeros(i) => Instruction::CountLeadingZeros(CountLeadingZeros {
            rd: register,
            ..*i
        }),
        Instruction::MultiplyAdd(i) => Instruction::MultiplyAdd(MultiplyAdd { rd: register, ..*i }),
        Instruction::MultiplyHigh(i) => Instruction::MultiplyHigh(MultiplyHigh {
            rd: register,
            ..*i
        }),
        other => *other,
    }
}

/// Whether a shifted operand's low half is that of the register's low half, shifted.
fn is_low(width: Width, shift: Shift, amount: u8) -> bool
    ensures { result ≡ true → amount < 32 ⊎ (width ≡ W) }
{
    width == Width::W || (shift == Shift::Lsl && amount < 32)
}

/// The extension of a W register that has the same low half.
fn narrow(extend: Extend) -> Extend {
    match extend {
        Extend::Uxtx => Extend::Uxtw,
        Extend::Sxtx => Extend::Sxtw,
        other => other,
    }
}

/// An instruction that computes the low half in w22, where one for W registers does.
pub(crate) fn into_offset(instruction: &Instruction) -> Option<Instruction>
    requires legal { IsLegal instruction.now }
    requires fits { AllFit (fields instruction.now) }
    ensures legal { IfSome result (λ i. IsLegal i) }
    ensures fits { IfSome result (λ i. AllFit (fields i)) }
    ensures computing { IfSome result (λ i. IsTrue (is_computing i)) }
{
    let width = Width::W;
    let rd = Register::new(OFFSET);
    match instruction {
        Instruction::AddSubImmediate(i) if !i.set_flags => {
            Some(Instruction::AddSubImmediate(AddSubImmediate { width, rd, ..*i }))
        }
        Instruction::AddSubExtended(i) if !i.set_flags => {
            Some(Instruction::AddSubExtended(AddSubExtended {
                width,
                extend: narrow(i.extend),
                rd,
                ..*i
            }))
        }
        Instruction::AddSubShifted(i) if !i.set_flags && is_low(i.width, i.shift, i.amount) => {
            Some(Instruction::AddSubShifted(AddSubShifted { width, rd, ..*i }))
        }
        Instruction::LogicalShifted(i)
            if i.operation != Logical::Ands && is_low(i.width, i.shift, i.amount) => {
            Some(Instruction::LogicalShifted(LogicalShifted { width, rd, ..*i }))
        }
        Instruction::MultiplyAdd(i) => {
            Some(Instruction::MultiplyAdd(MultiplyAdd { width, rd, ..*i }))
        }
        Instruction::MoveWide(i) if i.kind != MoveWideKind::Movk && i.hw < 2 => {
            Some(Instruction::MoveWide(MoveWide { width, rd, ..*i }))
        }
        _ => None,
    }
}

/// The register that an instruction copies, where it does nothing else.
pub(crate) fn source(instruction: &Instruction) -> Option<Register> {
    match instruction {
        Instruction::LogicalShifted(i)
            if i.operation == Logical::Orr
                && !i.invert
                && i.amount == 0
                && i.rn.number() == STACK => { but_zero(i.rm) }
        Instruction::AddSubImmediate(i) if !i.set_flags && i.imm12 == 0 => but_zero(i.rn),
        _ => None,
    }
}

//! Instructions that compute.

ghost use Rattle.std.specs.Prelude.{◌≡◌, ◌*ℤ◌, pos, if◌then◌else◌, Some};
ghost use Rattle.a64_word.specs.declared.instruction.Instruction.{Instruction};
ghost use Rattle.a64_text.specs.Texts as spec;

use crate::assembly::Assembly;
use crate::line::{Beside, Statement, Then};
use crate::names::{Bitwise, Selection, Sum};
use crate::operands::{
    Compared, Destination, Extended, FromHere, GeneralRegister, Number, RegisterOrStack, ShiftedBy,
    ShiftedLeft,
};
use a64_word::{
    AddSubExtended, AddSubImmediate, AddSubShifted, Bitfield, ConditionalCompare,
    ConditionalSelect, CountLeadingZeros, Extend, Logical, LogicalImmediate, LogicalShifted,
    MoveWide, MultiplyAdd, MultiplyHigh, PcRelative, TwoSource, Width,
};
use std::fmt;

impl fmt::Display for Assembly<AddSubImmediate> {
    ghost output = { λ i. Some (spec.text (Instruction.AddSubImmediate i.0)) };

    /// Writes the instruction, as `add sp, sp, #16`.
    fn fmt<W: fmt::Write>(&self, f: &mut fmt::Formatter<W>) -> fmt::Result {
        let name = Sum {
            subtract: self.0.subtract,
            set_flags: self.0.set_flags,
        };
        let rd = Destination {
            set_flags: self.0.set_flags,
            width: self.0.width,
            register: self.0.rd,
        };
        let rn = RegisterOrStack(self.0.width, self.0.rn);
        let shift = ShiftedLeft(if self.0.shifted { 12 } else { 0 });
        f.write(Statement(
            name,
            Then(rd, Then(rn, Beside(Number(self.0.imm12), shift))),
        ))
    }
}

/// A bitmask, where there is one.
#[derive(Clone, Copy)]
struct Mask(Option<u64>);

impl fmt::Display for Mask {
    ghost output = { λ mask. Some (spec.mask_text mask.0) };

    fn fmt<W: fmt::Write>(&self, f: &mut fmt::Formatter<W>) -> fmt::Result {
        match self.0 {
            Some(mask) => write!(f, "#0x{mask:x}"),
            None => f.write_str("#?"),
        }
    }
}

impl fmt::Display for Assembly<LogicalImmediate> {
    ghost output = { λ i. Some (spec.text (Instruction.LogicalImmediate i.0)) };

    /// Writes the instruction, as `and x0, x1, #0xff`.
    fn fmt<W: fmt::Write>(&self, f: &mut fmt::Formatter<W>) -> fmt::Result {
        let name = Bitwise {
            invert: false,
            operation: self.0.operation,
        };
        let set_flags = self.0.operation == Logical::Ands;
        let rd = Destination {
            set_flags,
            width: self.0.width,
            register: self.0.rd,
        };
        let rn = GeneralRegister(self.0.width, self.0.rn);
        f.write(Statement(name, Then(rd, Then(rn, Mask(self.0.mask_if_legal())))))
    }
}

impl fmt::Display for Assembly<MoveWide> {
    ghost output = { λ i. Some (spec.text (Instruction.MoveWide i.0)) };

    /// Writes the instruction, as `movz x0, #1, lsl #16`.
    fn fmt<W: fmt::Write>(&self, f: &mut fmt::Formatter<W>) -> fmt::Result {
        let rd = GeneralRegister(self.0.width, self.0.rd);
        let shift = ShiftedLeft(16 * u16::from(self.0.hw));
        f.write(Statement(
            Assembly(self.0.kind),
            Then(rd, Beside(Number(self.0.imm16), shift)),
        ))
    }
}

/// The place that ADR or ADRP names.
fn named_place(i: &PcRelative) -> FromHere
    ensures { result.0 ≡ i.now.offset *ℤ (if i.now.page then pos 4096 else pos 1) }
{
    let unit = if i.page { 4096 } else { 1 };
    FromHere(i64::from(i.offset) * unit)
}

impl fmt::Display for Assembly<PcRelative> {
    ghost output = { λ i. Some (spec.text (Instruction.PcRelative i.0)) };

    /// Writes the instruction, as `adr x0, .+12`.
    fn fmt<W: fmt::Write>(&self, f: &mut fmt::Formatter<W>) -> fmt::Result {
        let name = if self.0.page { "adrp" } else { "adr" };
        let rd = GeneralRegister(Width::X, self.0.rd);
        f.write(Statement(name, Then(rd, named_place(&self.0))))
    }
}

impl fmt::Display for Assembly<Bitfield> {
    ghost output = { λ i. Some (spec.text (Instruction.Bitfield i.0)) };

    /// Writes the instruction, as `ubfm x0, x1, #4, #63`.
    fn fmt<W: fmt::Write>(&self, f: &mut fmt::Formatter<W>) -> fmt::Result {
        let rd = GeneralRegister(self.0.width, self.0.rd);
        let rn = GeneralRegister(self.0.width, self.0.rn);
        let immr = Number(self.0.immr);
        let imms = Number(self.0.imms);
        f.write(Statement(Assembly(self.0.kind), Then(rd, Then(rn, Then(immr, imms)))))
    }
}

impl fmt::Display for Assembly<LogicalShifted> {
    ghost output = { λ i. Some (spec.text (Instruction.LogicalShifted i.0)) };

    /// Writes the instruction, as `orr x0, xzr, x1`.
    fn fmt<W: fmt::Write>(&self, f: &mut fmt::Formatter<W>) -> fmt::Result {
        let name = Bitwise {
            invert: self.0.invert,
            operation: self.0.operation,
        };
        let rd = GeneralRegister(self.0.width, self.0.rd);
        let rn = GeneralRegister(self.0.width, self.0.rn);
        let rm = GeneralRegister(self.0.width, self.0.rm);
        let shift = ShiftedBy(self.0.shift, self.0.amount);
        f.write(Statement(name, Then(rd, Then(rn, Beside(rm, shift)))))
    }
}

impl fmt::Display for Assembly<AddSubShifted> {
    ghost output = { λ i. Some (spec.text (Instruction.AddSubShifted i.0)) };

    /// Writes the instruction, as `add x0, x1, x2, lsl #3`.
    fn fmt<W: fmt::Write>(&self, f: &mut fmt::Formatter<W>) -> fmt::Result {
        let name = Sum {
            subtract: self.0.subtract,
            set_flags: self.0.set_flags,
        };
        let rd = GeneralRegister(self.0.width, self.0.rd);
        let rn = GeneralRegister(self.0.width, self.0.rn);
        let rm = GeneralRegister(self.0.width, self.0.rm);
        let shift = ShiftedBy(self.0.shift, self.0.amount);
        f.write(Statement(name, Then(rd, Then(rn, Beside(rm, shift)))))
    }
}

/// The width of a register that is extended: X where all its 64 bits count, of an operation of 64 bits.
fn extended_width(width: Width, extend: Extend) -> Width
    ensures { result ≡ spec.extended_width width extend }
{
    match (width, extend) {
        (Width::X, Extend::Uxtx) | (Width::X, Extend::Sxtx) => Width::X,
        _ => Width::W,
    }
}

impl fmt::Display for Assembly<AddSubExtended> {
    ghost output = { λ i. Some (spec.text (Instruction.AddSubExtended i.0)) };

    /// Writes the instruction, as `add x30, x21, w30, uxtw`.
    fn fmt<W: fmt::Write>(&self, f: &mut fmt::Formatter<W>) -> fmt::Result {
        let name = Sum {
            subtract: self.0.subtract,
            set_flags: self.0.set_flags,
        };
        let rd = Destination {
            set_flags: self.0.set_flags,
            width: self.0.width,
            register: self.0.rd,
        };
        let rn = RegisterOrStack(self.0.width, self.0.rn);
        let rm = GeneralRegister(extended_width(self.0.width, self.0.extend), self.0.rm);
        let extended = Extended(self.0.extend, self.0.amount);
        f.write(Statement(name, Then(rd, Then(rn, Then(rm, extended)))))
    }
}

impl fmt::Display for Assembly<ConditionalCompare> {
    ghost output = { λ i. Some (spec.text (Instruction.ConditionalCompare i.0)) };

    /// Writes the instruction, as `ccmp x0, #5, #2, eq`.
    fn fmt<W: fmt::Write>(&self, f: &mut fmt::Formatter<W>) -> fmt::Result {
        let name = if self.0.compare { "ccmp" } else { "ccmn" };
        let rn = GeneralRegister(self.0.width, self.0.rn);
        let second = Compared {
            immediate: self.0.immediate,
            width: self.0.width,
            register: self.0.rm,
        };
        let nzcv = Number(self.0.nzcv);
        let condition = Assembly(self.0.condition);
        f.write(Statement(name, Then(rn, Then(second, Then(nzcv, condition)))))
    }
}

impl fmt::Display for Assembly<ConditionalSelect> {
    ghost output = { λ i. Some (spec.text (Instruction.ConditionalSelect i.0)) };

    /// Writes the instruction, as `csel x0, x1, x2, ne`.
    fn fmt<W: fmt::Write>(&self, f: &mut fmt::Formatter<W>) -> fmt::Result {
        let name = Selection {
            invert: self.0.invert,
            increment: self.0.increment,
        };
        let rd = GeneralRegister(self.0.width, self.0.rd);
        let rn = GeneralRegister(self.0.width, self.0.rn);
        let rm = GeneralRegister(self.0.width, self.0.rm);
        let condition = Assembly(self.0.condition);
        f.write(Statement(name, Then(rd, Then(rn, Then(rm, condition)))))
    }
}

impl fmt::Display for Assembly<TwoSource> {
    ghost output = { λ i. Some (spec.text (Instruction.TwoSource i.0)) };

    /// Writes the instruction, as `udiv x0, x1, x2`.
    fn fmt<W: fmt::Write>(&self, f: &mut fmt::Formatter<W>) -> fmt::Result {
        let rd = GeneralRegister(self.0.width, self.0.rd);
        let rn = GeneralRegister(self.0.width, self.0.rn);
        let rm = GeneralRegister(self.0.width, self.0.rm);
        f.write(Statement(Assembly(self.0.kind), Then(rd, Then(rn, rm))))
    }
}

impl fmt::Display for Assembly<CountLeadingZeros> {
    ghost output = { λ i. Some (spec.text (Instruction.CountLeadingZeros i.0)) };

    /// Writes the instruction, as `clz x0, x1`.
    fn fmt<W: fmt::Write>(&self, f: &mut fmt::Formatter<W>) -> fmt::Result {
        let rd = GeneralRegister(self.0.width, self.0.rd);
        let rn = GeneralRegister(self.0.width, self.0.rn);
        f.write(Statement("clz", Then(rd, rn)))
    }
}

impl fmt::Display for Assembly<MultiplyAdd> {
    ghost output = { λ i. Some (spec.text (Instruction.MultiplyAdd i.0)) };

    /// Writes the instruction, as `madd x0, x1, x2, x3`.
    fn fmt<W: fmt::Write>(&self, f: &mut fmt::Formatter<W>) -> fmt::Result {
        let name = if self.0.subtract { "msub" } else { "madd" };
        let rd = GeneralRegister(self.0.width, self.0.rd);
        let rn = GeneralRegister(self.0.width, self.0.rn);
        let rm = GeneralRegister(self.0.width, self.0.rm);
        let ra = GeneralRegister(self.0.width, self.0.ra);
        f.write(Statement(name, Then(rd, Then(rn, Then(rm, ra)))))
    }
}

impl fmt::Display for Assembly<MultiplyHigh> {
    ghost output = { λ i. Some (spec.text (Instruction.MultiplyHigh i.0)) };

    /// Writes the instruction, as `umulh x0, x1, x2`.
    fn fmt<W: fmt::Write>(&self, f: &mut fmt::Formatter<W>) -> fmt::Result {
        let name = if self.0.unsigned { "umulh" } else { "smulh" };
        let rd = GeneralRegister(Width::X, self.0.rd);
        let rn = GeneralRegister(Width::X, self.0.rn);
        let rm = GeneralRegister(Width::X, self.0.rm);
        f.write(Statement(name, Then(rd, Then(rn, rm))))
    }
}

//! Loads and stores.

ghost use Rattle.std.specs.Prelude.{◌≡◌, ◌*◌, ◌^◌, ◌*ℤ◌, pos, Some};
ghost use Rattle.a64_word.specs.Operands.{size_code};
ghost use Rattle.a64_word.specs.declared.instruction.Instruction.{Instruction};
ghost use Rattle.a64_text.specs.Texts as spec;
ghost use Rattle.a64_text.specs.inner.Addresses.{based};

use crate::assembly::Assembly;
use crate::line::{Beside, Statement, Then};
use crate::names::AccessName;
use crate::operands::{Based, ExtendedIndex, GeneralRegister, RegisterOrStack};
use a64_word::{
    IndexExtend, IndexMode, Ordered, Pair, RegisterOffset, SignedOffset, Transfer, UnsignedOffset,
    Width,
};
use std::fmt;

/// How far a store or load at an unsigned offset is from its base, in bytes.
fn unsigned_offset(i: &UnsignedOffset) -> i64
    ensures { result ≡ pos (i.now.imm12 * 2 ^ size_code i.now.size) }
{
    i64::from(i.imm12) << i.size.code()
}

impl fmt::Display for Assembly<UnsignedOffset> {
    ghost output = { λ i. Some (spec.text (Instruction.UnsignedOffset i.0)) };

    /// Writes the instruction, as `ldr w1, [x19]`.
    fn fmt<W: fmt::Write>(&self, f: &mut fmt::Formatter<W>) -> fmt::Result {
        let name = AccessName {
            unscaled: false,
            transfer: self.0.transfer,
            size: self.0.size,
        };
        let rt = GeneralRegister(name.width(), self.0.rt);
        let address = Based::Offset(self.0.rn, unsigned_offset(&self.0));
        f.write(Statement(name, Then(rt, address)))
    }
}

impl fmt::Display for Assembly<Ordered> {
    ghost output = { λ i. Some (spec.text (Instruction.Ordered i.0)) };

    /// Writes the instruction, as `ldar x0, [x18]`.
    fn fmt<W: fmt::Write>(&self, f: &mut fmt::Formatter<W>) -> fmt::Result {
        let access = AccessName {
            unscaled: false,
            transfer: Transfer::Load,
            size: self.0.size,
        };
        let name = if self.0.load { "ldar" } else { "stlr" };
        let rt = GeneralRegister(access.width(), self.0.rt);
        let address = Based::Offset(self.0.rn, 0);
        f.write(Statement(Beside(name, access.end()), Then(rt, address)))
    }
}

/// Whether the offset is signed, and the base isn't changed.
fn is_unscaled(mode: IndexMode) -> bool
    ensures { result ≡ spec.is_unscaled mode }
{
    mode == IndexMode::Unscaled
}

/// The address of a store or load at a signed offset.
fn signed_address(i: &SignedOffset) -> Based
    ensures { based result ≡ spec.by_index_mode i.now.mode i.now.rn i.now.imm9 }
{
    Based::by_index_mode(i.mode, i.rn, i64::from(i.imm9))
}

impl fmt::Display for Assembly<SignedOffset> {
    ghost output = { λ i. Some (spec.text (Instruction.SignedOffset i.0)) };

    /// Writes the instruction, as `str x0, [sp, #-16]!`.
    fn fmt<W: fmt::Write>(&self, f: &mut fmt::Formatter<W>) -> fmt::Result {
        let name = AccessName {
            unscaled: is_unscaled(self.0.mode),
            transfer: self.0.transfer,
            size: self.0.size,
        };
        let rt = GeneralRegister(name.width(), self.0.rt);
        f.write(Statement(name, Then(rt, signed_address(&self.0))))
    }
}

/// The width of an index register.
fn index_width(extend: IndexExtend) -> Width
    ensures { result ≡ spec.index_width extend }
{
    match extend {
        IndexExtend::Uxtw | IndexExtend::Sxtw => Width::W,
        _ => Width::X,
    }
}

/// The address of an access at a base and an index.
#[derive(Clone, Copy)]
struct Indexed(RegisterOffset);

impl fmt::Display for Indexed {
    ghost output = { λ i. Some (spec.indexed i.0.rn i.0.rm i.0.extend i.0.scaled (size_code i.0.size)) };

    fn fmt<W: fmt::Write>(&self, f: &mut fmt::Formatter<W>) -> fmt::Result {
        let base = RegisterOrStack(Width::X, self.0.rn);
        let index = GeneralRegister(index_width(self.0.extend), self.0.rm);
        let amount = self.0.size.code();
        let extended = ExtendedIndex {
            extend: self.0.extend,
            scaled: self.0.scaled,
            amount,
        };
        write!(f, "[{base}, {index}{extended}]")
    }
}

impl fmt::Display for Assembly<RegisterOffset> {
    ghost output = { λ i. Some (spec.text (Instruction.RegisterOffset i.0)) };

    /// Writes the instruction, as `ldr x0, [x21, w1, uxtw]`.
    fn fmt<W: fmt::Write>(&self, f: &mut fmt::Formatter<W>) -> fmt::Result {
        let name = AccessName {
            unscaled: false,
            transfer: self.0.transfer,
            size: self.0.size,
        };
        let rt = GeneralRegister(name.width(), self.0.rt);
        f.write(Statement(name, Then(rt, Indexed(self.0))))
    }
}

/// How far a pair is from its base, in bytes.
fn pair_offset(i: &Pair) -> i64
    ensures { result ≡ i.now.imm7 *ℤ spec.pair_bytes i.now.width }
{
    match i.width {
        Width::W => i64::from(i.imm7) * 4,
        Width::X => i64::from(i.imm7) * 8,
    }
}

/// The address of a pair.
fn pair_address(i: &Pair) -> Based
    ensures { based result ≡ spec.by_pair_mode i.now.mode i.now.rn (i.now.imm7 *ℤ spec.pair_bytes i.now.width) }
{
    Based::by_pair_mode(i.mode, i.rn, pair_offset(i))
}

impl fmt::Display for Assembly<Pair> {
    ghost output = { λ i. Some (spec.text (Instruction.Pair i.0)) };

    /// Writes the instruction, as `stp x29, x30, [sp, #-16]!`.
    fn fmt<W: fmt::Write>(&self, f: &mut fmt::Formatter<W>) -> fmt::Result {
        let name = if self.0.load { "ldp" } else { "stp" };
        let rt = GeneralRegister(self.0.width, self.0.rt);
        let rt2 = GeneralRegister(self.0.width, self.0.rt2);
        f.write(Statement(name, Then(rt, Then(rt2, pair_address(&self.0)))))
    }
}

//! Branches and BRK.

ghost use Rattle.std.specs.Prelude.{◌≡◌, Some, nat_lt, if◌then◌else◌};
ghost use Rattle.a64_word.specs.declared.operands.Width.TheVariants.{W, X};
ghost use Rattle.a64_word.specs.declared.instruction.Instruction.{Instruction};
ghost use Rattle.a64_text.specs.Texts as spec;

use crate::assembly::Assembly;
use crate::line::{Beside, Statement, Then};
use crate::operands::{FromHere, GeneralRegister, Number};
use a64_word::{
    Branch, BranchRegister, Breakpoint, CompareBranch, ConditionalBranch, TestBranch, Width,
};
use std::fmt;

impl fmt::Display for Assembly<Branch> {
    ghost output = { λ i. Some (spec.text (Instruction.Branch i.0)) };

    /// Writes the instruction, as `bl .+8`.
    fn fmt<W: fmt::Write>(&self, f: &mut fmt::Formatter<W>) -> fmt::Result {
        let name = if self.0.link { "bl" } else { "b" };
        f.write(Statement(name, FromHere::words(self.0.offset)))
    }
}

impl fmt::Display for Assembly<ConditionalBranch> {
    ghost output = { λ i. Some (spec.text (Instruction.ConditionalBranch i.0)) };

    /// Writes the instruction, as `b.eq .-4`.
    fn fmt<W: fmt::Write>(&self, f: &mut fmt::Formatter<W>) -> fmt::Result {
        let name = Beside("b.", Assembly(self.0.condition));
        f.write(Statement(name, FromHere::words(self.0.offset)))
    }
}

impl fmt::Display for Assembly<CompareBranch> {
    ghost output = { λ i. Some (spec.text (Instruction.CompareBranch i.0)) };

    /// Writes the instruction, as `cbz w0, .+8`.
    fn fmt<W: fmt::Write>(&self, f: &mut fmt::Formatter<W>) -> fmt::Result {
        let name = if self.0.nonzero { "cbnz" } else { "cbz" };
        let rt = GeneralRegister(self.0.width, self.0.rt);
        f.write(Statement(name, Then(rt, FromHere::words(self.0.offset))))
    }
}

/// The width of a register of which this bit is tested.
fn tested_width(bit: u8) -> Width
    ensures { result ≡ (if nat_lt bit 32 then W else X) }
{
    if bit < 32 { Width::W } else { Width::X }
}

impl fmt::Display for Assembly<TestBranch> {
    ghost output = { λ i. Some (spec.text (Instruction.TestBranch i.0)) };

    /// Writes the instruction, as `tbz w0, #3, .-4`.
    fn fmt<W: fmt::Write>(&self, f: &mut fmt::Formatter<W>) -> fmt::Result {
        let name = if self.0.nonzero { "tbnz" } else { "tbz" };
        let rt = GeneralRegister(tested_width(self.0.bit), self.0.rt);
        let bit = Number(self.0.bit);
        f.write(Statement(name, Then(rt, Then(bit, FromHere::words(self.0.offset)))))
    }
}

impl fmt::Display for Assembly<BranchRegister> {
    ghost output = { λ i. Some (spec.text (Instruction.BranchRegister i.0)) };

    /// Writes the instruction, as `ret x30`.
    fn fmt<W: fmt::Write>(&self, f: &mut fmt::Formatter<W>) -> fmt::Result {
        f.write(Statement(Assembly(self.0.kind), GeneralRegister(Width::X, self.0.rn)))
    }
}

impl fmt::Display for Assembly<Breakpoint> {
    ghost output = { λ i. Some (spec.text (Instruction.Breakpoint i.0)) };

    /// Writes the instruction, as `brk #1`.
    fn fmt<W: fmt::Write>(&self, f: &mut fmt::Formatter<W>) -> fmt::Result {
        f.write(Statement("brk", Number(self.0.imm16)))
    }
}

//! Instructions of all classes.

ghost use Rattle.std.specs.Prelude.{Some};
ghost use Rattle.a64_text.specs.Texts.{text};

use crate::assembly::Assembly;
use a64_word::Instruction;
use std::fmt;

impl fmt::Display for Assembly<Instruction> {
    ghost output = { λ instruction. Some (text instruction.0) };

    /// Writes the instruction as an assembler reads it, as `ldr w1, [x19]`.
    fn fmt<W: fmt::Write>(&self, f: &mut fmt::Formatter<W>) -> fmt::Result {
        match self.0 {
            Instruction::AddSubImmediate(i) => f.write(Assembly(i)),
            Instruction::LogicalImmediate(i) => f.write(Assembly(i)),
            Instruction::MoveWide(i) => f.write(Assembly(i)),
            Instruction::PcRelative(i) => f.write(Assembly(i)),
            Instruction::Bitfield(i) => f.write(Assembly(i)),
            Instruction::LogicalShifted(i) => f.write(Assembly(i)),
            Instruction::AddSubShifted(i) => f.write(Assembly(i)),
            Instruction::AddSubExtended(i) => f.write(Assembly(i)),
            Instruction::ConditionalCompare(i) => f.write(Assembly(i)),
            Instruction::ConditionalSelect(i) => f.write(Assembly(i)),
            Instruction::TwoSource(i) => f.write(Assembly(i)),
            Instruction::CountLeadingZeros(i) => f.write(Assembly(i)),
            Instruction::MultiplyAdd(i) => f.write(Assembly(i)),
            Instruction::MultiplyHigh(i) => f.write(Assembly(i)),
            Instruction::Nop => f.write_str("nop"),
            Instruction::Branch(i) => f.write(Assembly(i)),
            Instruction::ConditionalBranch(i) => f.write(Assembly(i)),
            Instruction::CompareBranch(i) => f.write(Assembly(i)),
            Instruction::TestBranch(i) => f.write(Assembly(i)),
            Instruction::BranchRegister(i) => f.write(Assembly(i)),
            Instruction::Breakpoint(i) => f.write(Assembly(i)),
            Instruction::UnsignedOffset(i) => f.write(Assembly(i)),
            Instruction::SignedOffset(i) => f.write(Assembly(i)),
            Instruction::RegisterOffset(i) => f.write(Assembly(i)),
            Instruction::Pair(i) => f.write(Assembly(i)),
            Instruction::Ordered(i) => f.write(Assembly(i)),
        }
    }
}

//! The names of the classes.
use a64_word::Instruction;

/// The name of an instruction's class, or "none".
pub fn class_of(found: Option<Instruction>) -> &'static str {
    match found {
        None => "none",
        Some(Instruction::AddSubImmediate(_)) => "AddSubImmediate",
        Some(Instruction::LogicalImmediate(_)) => "LogicalImmediate",
        Some(Instruction::MoveWide(_)) => "MoveWide",
        Some(Instruction::PcRelative(_)) => "PcRelative",
        Some(Instruction::Bitfield(_)) => "Bitfield",
        Some(Instruction::LogicalShifted(_)) => "LogicalShifted",
        Some(Instruction::AddSubShifted(_)) => "AddSubShifted",
        Some(Instruction::AddSubExtended(_)) => "AddSubExtended",
        Some(Instruction::ConditionalCompare(_)) => "ConditionalCompare",
        Some(Instruction::ConditionalSelect(_)) => "ConditionalSelect",
        Some(Instruction::TwoSource(_)) => "TwoSource",
        Some(Instruction::CountLeadingZeros(_)) => "CountLeadingZeros",
        Some(Instruction::MultiplyAdd(_)) => "MultiplyAdd",
        Some(Instruction::MultiplyHigh(_)) => "MultiplyHigh",
        Some(Instruction::Nop) => "Nop",
        Some(Instruction::Branch(_)) => "Branch",
        Some(Instruction::ConditionalBranch(_)) => "ConditionalBranch",
        Some(Instruction::CompareBranch(_)) => "CompareBranch",
        Some(Instruction::TestBranch(_)) => "TestBranch",
        Some(Instruction::BranchRegister(_)) => "BranchRegister",
        Some(Instruction::Breakpoint(_)) => "Breakpoint",
        Some(Instruction::UnsignedOffset(_)) => "UnsignedOffset",
        Some(Instruction::SignedOffset(_)) => "SignedOffset",
        Some(Instruction::RegisterOffset(_)) => "RegisterOffset",
        Some(Instruction::Pair(_)) => "Pair",
        Some(Instruction::Ordered(_)) => "Ordered",
    }
}

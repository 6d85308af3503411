ghost use Rattle.std.specs.Prelude.{◌≡◌, IfSome, Some};

use crate::branch::{
    Branch, BranchRegister, Breakpoint, CompareBranch, ConditionalBranch, TestBranch,
};
use crate::data_immediate::{AddSubImmediate, Bitfield, LogicalImmediate, MoveWide, PcRelative};
use crate::data_register::{
    AddSubExtended, AddSubShifted, ConditionalCompare, ConditionalSelect, CountLeadingZeros,
    LogicalShifted, MultiplyAdd, MultiplyHigh, TwoSource,
};
use crate::fields::{bits, flag};
use crate::load_store::{Ordered, Pair, RegisterOffset, SignedOffset, UnsignedOffset};
use lfi_module::Profile;

/// An instruction, by its class.
#[derive(Clone, Copy)]
pub enum Instruction {
    AddSubImmediate(AddSubImmediate),
    LogicalImmediate(LogicalImmediate),
    MoveWide(MoveWide),
    PcRelative(PcRelative),
    Bitfield(Bitfield),
    LogicalShifted(LogicalShifted),
    AddSubShifted(AddSubShifted),
    AddSubExtended(AddSubExtended),
    ConditionalCompare(ConditionalCompare),
    ConditionalSelect(ConditionalSelect),
    TwoSource(TwoSource),
    CountLeadingZeros(CountLeadingZeros),
    MultiplyAdd(MultiplyAdd),
    MultiplyHigh(MultiplyHigh),
    Nop,
    Branch(Branch),
    ConditionalBranch(ConditionalBranch),
    CompareBranch(CompareBranch),
    TestBranch(TestBranch),
    BranchRegister(BranchRegister),
    Breakpoint(Breakpoint),
    UnsignedOffset(UnsignedOffset),
    SignedOffset(SignedOffset),
    RegisterOffset(RegisterOffset),
    Pair(Pair),
    Ordered(Ordered),
}

ghost use Rattle.a64_word.specs.Encoding.{Spells};
ghost use Rattle.a64_word.specs.Profiles.{is_of, SpellsIn};
ghost use Rattle.a64_word.specs.inner.Groups.{IsDataImmediate, IsDataRegister, IsBranch, IsLoadStore, DecodesGroup};

/// The instruction of "Data Processing -- Immediate" that a word spells, by bits 23 to 25.
fn data_immediate(word: u32) -> Option<Instruction>
    ensures { DecodesGroup IsDataImmediate word result }
{
    match bits(word, 23, 3) {
        0b000 | 0b001 => Some(Instruction::PcRelative(PcRelative::decode(word)?)),
        0b010 => Some(Instruction::AddSubImmediate(AddSubImmediate::decode(word)?)),
        0b100 => Some(Instruction::LogicalImmediate(LogicalImmediate::decode(word)?)),
        0b101 => Some(Instruction::MoveWide(MoveWide::decode(word)?)),
        0b110 => Some(Instruction::Bitfield(Bitfield::decode(word)?)),
        _ => None,
    }
}

/// The instruction of "Data Processing -- Register" that a word spells, by bit 28 and bits 21 to 24.
fn data_register(word: u32) -> Option<Instruction>
    ensures { DecodesGroup IsDataRegister word result }
{
    if !flag(word, 28) {
        return match bits(word, 21, 4) {
            0b1000 | 0b1010 | 0b1100 | 0b1110 => Some(Instruction::AddSubShifted(
                AddSubShifted::decode(word)?,
            )),
            0b1001 | 0b1011 | 0b1101 | 0b1111 => Some(Instruction::AddSubExtended(
                AddSubExtended::decode(word)?,
            )),
            _ => Some(Instruction::LogicalShifted(LogicalShifted::decode(word)?)),
        };
    }
    match bits(word, 21, 4) {
        0b0010 => Some(Instruction::ConditionalCompare(ConditionalCompare::decode(word)?)),
        0b0100 => Some(Instruction::ConditionalSelect(ConditionalSelect::decode(word)?)),
        0b0110 if flag(word, 30) => Some(Instruction::CountLeadingZeros(CountLeadingZeros::decode(
            word,
        )?)),
        0b0110 => Some(Instruction::TwoSource(TwoSource::decode(word)?)),
        0b1000 => Some(Instruction::MultiplyAdd(MultiplyAdd::decode(word)?)),
        0b1010 | 0b1110 => Some(Instruction::MultiplyHigh(MultiplyHigh::decode(word)?)),
        _ => None,
    }
}

/// The instruction of "Branches, Exception Generating and System instructions" that a word spells, by bits 29 to 31
/// and bits 24 and 25.
fn branch(word: u32) -> Option<Instruction>
    ensures { DecodesGroup IsBranch word result }
{
    match bits(word, 29, 3) {
        0b000 | 0b100 => Some(Instruction::Branch(Branch::decode(word)?)),
        0b001 | 0b101 if flag(word, 25) => Some(Instruction::TestBranch(TestBranch::decode(word)?)),
        0b001 | 0b101 => Some(Instruction::CompareBranch(CompareBranch::decode(word)?)),
        0b010 => Some(Instruction::ConditionalBranch(ConditionalBranch::decode(word)?)),
        0b110 if flag(word, 25) => Some(Instruction::BranchRegister(BranchRegister::decode(word)?)),
        0b110 if word == 0xD503201F => Some(Instruction::Nop),
        0b110 => Some(Instruction::Breakpoint(Breakpoint::decode(word)?)),
        _ => None,
    }
}

/// The instruction of "Loads and Stores" that a word spells, by bits 28, 29, 24 and 21.
fn load_store(word: u32) -> Option<Instruction>
    ensures { DecodesGroup IsLoadStore word result }
{
    if !flag(word, 28) {
        if flag(word, 29) {
            Some(Instruction::Pair(Pair::decode(word)?))
        } else {
            Some(Instruction::Ordered(Ordered::decode(word)?))
        }
    } else if flag(word, 24) {
        Some(Instruction::UnsignedOffset(UnsignedOffset::decode(word)?))
    } else if flag(word, 21) {
        Some(Instruction::RegisterOffset(RegisterOffset::decode(word)?))
    } else {
        Some(Instruction::SignedOffset(SignedOffset::decode(word)?))
    }
}

/// The instruction that a word spells, where there is one, of whatever profile.
///
/// The groups are those of the Arm manual's C4.1 "A64 instruction set encoding", by bits 25 to 28.
fn spelled(word: u32) -> Option<Instruction>
    ensures found { IfSome result (λ instruction. Spells instruction word) }
    ensures only { (instruction : Instruction) → Spells instruction word → result ≡ Some instruction }
{
    match bits(word, 25, 4) {
        0b1000 | 0b1001 => data_immediate(word),
        0b1010 | 0b1011 => branch(word),
        0b0100 | 0b0110 | 0b1100 | 0b1110 => load_store(word),
        0b0101 | 0b1101 => data_register(word),
        _ => None,
    }
}

/// Whether a profile has an instruction.
pub fn is_of(profile: Profile, instruction: &Instruction) -> bool
    ensures { result ≡ is_of profile instruction.now }
{
    match instruction {
        Instruction::Ordered(_) => profile == Profile::Two,
        _ => true,
    }
}

/// The instruction of a profile that a word spells, where there is one.
pub fn decode(word: u32, profile: Profile) -> Option<Instruction>
    ensures found { IfSome result (λ instruction. SpellsIn profile instruction word) }
    ensures only { (instruction : Instruction) → SpellsIn profile instruction word → result ≡ Some instruction }
{
    let found = spelled(word)?;
    if is_of(profile, &found) {
        Some(found)
    } else {
        None
    }
}

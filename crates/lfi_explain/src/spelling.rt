//! A word with the instruction that it spells.

ghost use Rattle.std.specs.Prelude.{◌≡◌, ◌<◌, Some};
ghost use Rattle.lfi_rules.specs.Rules.{writes};
ghost use Rattle.lfi_explain.specs.Spellings as spec;

use crate::digits::WordDigits;
use a64_effects::{Address, address_of, target, writes};
use a64_text::Assembly;
use a64_word::{Instruction, Register, decode};
use lfi_module::Profile;
use lfi_rules::registers::{FIRST_ADDRESS, SECOND_ADDRESS, THIRD_ADDRESS};
use lfi_rules::{Need, is_calm, meets, opens};
use std::fmt;

/// Whether an instruction writes a register, by its number.
#[tactic(auto, unfolding(lfi_rules::specs::Rules::written))]
pub(crate) fn is_written(instruction: &Instruction, number: u8) -> bool
    requires { number < 31 }
    ensures { result ≡ writes instruction.now number }
{
    writes(instruction).register(number).is_some()
}

/// The first of x18, x23 and x24 that an instruction writes.
fn first_written(instruction: &Instruction) -> Option<u8>
    ensures { result ≡ spec.first_written instruction.now }
{
    if is_written(instruction, FIRST_ADDRESS) {
        Some(FIRST_ADDRESS)
    } else if is_written(instruction, SECOND_ADDRESS) {
        Some(SECOND_ADDRESS)
    } else if is_written(instruction, THIRD_ADDRESS) {
        Some(THIRD_ADDRESS)
    } else {
        None
    }
}

/// A word, with the instruction of a profile that spells it, if one does.
#[derive(Clone, Copy)]
pub struct Spelling {
    /// The word.
    pub word: u32,
    /// The profile.
    pub profile: Profile,
    /// What spells it in the profile.
    pub instruction: Option<Instruction>,
    /// What spells it in the second profile.
    pub in_second: Option<Instruction>,
}

impl Spelling {
    /// The word with what spells it.
    pub fn of(word: u32, profile: Profile) -> Spelling
        ensures { spec.IsSpelling profile word result }
    {
        Spelling {
            word,
            profile,
            instruction: decode(word, profile),
            in_second: decode(word, Profile::Two),
        }
    }

    /// What the word asks of those after it.
    pub fn opens(&self) -> Need
        ensures { result ≡ spec.opened_by self.now }
    {
        match &self.instruction {
            Some(instruction) => opens(instruction, self.profile),
            None => Need::Nothing,
        }
    }

    /// Whether the word meets a need.
    pub fn meets(&self, need: Need) -> bool
        ensures { result ≡ spec.is_met_by self.now need }
    {
        match &self.instruction {
            Some(instruction) => meets(instruction, need),
            None => need == Need::Nothing,
        }
    }

    /// Whether the word may stand between a move of sp and its probe.
    pub fn is_calm(&self) -> bool
        ensures { result ≡ spec.is_calm_by self.now }
    {
        match &self.instruction {
            Some(instruction) => is_calm(instruction, self.profile),
            None => false,
        }
    }

    /// Where a load or store accesses memory; None for all else.
    pub fn address(&self) -> Option<Address>
        ensures { result ≡ spec.address_by self.now }
    {
        address_of(self.instruction.as_ref()?)
    }

    /// The place where a direct branch at a place goes, in words; None for all else.
    pub fn target(&self, place: u32) -> Option<i64>
        ensures { result ≡ spec.target_by self.now place }
    {
        target(self.instruction.as_ref()?, place)
    }

    /// The register through which a branch goes; None for all else.
    pub fn branch_register(&self) -> Option<Register>
        ensures { result ≡ spec.branch_register_by self.now }
    {
        match self.instruction {
            Some(Instruction::BranchRegister(i)) => Some(i.rn),
            _ => None,
        }
    }

    /// The first of x18, x23 and x24 that is written; None where none of them is.
    pub fn written_address(&self) -> Option<u8>
        ensures { result ≡ spec.written_address_by self.now }
    {
        let instruction = self.instruction.as_ref()?;
        first_written(instruction)
    }
}

impl fmt::Display for Spelling {
    ghost output = { λ spelling. Some (spec.spelling_text spelling) };

    /// Writes the assembly text, or `.inst 0x00000000` with the word where no instruction spells it.
    fn fmt<W: fmt::Write>(&self, f: &mut fmt::Formatter<W>) -> fmt::Result {
        match self.instruction {
            Some(instruction) => f.write(Assembly(instruction)),
            None => write!(f, ".inst 0x{}", WordDigits(self.word)),
        }
    }
}

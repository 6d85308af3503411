//! What mends promise, read from their definitions: where a part of one is dropped, or an edge of one moves, a law here isn't proved
//! any more.

ghost use Rattle.std.specs.Prelude.{◌≡◌, ◌+◌, ◌*◌, ◌^◌, ◌≤◌, ℕ, Bool, List, ◌∷◌};
ghost use Rattle.a64_semantics.specs.Accesses.{Touch};
ghost use Rattle.a64_semantics.specs.Registers.{x_at};
ghost use Rattle.a64_semantics.specs.declared.registers.Registers.{Registers};
ghost use Rattle.a64_word.specs.Profiles.{SpellsIn};
ghost use Rattle.a64_word.specs.declared.instruction.Instruction.{Instruction};
ghost use Rattle.lfi_mends.specs.Mends.{Leads};
ghost use Rattle.lfi_mends.specs.Outcomes.{Agree, InSlot, State};
ghost use Rattle.lfi_module.specs.declared.profile.Profile.{Profile};
ghost use Rattle.lfi_rules.specs.Faults.{Meets};
ghost use Rattle.lfi_rules.specs.Needs.{opens_of};
ghost use Rattle.lfi_rules.specs.Registers as registers;
ghost use Rattle.lfi_rules.specs.declared.needs.Need.{Need};

/// The first instruction of a mend meets what is open before it, and each later one what the one before it opens.
pub fn each_meets_what_is_open()
    ensures { (profile : Profile) (before after : Need) (i : Instruction) (rest : List Instruction) → Leads profile before (i ∷ rest) after → (word : ℕ) × SpellsIn profile i word × Meets profile word before × Leads profile (opens_of profile i) rest after }
{}

/// An access may begin with the first byte of its slot, and end with the last.
pub fn accesses_reach_both_ends()
    ensures { (r : Registers) (slot : ℕ) (touch : Touch) → x_at r registers.base ≡ slot * 2 ^ 32 → (slot + 1) * 2 ^ 32 ≤ 2 ^ 64 → slot * 2 ^ 32 ≤ touch.address → touch.address + touch.bytes ≤ (slot + 1) * 2 ^ 32 → InSlot r touch }
{}

/// A mend leaves x16 and x17 where they aren't told, and the registers that hold addresses, but for x18, as the word does.
pub fn registers_beside_two_are_as_the_word_leaves_them()
    ensures { (one two : State) → Agree one two → (x_at one.registers 16 ≡ x_at two.registers 16) × (x_at one.registers 17 ≡ x_at two.registers 17) × (x_at one.registers 21 ≡ x_at two.registers 21)
        × (x_at one.registers 23 ≡ x_at two.registers 23) × (x_at one.registers 24 ≡ x_at two.registers 24) × (x_at one.registers 30 ≡ x_at two.registers 30) }
{}

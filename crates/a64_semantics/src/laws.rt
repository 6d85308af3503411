//! What the definitions say together.

ghost use Rattle.std.specs.Prelude.{◌≡◌, ℕ, ◌+◌, ◌-◌, true, false, [], ◌∷◌, Some, pos, negsuc};
ghost use Rattle.a64_word.specs.declared.instruction.Instruction.{Instruction};
ghost use Rattle.a64_word.specs.declared.operands.PairMode.TheVariants.{PreIndex, PostIndex};
ghost use Rattle.a64_effects.specs.Effects.{writes_of};
ghost use Rattle.a64_semantics.specs.declared.registers.Registers.{Registers};
ghost use Rattle.a64_semantics.specs.Accesses.{touches, stored};
ghost use Rattle.a64_semantics.specs.Writes.{results_of, places_of};
ghost use Rattle.a64_semantics.specs.Steps.{registers_after};
ghost use Rattle.a64_semantics.specs.Pairs.{narrow_pair, holding, by_address};

/// An instruction writes the registers that its effects tell, as widely as they tell, and no other.
pub fn writes_what_is_told()
    ensures { (i : Instruction) (r : Registers) (memory : ℕ → ℕ) → places_of (results_of i r memory) ≡ writes_of i }
{}

/// Pairs of W registers that move their base, by rows: each register has 4 bytes, and the base moves by 4 bytes a unit, before
/// the access or after it.
pub fn narrow_pairs_move_their_base()
    ensures stored_at { touches (narrow_pair false PreIndex (negsuc 1)) (holding 0x8877665544332211 0xFFEEDDCCBBAA9988 0x1000 0) ≡ Some (record { address = 0xFF8; bytes = 8; stores = true }) }
    ensures stored { stored (narrow_pair false PreIndex (negsuc 1)) (holding 0x8877665544332211 0xFFEEDDCCBBAA9988 0x1000 0) ≡ 0x11 ∷ 0x22 ∷ 0x33 ∷ 0x44 ∷ 0x88 ∷ 0x99 ∷ 0xAA ∷ 0xBB ∷ [] }
    ensures moved_before { registers_after (narrow_pair false PreIndex (negsuc 1)) (holding 1 2 0x1000 0) by_address ≡ holding 1 2 0xFF8 4 }
    ensures loaded_at { touches (narrow_pair true PostIndex (pos 2)) (holding 1 2 0x1000 0) ≡ Some (record { address = 0x1000; bytes = 8; stores = false }) }
    ensures moved_after { registers_after (narrow_pair true PostIndex (pos 2)) (holding 1 2 0x1000 0) by_address ≡ holding 0x03020100 0x07060504 0x1008 4 }
    ensures loaded_before { registers_after (narrow_pair true PreIndex (pos 2)) (holding 1 2 0x1000 0) by_address ≡ holding 0x0B0A0908 0x0F0E0D0C 0x1008 4 }
    ensures least { registers_after (narrow_pair true PostIndex (negsuc 63)) (holding 1 2 0x1000 0) by_address ≡ holding 0x03020100 0x07060504 (0x1000 - 256) 4 }
    ensures greatest { registers_after (narrow_pair true PostIndex (pos 63)) (holding 1 2 0x1000 0) by_address ≡ holding 0x03020100 0x07060504 (0x1000 + 252) 4 }
{}

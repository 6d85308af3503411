//! What a step promises, read from the records of its contract: where one of these fields is dropped, a law here isn't proved any
//! more. And what an escape is in the last slot.

ghost use Rattle.std.specs.Prelude.{◌≡◌, ℕ, ◌+◌, ◌-◌, ◌*◌, ◌/◌, ◌^◌, ◌⊎◌, pos, negsuc, ◌∷◌, map, replicate, Some, None};
ghost use Rattle.a64_word.specs.declared.instruction.Instruction.TheVariants.{Nop};
ghost use Rattle.a64_word.specs.declared.operands.Size.TheVariants.{Byte, Double};
ghost use Rattle.a64_word.specs.declared.operands.BranchKind.TheVariants.{Br};
ghost use Rattle.sparse_memory.specs.Kept.{Kept, IsKept, KeepsOnly, SamePages};
ghost use Rattle.a64_semantics.specs.declared.registers.Registers.{Registers};
ghost use Rattle.lfi_confinement.specs.Moves.{word_at, performed, stop, escape};
ghost use Rattle.lfi_confinement.specs.Edges.{loads_at_x0, stores_at_x0, branches_by, goes_to, goes_on_at};
ghost use Rattle.lfi_confinement.specs.declared.cause.StopCause.TheVariants as cause;
ghost use Rattle.lfi_confinement.specs.Runs.{Reach, Escaped};
ghost use Rattle.lfi_machine.specs.Keeping.{KeepsByStep};
ghost use Rattle.lfi_machine.specs.Owned.{Owned};
ghost use Rattle.lfi_machine.specs.Runs.{Config, state, IsConfined};
ghost use Rattle.tests_machine.specs.LastSlot.{last_image, at_last};

/// A step at whose pc no word of the code stands keeps no page.
pub fn no_word_keeps_no_page()
    ensures { (r : Registers) (old new : Owned) → word_at old.image r.pc ≡ None → KeepsByStep r old new → SamePages old.kept new.kept }
{}

/// What stores bytes keeps their pages and no others; where none is stored no page is.
pub fn stores_keep_their_pages_alone()
    ensures none { (old new : Kept) (offset other : ℕ) → KeepsOnly old new offset 0 → IsKept new other → IsKept old other }
    ensures one { (old new : Kept) (other : ℕ) → KeepsOnly old new 65535 1 → IsKept new other → IsKept old other ⊎ (other / 65536 ≡ 0) }
{}

/// A confined machine has no run that escapes.
pub fn no_run_of_a_confined_machine_escapes()
    ensures { (c : Config) (count : ℕ) → IsConfined c → Reach c.owned.image (state c) count Escaped → ⊥ }
{}

/// In the last slot an access escapes just outside of the guards, and stops in them.
pub fn accesses_escape_from_the_last_slot()
    ensures below { map (performed last_image (at_last (31 * 2 ^ 32 + 65540) (31 * 2 ^ 32 - 65537))) (loads_at_x0 Byte ∷ stores_at_x0) ≡ replicate 5 escape }
    ensures low_guard { map (performed last_image (at_last (31 * 2 ^ 32 + 65540) (31 * 2 ^ 32 - 65536))) (loads_at_x0 Byte ∷ stores_at_x0) ≡ replicate 5 (stop (cause.NoAccess (31 * 2 ^ 32 - 65536))) }
    ensures high_guard { map (performed last_image (at_last (31 * 2 ^ 32 + 65540) (2 ^ 37 + 65535))) (loads_at_x0 Byte ∷ stores_at_x0) ≡ replicate 5 (stop (cause.NoAccess (2 ^ 37 + 65535))) }
    ensures above { map (performed last_image (at_last (31 * 2 ^ 32 + 65540) (2 ^ 37 + 65536))) (loads_at_x0 Byte ∷ stores_at_x0) ≡ replicate 5 escape }
    ensures double_out_above { performed last_image (at_last (31 * 2 ^ 32 + 65540) (2 ^ 37 + 65529)) (loads_at_x0 Double) ≡ escape }
{}

/// So does what leaves the last slot: a branch of each kind, and what goes on with the next word.
pub fn branches_escape_from_the_last_slot()
    ensures left_below { map (performed last_image (at_last (31 * 2 ^ 32) (31 * 2 ^ 32 + 69632))) (branches_by (negsuc 0)) ≡ replicate 7 escape }
    ensures first_word { map goes_on_at (map (performed last_image (at_last (31 * 2 ^ 32 + 4) (31 * 2 ^ 32 + 69632))) (branches_by (negsuc 0))) ≡ replicate 7 (Some (31 * 2 ^ 32)) }
    ensures last_word { map goes_on_at (map (performed last_image (at_last (2 ^ 37 - 8) (31 * 2 ^ 32 + 69632))) (branches_by (pos 1))) ≡ replicate 7 (Some (2 ^ 37 - 4)) }
    ensures left_above { map (performed last_image (at_last (2 ^ 37 - 4) (31 * 2 ^ 32 + 69632))) (branches_by (pos 1)) ≡ replicate 7 escape }
    ensures next_within { map goes_on_at (map (performed last_image (at_last (2 ^ 37 - 8) (31 * 2 ^ 32 + 69632))) (Nop ∷ loads_at_x0 Byte ∷ stores_at_x0)) ≡ replicate 6 (Some (2 ^ 37 - 4)) }
    ensures next_above { map (performed last_image (at_last (2 ^ 37 - 4) (31 * 2 ^ 32 + 69632))) (Nop ∷ loads_at_x0 Byte ∷ stores_at_x0) ≡ replicate 6 escape }
    ensures by_a_register_below { performed last_image (at_last (31 * 2 ^ 32 + 65540) (31 * 2 ^ 32 - 4)) (goes_to Br 0) ≡ escape }
    ensures by_a_register_above { performed last_image (at_last (31 * 2 ^ 32 + 65540) (2 ^ 37)) (goes_to Br 0) ≡ escape }
{}

//! What it comes to that a mend keeps the rules and does the same: laws against definitions that any instructions meet.

ghost use Rattle.std.specs.Prelude.{◌≡◌, true, false, ◌∷◌, []};
ghost use Rattle.a64_word.specs.declared.operands.Transfer.TheVariants.{Load, Store};
ghost use Rattle.a64_word.specs.declared.operands.IndexMode.TheVariants as index;
ghost use Rattle.a64_word.specs.declared.operands.PairMode.TheVariants as pairs;
ghost use Rattle.lfi_module.specs.declared.profile.Profile.{Profile};
ghost use Rattle.lfi_mends.specs.Mends.{KeepsRules};
ghost use Rattle.lfi_mends.specs.Outcomes.{DoesTheSame, DoesTheSameBounded, moves_bounded, moves_plainly};
ghost use Rattle.lfi_mends.specs.Edges.{moves_at_x1, loads_signed, loads_indexed, loads_pair, acquires, adds_one, goes_to, sets_flags};

/// No instructions at all don't do the same as a load or a store, whatever register it moves.
pub fn nothing_does_less()
    ensures load { ¬ (DoesTheSame [] [] (moves_at_x1 Load 0)) }
    ensures store { ¬ (DoesTheSame [] [] (moves_at_x1 Store 0)) }
    ensures bounded_load { ¬ (DoesTheSameBounded [] [] (moves_at_x1 Load 0)) }
    ensures bounded_store { ¬ (DoesTheSameBounded [] [] (moves_at_x1 Store 22)) }
    ensures first_address { ¬ (DoesTheSameBounded [] [] (moves_at_x1 Load 18)) }
    ensures offset { ¬ (DoesTheSameBounded [] [] (moves_at_x1 Load 22)) }
    ensures second_address { ¬ (DoesTheSameBounded [] [] (moves_at_x1 Load 23)) }
    ensures third_address { ¬ (DoesTheSameBounded [] [] (moves_at_x1 Load 24)) }
    ensures link { ¬ (DoesTheSameBounded [] [] (moves_at_x1 Load 30)) }
{}

/// Nor do instructions that do more than it: to another register, to sp, to the flags, or to memory.
pub fn more_is_not_the_same()
    ensures scratch { ¬ (DoesTheSame [] (moves_at_x1 Load 0 ∷ adds_one 16 16 ∷ []) (moves_at_x1 Load 0)) }
    ensures link { ¬ (DoesTheSame [] (moves_at_x1 Load 0 ∷ adds_one 30 30 ∷ []) (moves_at_x1 Load 0)) }
    ensures stack { ¬ (DoesTheSame [] (moves_at_x1 Load 0 ∷ adds_one 31 31 ∷ []) (moves_at_x1 Load 0)) }
    ensures flags { ¬ (DoesTheSame [] (moves_at_x1 Load 0 ∷ sets_flags ∷ []) (moves_at_x1 Load 0)) }
    ensures memory { ¬ (DoesTheSame [] (moves_at_x1 Load 0 ∷ moves_at_x1 Store 1 ∷ []) (moves_at_x1 Load 0)) }
    ensures bounded_free { ¬ (DoesTheSameBounded [] (moves_at_x1 Load 0 ∷ adds_one 15 15 ∷ []) (moves_at_x1 Load 0)) }
    ensures bounded_link { ¬ (DoesTheSameBounded [] (moves_at_x1 Load 0 ∷ adds_one 30 30 ∷ []) (moves_at_x1 Load 0)) }
    ensures bounded_stack { ¬ (DoesTheSameBounded [] (moves_at_x1 Load 0 ∷ adds_one 31 31 ∷ []) (moves_at_x1 Load 0)) }
    ensures bounded_flags { ¬ (DoesTheSameBounded [] (moves_at_x1 Load 0 ∷ sets_flags ∷ []) (moves_at_x1 Load 0)) }
{}

/// Which accesses are mended so that the mend does the same: with scratch registers alone that differ, and of any registers.
pub fn accesses_are_mended()
    ensures load { moves_plainly (moves_at_x1 Load 0) ≡ true }
    ensures store { moves_plainly (moves_at_x1 Store 30) ≡ true }
    ensures signed { moves_plainly (loads_signed index.Unscaled 31) ≡ true }
    ensures before { moves_plainly (loads_signed index.PreIndex 1) ≡ true }
    ensures after { moves_plainly (loads_signed index.PostIndex 1) ≡ true }
    ensures indexed { moves_plainly loads_indexed ≡ true }
    ensures pair { moves_plainly (loads_pair pairs.Offset 31 2) ≡ true }
    ensures pair_before { moves_plainly (loads_pair pairs.PreIndex 1 2) ≡ true }
    ensures ordered { moves_plainly (acquires 0) ≡ true }
    ensures bounded { moves_bounded (moves_at_x1 Load 22) ≡ true }
    ensures bounded_signed { moves_bounded (loads_signed index.PreIndex 31) ≡ true }
    ensures bounded_indexed { moves_bounded loads_indexed ≡ true }
    ensures bounded_pair { moves_bounded (loads_pair pairs.Offset 31 30) ≡ true }
    ensures bounded_pair_after { moves_bounded (loads_pair pairs.PostIndex 22 30) ≡ true }
    ensures bounded_ordered { moves_bounded (acquires 30) ≡ true }
{}

/// A word that breaks a rule by itself, or leaves a need open, keeps the rules nowhere.
pub fn unlawful_words_keep_no_rules()
    ensures access { (profile : Profile) → ¬ (KeepsRules profile (moves_at_x1 Load 0 ∷ [])) }
    ensures base { (profile : Profile) → ¬ (KeepsRules profile (adds_one 21 21 ∷ [])) }
    ensures address { (profile : Profile) → ¬ (KeepsRules profile (adds_one 18 18 ∷ [])) }
    ensures link { (profile : Profile) → ¬ (KeepsRules profile (adds_one 30 30 ∷ [])) }
    ensures offset { (profile : Profile) → ¬ (KeepsRules profile (adds_one 22 22 ∷ [])) }
    ensures stack { (profile : Profile) → ¬ (KeepsRules profile (adds_one 0 31 ∷ [])) }
    ensures branch { (profile : Profile) → ¬ (KeepsRules profile (goes_to 0 ∷ [])) }
    ensures open { (profile : Profile) → ¬ (KeepsRules profile (adds_one 31 31 ∷ [])) }
{}

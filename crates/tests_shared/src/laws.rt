//! What the board promises, read from its definitions: where a part of one is dropped, a law here isn't proved any more.

ghost use Rattle.std.specs.Prelude.{◌≡◌, ◌≤◌, ◌<◌, ℕ, List, ◌∷◌};
ghost use Rattle.lfi_board.specs.Knowledge.{Follows};
ghost use Rattle.lfi_board.specs.declared.knowledge.SeenWord.{SeenWord};
ghost use Rattle.lfi_module.specs.Numbers.{module_count};

/// A word that a seat has seen never falls, and a phase that it saw refused or done stays.
pub fn seen_words_stay()
    ensures later { (seen : SeenWord) (others : List SeenWord) (found : ℕ) → Follows (seen ∷ others) seen.word found → seen.number ≤ found }
    ensures phase { (seen : SeenWord) (others : List SeenWord) (found : ℕ) → Follows (seen ∷ others) seen.word found → seen.word < module_count → 2 ≤ seen.number → found ≡ seen.number }
    ensures others { (seen : SeenWord) (others : List SeenWord) (word found : ℕ) → Follows (seen ∷ others) word found → Follows others word found }
{}

//! Laws of explanations.

ghost use Rattle.std.specs.Prelude.{ℕ, ◌+◌, ◌-◌, ◌<◌, min, List, length, take, drop};
ghost use Rattle.lfi_explain.specs.declared.explanation.Explanation.{Explanation};
ghost use Rattle.lfi_explain.specs.declared.explanation.KnownFault.{KnownFault};
ghost use Rattle.lfi_explain.specs.Explanations.{ExplainsNear};

/// The words near a place explain its fault as all words do: the four before it, or as many as there are, it, and the next one.
pub fn near_words_are_enough()
    ensures { (ws : List ℕ) (place : ℕ) (known : KnownFault) (e : Explanation) → place < length ws
        → ExplainsNear (take (min place 4 + 2) (drop (place - 4) ws)) (min place 4) known e → ExplainsNear ws place known e }
{}

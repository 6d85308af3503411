//! Laws of what a sequencer holds.

ghost use Rattle.std.specs.Prelude.{◌≡◌, ◌≢◌, ℕ, ◌<◌, List, [], ◌∷◌, ◌++◌, length, ◌⊎◌, Option, Some, None};
ghost use Rattle.std.specs.List.Sorted.{IsPermutation};
ghost use Rattle.lfi_model.specs.Item.{ItemView};
ghost use Rattle.lfi_model.specs.Modules.{IsModule, Member, FitsAfter};
ghost use Rattle.lfi_sequence.specs.Come.{first_of};
ghost use Rattle.lfi_sequence.specs.declared.sequence.Sequence.{Sequence};
ghost use Rattle.lfi_sequence.specs.Sequenced.{Sequenced, waiting_in, told_by};
ghost use Rattle.lfi_sequence.specs.declared.sequence.BoardNotice.TheVariants.{Nothing};
ghost use Rattle.lfi_sequence.specs.declared.placing.Placing.{Placing};
ghost use Rattle.lfi_sequence.specs.Placed.{HandledBy};
ghost use Rattle.lfi_module.specs.Numbers.{module_count};
ghost use Rattle.lfi_queues.specs.Passes.{PassView, QueueId};
ghost use Rattle.lfi_sequence.specs.declared.lanes.Lanes.{Lanes};
ghost use Rattle.lfi_sequence.specs.Lanes.{AreNewLanes, row_at};
ghost use Rattle.lfi_sequence.specs.Handed.{AreLanes, SameLanes};

/// The first item of each ordinal that a sequencer took has come, or waits at its place; any other
/// was dropped.
pub fn come_or_waits()
    ensures { (s : Sequence) (taken : List ItemView) (sequenced : Sequenced s taken) (k : ℕ) (x : ItemView) → first_of taken k ≡ Some x → Member sequenced.come x ⊎ (waiting_in s k ≡ Some x) }
{}

/// Where a sequencer took a module's items, each once and no others, all have come in their order,
/// nothing waits, and none was a second of its ordinal.
pub fn all_placed()
    ensures come { (s : Sequence) (taken items : List ItemView) (sequenced : Sequenced s taken) → IsModule items → IsPermutation items taken → sequenced.come ≡ items }
    ensures waits { (s : Sequence) (taken items : List ItemView) → Sequenced s taken → IsModule items → IsPermutation items taken → (k : ℕ) → waiting_in s k ≡ None }
    ensures first { (taken items : List ItemView) → IsModule items → IsPermutation items taken → (x : ItemView) → Member taken x → first_of taken x.ordinal ≡ Some x }
    ensures count { (taken items : List ItemView) → IsPermutation items taken → length taken ≡ length items }
{}

/// The rows of passes that are made with new lanes are passes of these lanes.
pub fn rows_of_lanes()
    ensures { (verifiers k : ℕ) (made : Lanes) (row : List (PassView ItemView)) → AreNewLanes verifiers made → k < verifiers → row_at made.puts.items k ≡ Some row → AreLanes made.lanes.items row × (length row ≡ module_count) }
{}

/// A verifier's turn keeps that its passes are those of these lanes.
pub fn lanes_stay()
    ensures { (lanes : List QueueId) (old new : List (PassView ItemView)) → AreLanes lanes old → SameLanes old new → AreLanes lanes new }
{}

/// What was told of a module stays so, whatever comes after it.
pub fn told_stays()
    ensures { (m : ℕ) (before after : Option Placing) (come : List ItemView) (x : ItemView) → HandledBy m before come → HandledBy m after (come ++ x ∷ []) → FitsAfter come x → told_by before ≢ Nothing → told_by after ≡ told_by before }
{}

//! Laws of the parts of a stage: their makers and their turns keep what settling asks for.

ghost use Rattle.std.specs.Prelude.{◌≡◌, ℕ, ◌<◌, List, None, length};
ghost use Rattle.lfi_module.specs.Numbers.{module_count};
ghost use Rattle.lfi_queues.specs.Passes.{QueueId, IsSamePass, new_pass};
ghost use Rattle.lfi_sequence.specs.declared.sequencer.Sequencer.{Sequencer};
ghost use Rattle.lfi_sequence.specs.declared.sequencer.SequencerTurn.{SequencerTurn};
ghost use Rattle.lfi_sequence.specs.declared.verifier.Verifier.{Verifier};
ghost use Rattle.lfi_sequence.specs.Handed.{take_pass_of, lane_puts_of, hand_of, HandsOn, SameLanes, AreLanes};
ghost use Rattle.lfi_sequence.specs.Lanes.{new_row};
ghost use Rattle.lfi_sequence.specs.Turns.{lane_pass_of, seat_module_of, IsSequenced, LaneTaken};
ghost use Rattle.lfi_stage_model.specs.Workers.{IsVerifier, IsSequencer};

/// A new verifier with the new passes of its number is the one of that number; so is a new
/// sequencer with the new pass of its module's lane.
pub fn parts_are_new()
    ensures verifier { (intake : QueueId) (lanes : List QueueId) (k : ℕ) (v : Verifier) → k < intake.takers → take_pass_of v ≡ new_pass intake k → lane_puts_of v ≡ new_row lanes k → hand_of v ≡ None → IsVerifier intake lanes k v }
    ensures sequencer { (lane : QueueId) (m : ℕ) (s : Sequencer) → seat_module_of s ≡ m → lane_pass_of s ≡ new_pass lane 0 → IsSequenced s → IsSequencer lane m s }
{}

/// After a turn they are so still; a verifier also where it only looked at the board.
pub fn parts_stay()
    ensures verifier { (intake : QueueId) (lanes : List QueueId) (k : ℕ) (old new : Verifier) → IsVerifier intake lanes k old → IsSamePass (take_pass_of old) (take_pass_of new) → SameLanes (lane_puts_of old) (lane_puts_of new)
        → (HandsOn (take_pass_of old).items old → HandsOn (take_pass_of new).items new) → IsVerifier intake lanes k new }
    ensures looked { (intake : QueueId) (lanes : List QueueId) (k : ℕ) (old new : Verifier) → IsVerifier intake lanes k old → take_pass_of new ≡ take_pass_of old → lane_puts_of new ≡ lane_puts_of old → hand_of new ≡ hand_of old → IsVerifier intake lanes k new }
    ensures sequencer { (lane : QueueId) (m : ℕ) (old new : Sequencer) (did : SequencerTurn) → IsSequencer lane m old → LaneTaken did (lane_pass_of old) (lane_pass_of new) → (IsSequenced old → IsSequenced new)
        → seat_module_of new ≡ seat_module_of old → IsSequencer lane m new }
{}

/// The passes of a verifier are of these lanes, as its turns ask.
pub fn lanes_of_a_verifier()
    ensures { (intake : QueueId) (lanes : List QueueId) (k : ℕ) (v : Verifier) → IsVerifier intake lanes k v → length lanes ≡ module_count → AreLanes lanes (lane_puts_of v) }
{}

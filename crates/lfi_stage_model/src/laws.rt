//! Laws of the parts of a stage: single turns keep what `settle` asks of them.

ghost use Rattle.std.specs.Prelude.{◌≡◌, ℕ, List, Some, set, slice_get};
ghost use Rattle.lfi_board.specs.Calls.{Saw};
ghost use Rattle.lfi_board.specs.Knowledge.{ended_word};
ghost use Rattle.lfi_board.specs.Known.{board_id, board_of, sequencer_board, watcher_board, known_by_watcher};
ghost use Rattle.lfi_queues.specs.Passes.{QueueId};
ghost use Rattle.lfi_sequence.specs.declared.sequencer.Sequencer.{Sequencer};
ghost use Rattle.lfi_sequence.specs.declared.verifier.Verifier.{Verifier};
ghost use Rattle.lfi_sequence.specs.Handed.{seat_of as watch_seat_of};
ghost use Rattle.lfi_sequence.specs.Turns.{seat_of as sequencer_seat_of};
ghost use Rattle.lfi_receive.specs.declared.receiver.Receiver.{Receiver};
ghost use Rattle.lfi_receive.specs.declared.receiver.ReceiverTurn.{ReceiverTurn};
ghost use Rattle.lfi_receive.specs.Receivers.{pass_of, seat_of};
ghost use Rattle.lfi_receive.specs.Turns.{PutsAsTold};
ghost use Rattle.lfi_stage_model.specs.Workers.{IsVerifier, IsSequencer};
ghost use Rattle.lfi_stage_model.specs.declared.shared.Shared.{Shared};
ghost use Rattle.lfi_stage_model.specs.Shares.{intake_of, board_at, lanes_of};
ghost use Rattle.lfi_stage_model.specs.Parts.{IsReceiver, HasSeat, AreAllParts};

/// A receiver that took a turn, or was told the end, is receiver c still. That verifiers and
/// sequencers stay theirs is the law `parts_stay`.
pub fn receiver_stays()
    ensures turn { (shared : Shared) (c : ℕ) (old new : Receiver) (did : ReceiverTurn) → IsReceiver shared c old → PutsAsTold did (pass_of old) (pass_of new) → board_of (seat_of new) ≡ board_of (seat_of old) → IsReceiver shared c new }
    ensures end { (shared : Shared) (c : ℕ) (old new : Receiver) → IsReceiver shared c old → pass_of new ≡ pass_of old → seat_of new ≡ seat_of old → IsReceiver shared c new }
{}

/// A verifier that took a turn, or was told how many receivers have ended, has its seat still.
pub fn seat_stays()
    ensures turn { (shared : Shared) (old new : Verifier) → HasSeat shared old → watch_seat_of new ≡ watch_seat_of old → HasSeat shared new }
    ensures ended { (shared : Shared) (old new : Verifier) (count : ℕ) → HasSeat shared old → watcher_board (watch_seat_of new) ≡ watcher_board (watch_seat_of old) → Saw (known_by_watcher (watch_seat_of old)) (known_by_watcher (watch_seat_of new)) ended_word count → HasSeat shared new }
{}

/// All parts of a stage are so still where one of them is replaced by what it became.
pub fn all_parts_stay()
    ensures receiver { (shared : Shared) (receivers : List Receiver) (verifiers : List Verifier) (sequencers : List Sequencer) (c : ℕ) (r : Receiver) → AreAllParts shared receivers verifiers sequencers
        → IsReceiver shared c r → AreAllParts shared (set receivers c r) verifiers sequencers }
    ensures verifier { (shared : Shared) (receivers : List Receiver) (verifiers : List Verifier) (sequencers : List Sequencer) (k : ℕ) (v : Verifier) → AreAllParts shared receivers verifiers sequencers
        → IsVerifier (intake_of shared) (lanes_of shared) k v → AreAllParts shared receivers (set verifiers k v) sequencers }
    ensures sequencer { (shared : Shared) (receivers : List Receiver) (verifiers : List Verifier) (sequencers : List Sequencer) (m : ℕ) (s : Sequencer) → AreAllParts shared receivers verifiers sequencers
        → ((lane : QueueId) → slice_get (lanes_of shared) m ≡ Some lane → IsSequencer lane m s) → sequencer_board (sequencer_seat_of s) ≡ board_id (board_at shared) → AreAllParts shared receivers verifiers (set sequencers m s) }
{}

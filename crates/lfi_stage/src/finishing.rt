//! Receivers are brought to their end.

ghost use Rattle.std.specs.Prelude.{◌≡◌, ℕ, List, Some, IsTrue, IsSome};
ghost use Rattle.lfi_receive.specs.Receivers.{cause_of, claimed_by, StandsFor, IsFinished};
ghost use Rattle.lfi_stage_model.specs.Parts.{IsReceiver, AreReceivers, AreOthers};
ghost use Rattle.lfi_stage.specs.inner.Finished.{HasFinished, HaveFinished};

use crate::turning::turn_others;
use lfi_receive::{Receiver, ReceiverTurn};
use lfi_sequence::{OpenGate, Sequencer, Verifier};
use lfi_stage_model::Shared;
use std::sync::Wait;

/// One turn of a receiver whose input has ended: whether it has put all its items.
fn finish_once(receiver: &mut Receiver, shared: &Shared) -> bool
    requires ended { IsSome (cause_of receiver.old) }
    requires is { (c : ℕ) × IsReceiver shared.now c receiver.old }
    ensures stands { (bytes : List ℕ) → StandsFor receiver.old bytes → StandsFor receiver.new bytes }
    ensures finished { IsTrue result → IsFinished receiver.new }
    ensures cause { cause_of receiver.new ≡ cause_of receiver.old }
    ensures claimed { (m : ℕ) → claimed_by receiver.new m ≡ claimed_by receiver.old m }
    ensures is { (c : ℕ) → IsReceiver shared.now c receiver.old → IsReceiver shared.now c receiver.new }
{
    let (_, did) = receiver.turn(&shared.board, &shared.intake, &[]);
    did == ReceiverTurn::Finished
}

/// Ends a receiver that wasn't told the end, and turns it until it has put all that it makes; the
/// verifiers and sequencers make room.
fn finish<R: Wait>(
    rt: &R,
    receiver: &mut Receiver,
    verifiers: &mut Vec<Verifier>,
    sequencers: &mut Vec<Sequencer>,
    shared: &Shared,
)
    requires is { (c : ℕ) × IsReceiver shared.now c receiver.old }
    requires others { AreOthers shared.now verifiers.old.items sequencers.old.items }
    ensures finished { HasFinished receiver.old receiver.new }
    ensures is { (c : ℕ) → IsReceiver shared.now c receiver.old → IsReceiver shared.now c receiver.new }
    ensures others { AreOthers shared.now verifiers.new.items sequencers.new.items }
{
    receiver.end(false);
    for _ in rt.forever() {
        if finish_once(receiver, shared) {
            return;
        }
        turn_others(rt, verifiers, sequencers, shared, &OpenGate);
    }
    unreachable!()
}

/// Brings all receivers to their end.
pub(crate) fn finish_all<R: Wait>(
    rt: &R,
    receivers: &mut Vec<Receiver>,
    verifiers: &mut Vec<Verifier>,
    sequencers: &mut Vec<Sequencer>,
    shared: &Shared,
)
    requires receivers { AreReceivers shared.now receivers.old.items }
    requires others { AreOthers shared.now verifiers.old.items sequencers.old.items }
    ensures receivers { AreReceivers shared.now receivers.new.items }
    ensures finished { HaveFinished receivers.old.items receivers.new.items }
    ensures others { AreOthers shared.now verifiers.new.items sequencers.new.items }
{
    for number in 0..receivers.len() {
        finish(rt, &mut receivers[number], verifiers, sequencers, shared);
    }
}

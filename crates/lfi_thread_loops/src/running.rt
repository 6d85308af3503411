//! How the parts of a stage come back from their threads.

ghost use Rattle.std.specs.Prelude.{◌≡◌, ℕ, Ok, Some, IfOk, length, slice_get};
ghost use Rattle.lfi_receive.specs.declared.receiver.Receiver.{Receiver};
ghost use Rattle.lfi_sequence.specs.declared.verifier.Verifier.{Verifier};
ghost use Rattle.lfi_receive.specs.Inputs.{left_of};
ghost use Rattle.lfi_stage_model.specs.Parts.{IsReceiver};
ghost use Rattle.lfi_thread_loops.specs.Heard.{HasHeard};
ghost use Rattle.lfi_thread_loops.specs.Seated.{AreVerifiersOf, HasEnded};
ghost use Rattle.lfi_thread_loops.specs.declared.promises.PartExit.TheVariants as exit;
ghost use Rattle.lfi_thread_loops.specs.inner.PartIds.{AreAt};
ghost use Rattle.lfi_thread_loops.specs.inner.Workers.{AreSequencersOf};

use crate::env::Env;
use crate::promises::{PartExit, Placed, ReceiverThread, VerifierThread};
use lfi_receive::Receiver;
use lfi_sequence::{Sequencer, Verifier};
use lfi_stage_model::Parts;
use lfi_sync::{LoadError, join_all};
use std::alloc::Global;
use std::io::Read;
use std::thread::{Promise, PromisedHandle, Threads};

/// The parts of these threads. Where one of them gave up, it is why it was told to; else only memory can
/// be refused.
fn all_back<T: Drop>(alloc: Global, exits: Vec<PartExit<T>>) -> Result<Vec<T>, LoadError>
    ensures count { IfOk result (λ parts. length parts.items ≡ length exits.items) }
    ensures ended { IfOk result (λ parts. (k : ℕ) (part : T) → slice_get parts.items k ≡ Some part → slice_get exits.items k ≡ Some (exit.Ended part)) }
{
    let mut parts = Vec::new(alloc);
    for left in exits {
        match left {
            PartExit::Ended(part) => parts.push(part)?,
            PartExit::GaveUp(stopped) => return Err(stopped.why()),
        }
    }
    Ok(parts)
}

/// Joins the threads of all parts of a kind. Where one of them gave up, it is why it was told to.
fn join_each<S: Threads, G, N, T: Drop, P: Promise<PartExit<T>>>(
    env: &Env<'_, S, G, N>,
    threads: Vec<PromisedHandle<PartExit<T>, P>>,
) -> Result<Vec<T>, LoadError>
    ensures count { IfOk result (λ parts. length parts.items ≡ length threads.items) }
    ensures kept { IfOk result (λ parts. (k : ℕ) (part : T) → slice_get parts.items k ≡ Some part → (thread : _) × (slice_get threads.items k ≡ Some thread) × P.kept_by thread.promise (exit.Ended part)) }
{
    let exits = join_all(env.rt, threads)?;
    all_back(env.alloc, exits)
}

/// All parts, where all of them are there.
fn parts_of(
    receivers: Result<Vec<Receiver>, LoadError>,
    verifiers: Result<Vec<Verifier>, LoadError>,
    sequencers: Vec<Sequencer>,
) -> Result<Parts, LoadError>
    ensures receivers { IfOk result (λ parts. receivers ≡ Ok parts.receivers) }
    ensures verifiers { IfOk result (λ parts. verifiers ≡ Ok parts.verifiers) }
    ensures sequencers { IfOk result (λ parts. parts.sequencers ≡ sequencers) }
{
    Ok(Parts {
        receivers: receivers?,
        verifiers: verifiers?,
        sequencers,
    })
}

/// Joins the threads of all receivers and of all verifiers, once the sequencers' loop has ended with this. Where a thread gave
/// up, it is why it was told to.
pub(crate) fn join_parts<S: Threads, R: Read + Drop, G, N>(
    env: &Env<'_, S, G, N>,
    receiving: Vec<ReceiverThread<'_, R>>,
    verifying: Vec<VerifierThread<'_>>,
    placed: Placed,
) -> Result<Parts, LoadError>
    requires receiving { AreAt env.now.shared.now receiving.items (λ h. h.promise.part) }
    requires verifying { AreAt env.now.shared.now verifying.items (λ h. h.promise.part) }
    requires placed { AreSequencersOf env.now.shared.now placed.sequencers.items }
    ensures receiver_count { IfOk result (λ parts. length parts.receivers.items ≡ length receiving.entry.items) }
    ensures receivers { IfOk result (λ parts. (k : ℕ) (r : Receiver) → slice_get parts.receivers.items k ≡ Some r → IsReceiver env.entry.now.shared.now k r) }
    ensures heard { IfOk result (λ parts. (k : ℕ) (r : Receiver) (h : _) → slice_get parts.receivers.items k ≡ Some r → slice_get receiving.entry.items k ≡ Some h → HasHeard (left_of R.remaining h.promise.input.value) r) }
    ensures verifier_count { IfOk result (λ parts. length parts.verifiers.items ≡ length verifying.entry.items) }
    ensures verifiers { IfOk result (λ parts. AreVerifiersOf env.entry.now.shared.now parts.verifiers.items) }
    ensures ended { IfOk result (λ parts. (k : ℕ) (v : Verifier) → slice_get parts.verifiers.items k ≡ Some v → HasEnded env.entry.now.shared.now v) }
    ensures sequencers { IfOk result (λ parts. AreSequencersOf env.entry.now.shared.now parts.sequencers.items) }
{
    let receivers = join_each(env, receiving);
    let verifiers = join_each(env, verifying);
    parts_of(receivers, verifiers, placed.sequencers)
}

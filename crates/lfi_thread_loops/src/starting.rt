//! Threads are started, one a part.

ghost use Rattle.std.specs.Prelude.{◌≡◌, ℕ, [], Ok, Some, IsOk, IfOk, IfErr, OnOk, length, slice_get};
ghost use Rattle.lfi_receive.specs.declared.receiver.Receiver.{Receiver};
ghost use Rattle.lfi_stage_model.specs.Parts.{IsReceiver};
ghost use Rattle.lfi_stage_model.specs.Fresh.{IsFresh};
ghost use Rattle.lfi_thread_loops.specs.inner.PartIds.{AreAt};
ghost use Rattle.lfi_thread_loops.specs.Seated.{AreVerifiersOf, IsVerifierOf};
ghost use Rattle.lfi_thread_loops.specs.inner.Workers.{AreSequencersOf};

use crate::env::Env;
use crate::notices::Notices;
use crate::promises::{
    AllPlaced, HeardBy, PartId, ReceiverThread, SequencersThread, VerifiedBy, VerifierThread,
};
use crate::receiver_loop::receive_loop;
use crate::sequencer_loop::sequence_loop;
use crate::verifier_loop::verify_loop;
use lfi_receive::{Input, Receiver};
use lfi_sequence::{Gate, Sequencer, Verifier};
use lfi_sync::{Lifecycle, LoadError, keep};
use std::io::Read;
use std::snapshot::Snapshot;
use std::sync::Wait;
use std::thread::{Scope, Threads};

/// The handle of a thread that was to be started. Where it is refused, all are told to stop.
fn handle_of<H, E: Drop>(lifecycle: &Lifecycle, spawned: Result<H, E>) -> Result<H, LoadError>
    ensures handle { IfOk result (λ handle. spawned ≡ Ok handle) }
    ensures refused { IfErr result (λ why. why ≡ LoadError.NoThread) }
{
    match spawned {
        Ok(handle) => Ok(handle),
        Err(_) => Err(lifecycle.stop(LoadError::NoThread)),
    }
}

/// Starts the thread of the receiver with this number. Where it is refused, all are told to stop.
pub(crate) fn start_receiver<
    's,
    'e: 's,
    S: Wait + Sync,
    R: Read + Send + Drop + 'e,
    G,
    N: Notices + Sync,
>(
    scope: &Scope<'s, &'e ()>,
    env: &Env<'e, S, G, N>,
    number: usize,
    receiver: Receiver,
    input: Input<R>,
) -> Result<ReceiverThread<'e, R>, LoadError>
    requires is { IsReceiver env.now.shared.now number receiver }
    requires fresh { IsFresh receiver }
    ensures promised { IfOk result (λ handle. (handle.promise.part.shared.now ≡ env.entry.now.shared.now) × (handle.promise.part.number ≡ number) × (handle.promise.input.value ≡ input)) }
    ensures refused { IfErr result (λ why. why ≡ LoadError.NoThread) }
{
    let Env {
        rt,
        shared,
        lifecycle,
        notices,
        ..
    } = *env;
    let part = PartId { shared, number };
    let promise = HeardBy {
        part,
        input: Snapshot::of(&input),
    };
    let spawned = scope.spawn_with(
        promise,
        move || receive_loop(rt, part, lifecycle, notices, receiver, input),
    );
    handle_of(lifecycle, spawned)
}

/// Starts the threads of all receivers, each with the input of its number, where those of the
/// verifiers were started. Where one or memory is refused, all are told to stop.
pub(crate) fn start_receivers<
    's,
    'e: 's,
    S: Threads + Wait + Sync,
    R: Read + Send + Drop + 'e,
    G,
    N: Notices + Sync,
>(
    scope: &Scope<'s, &'e ()>,
    env: &Env<'e, S, G, N>,
    verifying: Result<(), LoadError>,
    receivers: Vec<Receiver>,
    inputs: Vec<Input<R>>,
    handles: &mut Vec<ReceiverThread<'e, R>>,
) -> Result<(), LoadError>
    requires is { (k : ℕ) (r : Receiver) → slice_get receivers.items k ≡ Some r → IsReceiver env.now.shared.now k r × IsFresh r }
    requires inputs { length inputs.items ≡ length receivers.items }
    requires none { handles.old.items ≡ [] }
    ensures numbered { AreAt env.entry.now.shared.now handles.new.items (λ h. h.promise.part) }
    ensures inputs { (k : ℕ) (h : _) → slice_get handles.new.items k ≡ Some h → slice_get inputs.items k ≡ Some h.promise.input.value }
    ensures all { OnOk result (length handles.new.items ≡ length receivers.items) }
    ensures verifying { OnOk result (IsOk verifying) }
{
    verifying?;
    let mut inputs = inputs.into_iter();
    for receiver in receivers {
        let number = handles.len();
        let input = inputs.next().unwrap();
        let handle = start_receiver(scope, env, number, receiver, input);
        keep(env.lifecycle, handles, handle)?;
    }
    Ok(())
}

/// Starts the thread of the verifier with this number. Where it is refused, all are told to stop.
fn start_verifier<'s, 'e: 's, S: Wait + Sync, G: Gate + Sync, N>(
    scope: &Scope<'s, &'e ()>,
    env: &Env<'e, S, G, N>,
    number: usize,
    verifier: Verifier,
) -> Result<VerifierThread<'e>, LoadError>
    requires is { IsVerifierOf env.now.shared.now number verifier }
    ensures promised { IfOk result (λ handle. (handle.promise.part.shared.now ≡ env.entry.now.shared.now) × (handle.promise.part.number ≡ number)) }
    ensures refused { IfErr result (λ why. why ≡ LoadError.NoThread) }
{
    let Env {
        rt,
        shared,
        lifecycle,
        gate,
        ..
    } = *env;
    let promise = VerifiedBy {
        part: PartId { shared, number },
    };
    let spawned = scope.spawn_with(
        promise,
        move || verify_loop(rt, shared, number, lifecycle, gate, verifier),
    );
    handle_of(lifecycle, spawned)
}

/// Starts the threads of all verifiers. Where one or memory is refused, all are told to stop.
pub(crate) fn start_verifiers<'s, 'e: 's, S: Threads + Wait + Sync, G: Gate + Sync, N>(
    scope: &Scope<'s, &'e ()>,
    env: &Env<'e, S, G, N>,
    verifiers: Vec<Verifier>,
    handles: &mut Vec<VerifierThread<'e>>,
) -> Result<(), LoadError>
    requires are { AreVerifiersOf env.now.shared.now verifiers.items }
    requires none { handles.old.items ≡ [] }
    ensures numbered { AreAt env.entry.now.shared.now handles.new.items (λ h. h.promise.part) }
    ensures all { OnOk result (length handles.new.items ≡ length verifiers.items) }
{
    for verifier in verifiers {
        let number = handles.len();
        let handle = start_verifier(scope, env, number, verifier);
        keep(env.lifecycle, handles, handle)?;
    }
    Ok(())
}

/// Starts the thread of all sequencers.
pub(crate) fn start_sequencers<'s, 'e: 's, S: Wait + Sync, G, N>(
    scope: &Scope<'s, &'e ()>,
    env: &Env<'e, S, G, N>,
    sequencers: Vec<Sequencer>,
) -> Result<SequencersThread<'e>, LoadError>
    requires are { AreSequencersOf env.now.shared.now sequencers.items }
    ensures promised { IfOk result (λ handle. handle.promise.shared.now ≡ env.entry.now.shared.now) }
    ensures refused { IfErr result (λ why. why ≡ LoadError.NoThread) }
{
    let Env {
        rt,
        shared,
        lifecycle,
        ..
    } = *env;
    let spawned = scope.spawn_with(
        AllPlaced { shared },
        move || sequence_loop(rt, shared, lifecycle, sequencers),
    );
    handle_of(lifecycle, spawned)
}

//! What threads promise of the parts that they give back.

use lfi_receive::{Input, Receiver};
use lfi_sequence::{Sequencer, Verifier};
use lfi_stage_model::Shared;
use lfi_sync::{Stopped, Verified};
use std::io::Read;
use std::snapshot::Snapshot;
use std::thread::{Promise, PromisedHandle};

/// Which part: the stage, and the part's number there.
#[derive(Clone, Copy)]
pub(crate) struct PartId<'a> {
    pub(crate) shared: &'a Shared,
    pub(crate) number: usize,
}

/// How the thread of a part ended.
#[derive(Drop)]
pub(crate) enum PartExit<T> {
    /// The part has done all that was to be done.
    Ended(T),
    /// It gave up, since the threads are to stop.
    GaveUp(Stopped),
}

/// The thread gives back this verifier, once all receivers have ended, or it gave up.
#[derive(Drop)]
pub(crate) struct VerifiedBy<'a> {
    pub(crate) part: PartId<'a>,
}

impl<'a> Promise<PartExit<Verifier>> for VerifiedBy<'a> {
    ghost use Rattle.lfi_thread_loops.specs.inner.Workers.{IsVerifiedBy};

    ghost kept_by = { λ p e. IsVerifiedBy p.part.shared.now p.part.number e };
}

/// The thread gives back this receiver, which has heard what this input had, or it gave
/// up.
#[derive(Drop)]
pub(crate) struct HeardBy<'a, R> {
    pub(crate) part: PartId<'a>,
    pub(crate) input: Snapshot<Input<R>>,
}

impl<'a, R: Read> Promise<PartExit<Receiver>> for HeardBy<'a, R> {
    ghost use Rattle.lfi_receive.specs.Inputs.{left_of};
    ghost use Rattle.lfi_thread_loops.specs.inner.Hearing.{IsHeardBy};

    ghost kept_by = { λ p h. IsHeardBy p.part.shared.now p.part.number (left_of R.remaining p.input.value) h };
}

/// All sequencers, once their thread was told that no more judged items come, or that all are to stop.
#[derive(Drop)]
pub(crate) struct Placed {
    pub(crate) sequencers: Vec<Sequencer>,
    /// What it was told. Nobody asks for it: that it is there shows that the thread didn't end by itself.
    pub(crate) told: Verified,
}

/// The thread gives back all sequencers of the stage.
#[derive(Clone, Copy)]
pub(crate) struct AllPlaced<'a> {
    pub(crate) shared: &'a Shared,
}

impl<'a> Promise<Placed> for AllPlaced<'a> {
    ghost use Rattle.lfi_thread_loops.specs.inner.Workers.{AreSequencersOf};

    ghost kept_by = { λ p placed. AreSequencersOf p.shared.now placed.sequencers.items };
}

pub(crate) type ReceiverThread<'a, R> = PromisedHandle<PartExit<Receiver>, HeardBy<'a, R>>;

pub(crate) type VerifierThread<'a> = PromisedHandle<PartExit<Verifier>, VerifiedBy<'a>>;

pub(crate) type SequencersThread<'a> = PromisedHandle<Placed, AllPlaced<'a>>;

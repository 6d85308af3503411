//! The intake: the queue from those who make items to those who judge them. Each putter has a part
//! of its own, and each taker takes from all parts. Putting and taking never wait.

ghost use Rattle.std.specs.Prelude.{◌≡◌, ◌+◌, ◌≤◌, ◌<◌, [], ◌∷◌, ◌++◌, length, IfOk, OnOk, IfErr, ⊤};
ghost use Rattle.lfi_queues.specs.Passes.{new_passes, IsSamePass, GetsItem, FindsNone, AsksAgain};
ghost use Rattle.lfi_queues.specs.Taken.{MatchTaken};

use crate::making::{HomeOf, NoItems, new_owners, new_takers, put_passes, take_passes};
use crate::part::{Home, Owner, PartLook, PartPuts};
use crate::pass::Next;
use crate::round::TakeEnds;
use lfi_auxiliary::Auxiliary;
use std::alloc::{AllocError, Global};
use std::collections::LinkedList;
use std::marker::Model;

/// How many items each putter's part has room for at first.
pub(crate) const ROOM: usize = 256;

/// What a take answered.
#[derive(Drop)]
pub enum Taken<T> {
    /// The item that was taken.
    Item(T),
    /// There was none.
    Empty,
    /// Another taker came between: take again.
    Again,
}

/// The right to put to an intake. It can be sent to another thread.
#[derive(Drop)]
pub struct PutPass<T> {
    pub(crate) owner: Owner<T>,
    pub(crate) home: Auxiliary<Home>,
    pub(crate) number: Auxiliary<u64>,
    pub(crate) calls: Auxiliary<u64>,
}

impl<T> Model for PutPass<T> {
    ghost use Rattle.std.specs.Prelude.{◌≡◌, ◌≤◌, Some, length, slice_get};
    ghost use Rattle.crossbeam_deque.specs.Handles.{worker_deque, worker_view, worker_index, worker_capacity, worker_flavor};
    ghost use Rattle.lfi_queues.specs.Passes.{PassView, no_rounds};

    ghost Value = { PassView T };

    ghost use Rattle.lfi_queues.specs.inner.Ports.{items_of};
    ghost use Rattle.lfi_queues.specs.inner.Parts.{intake_id, owning};

    ghost view = { λ p. record { queue = intake_id p.home.value; number = p.number.value; calls = p.calls.value; items = items_of (worker_view p.owner).puts; rounds = no_rounds (intake_id p.home.value) } };

    ghost invariant = { λ p. (worker_view p.owner ≡ owning p.home.value.takers (items_of (worker_view p.owner).puts)) × (slice_get p.home.value.parts p.number.value ≡ Some (worker_deque p.owner).0) × (256 ≤ worker_capacity p.owner) × (worker_index p.owner ≤ length (items_of (worker_view p.owner).puts)) × (worker_flavor p.owner ≡ 0) };
}

/// The right to take from an intake. It can be sent to another thread.
#[derive(Drop)]
pub struct TakePass<T> {
    pub(crate) ends: TakeEnds<T>,
}

impl<T> Model for TakePass<T> {
    ghost use Rattle.lfi_queues.specs.Passes.{PassView};

    ghost Value = { PassView T };

    ghost use Rattle.lfi_queues.specs.inner.Parts.{take_pass, IsWhole};

    ghost view = { λ p. take_pass p.ends };

    ghost invariant = { λ p. IsWhole p.ends };
}

/// A queue in which each putter has a part of its own, which threads share by `&`.
#[derive(Drop)]
pub struct Intake<T> {
    pub(crate) home: Auxiliary<Home>,
    pub(crate) of: Auxiliary<LinkedList<T>>,
}

impl<T> Model for Intake<T> {
    ghost use Rattle.lfi_queues.specs.Passes.{QueueId};

    ghost Value = { QueueId };

    ghost use Rattle.lfi_queues.specs.inner.Parts.{intake_id};

    ghost view = { λ i. intake_id i.home.value };
}

impl<T> Intake<T> {
    /// An empty intake with its passes, in the order of their numbers.
    ///
    /// # Errors
    ///
    /// `AllocError` where memory is refused.
    pub fn new(
        alloc: Global,
        putters: usize,
        takers: usize,
    ) -> Result<(Intake<T>, Vec<PutPass<T>>, Vec<TakePass<T>>), AllocError>
    where
        T: Drop,
        ensures counts { IfOk result (λ r. (r.0.putters ≡ putters) × (r.0.takers ≡ takers)) }
        ensures puts { IfOk result (λ r. r.1.items ≡ new_passes r.0 putters) }
        ensures takes { IfOk result (λ r. r.2.items ≡ new_passes r.0 takers) }
    {
        let mut ends = new_takers(alloc, takers)?;
        let owners = new_owners(alloc, putters, &mut ends)?;
        let home = Auxiliary::of::<(&Vec<Owner<T>>, usize), HomeOf>(&(&owners, takers));
        let puts = put_passes(alloc, owners, &home)?;
        let takes = take_passes(alloc, ends, &home)?;
        let of = Auxiliary::of::<usize, NoItems>(&takers);
        Ok((Intake { home, of }, puts, takes))
    }

    /// Puts the item at the end of the putter's part. A putter's first 256 puts succeed.
    ///
    /// # Errors
    ///
    /// The item itself, where the part could not grow.
    pub fn put(&self, pass: &mut PutPass<T>, item: T) -> Result<(), T>
        requires { pass.old.queue ≡ self.now }
        ensures same { IsSamePass pass.old pass.new }
        ensures counted { pass.new.calls ≡ pass.old.calls + 1 }
        ensures ok { OnOk result (pass.new.items ≡ pass.old.items ++ item ∷ []) }
        ensures err { IfErr result (λ back. (back ≡ item) × (pass.new.items ≡ pass.old.items)) }
        ensures room { IfErr result (λ _. 256 ≤ length pass.old.items) }
        ensures rounds { pass.new.rounds ≡ pass.old.rounds }
    {
        pass.calls = Auxiliary::of::<Auxiliary<u64>, Next>(&pass.calls);
        pass.owner.push_as::<PartPuts>(item)
    }

    /// How many items of the putter's part nobody has taken yet, at one moment of the call.
    pub fn untaken(&self, pass: &mut PutPass<T>) -> usize
        requires { pass.old.queue ≡ self.now }
        ensures same { pass.new ≡ pass.old }
        ensures few { result ≤ length pass.old.items }
    {
        pass.owner.len_as::<PartLook>()
    }

    /// Tries one steal a part, until one gives an item, which is the first of its part. The first round begins at part 0,
    /// and later ones at the part after that of the last item.
    pub fn take(&self, pass: &mut TakePass<T>) -> Taken<T>
        requires { pass.old.queue ≡ self.now }
        ensures same { IsSamePass pass.old pass.new }
        ensures counted { pass.new.calls ≡ pass.old.calls + 1 }
        ensures taken { MatchTaken result (λ item. pass.new.items ≡ pass.old.items ++ item ∷ []) (pass.new.items ≡ pass.old.items) (pass.new.items ≡ pass.old.items) }
        ensures round { MatchTaken result (GetsItem pass.old pass.new) (FindsNone pass.old pass.new) (AsksAgain pass.old pass.new) }
    {
        pass.ends.take()
    }
}

//! The parts of a new intake, and the passes of them.

ghost use Rattle.std.specs.Prelude.{◌≡◌, ◌+◌, ◌<◌, [], ◌∷◌, ◌++◌, List, length, slice_get, Some, IfOk, OnOk, IsSome};
ghost use Rattle.atomic_blocks.specs.Lent.{RowsId};
ghost use Rattle.crossbeam_deque.specs.Handles.{worker_view, worker_index, worker_flavor, SameWorker};
ghost use Rattle.lfi_queues.specs.Passes.{new_pass, new_passes};
ghost use Rattle.lfi_queues.specs.inner.Delivery.{log, next_taker, one_more_taker};
ghost use Rattle.lfi_queues.specs.inner.Parts.{new_end, intake_id, IsNewTaker, AreNewTakers};
ghost use Rattle.lfi_queues.specs.inner.Owners.{part_of, parts_of, IsNewOwner, AreNewOwners};

use crate::intake::{PutPass, ROOM, TakePass};
use crate::log::NewTaker;
use crate::part::{Home, Owner, TakeEnd, Tally};
use crate::round::TakeEnds;
use crossbeam_deque::Worker;
use lfi_auxiliary::{Auxiliary, Reading};
use std::alloc::{AllocError, Global};
use std::collections::LinkedList;

/// Which intake has these parts, and how many takers.
pub(crate) struct HomeOf;

impl<'a, T> Reading<(&'a Vec<Owner<T>>, usize), Home> for HomeOf {
    ghost use Rattle.lfi_queues.specs.inner.Owners.{parts_of};

    ghost reads = { λ p. record { parts = parts_of p.0.now.items; takers = p.1 } };
}

/// The same value, known to contracts alone.
pub(crate) struct SameHome;

impl Reading<Auxiliary<Home>, Home> for SameHome {
    ghost reads = { λ home. home.value };
}

struct Number;

impl Reading<usize, u64> for Number {
    ghost reads = { λ number. number };
}

struct NoCalls;

impl Reading<usize, u64> for NoCalls {
    ghost reads = { λ _. 0 };
}

pub(crate) struct NoItems;

impl<T> Reading<usize, LinkedList<T>> for NoItems {
    ghost use Rattle.std.specs.Prelude.{[]};

    ghost reads = { λ _. [] };
}

struct NoAnswers;

impl Reading<(), Tally> for NoAnswers {
    ghost use Rattle.lfi_queues.specs.Passes.{no_answers};

    ghost reads = { λ _. no_answers };
}

struct NoHome;

impl Reading<usize, Home> for NoHome {
    ghost use Rattle.std.specs.Prelude.{[]};

    ghost reads = { λ _. record { parts = []; takers = 0 } };
}

/// An end of a part, for the taker with the next number.
fn new_end<T>(owner: &mut Owner<T>) -> Result<TakeEnd<T>, AllocError>
    requires flavor { worker_flavor owner.old ≡ 0 }
    requires made { IsSome (worker_view owner.old).made }
    ensures owner { OnOk result (SameWorker owner.old owner.new × (worker_index owner.new ≡ worker_index owner.old)) }
    ensures knows { OnOk result (worker_view owner.new ≡ log (worker_view owner.old).puts (worker_view owner.old).takes (one_more_taker (worker_view owner.old).made)) }
    ensures end { IfOk result (λ end. end ≡ new_end (part_of owner.old) (next_taker (worker_view owner.old).made)) }
{
    let stealer = owner.stealer()?;
    Ok(TakeEnd {
        stealer,
        seat: owner.another::<NewTaker>(),
        tally: Auxiliary::of::<(), NoAnswers>(&()),
    })
}

/// The taker with this number of an intake that has no parts yet.
fn new_taker<T>(alloc: Global, number: usize) -> TakeEnds<T>
    ensures { IsNewTaker [] number result }
{
    TakeEnds {
        ends: Vec::new(alloc),
        next: 0,
        home: Auxiliary::of::<usize, NoHome>(&number),
        number: Auxiliary::of::<usize, Number>(&number),
        calls: Auxiliary::of::<usize, NoCalls>(&number),
        items: Auxiliary::of::<usize, NoItems>(&number),
    }
}

/// `count` takers of an intake that has no parts yet.
pub(crate) fn new_takers<T: Drop>(
    alloc: Global,
    count: usize,
) -> Result<Vec<TakeEnds<T>>, AllocError>
    ensures count { IfOk result (λ takers. length takers.items ≡ count) }
    ensures new { IfOk result (λ takers. AreNewTakers [] takers.items) }
{
    let mut takers = Vec::with_capacity(alloc, count)?;
    for number in 0..count {
        takers.push(new_taker(alloc, number))?;
    }
    Ok(takers)
}

/// A new part, of which each of these takers gets an end.
fn new_owner<T: Drop>(alloc: Global, takers: &mut Vec<TakeEnds<T>>) -> Result<Owner<T>, AllocError>
    ensures owner { IfOk result (IsNewOwner (length takers.old.items)) }
    ensures count { OnOk result (length takers.new.items ≡ length takers.old.items) }
    ensures takers { IfOk result (λ owner. (parts : List RowsId) → AreNewTakers parts takers.old.items → AreNewTakers (parts ++ part_of owner ∷ []) takers.new.items) }
{
    let mut owner = Worker::fifo_as(alloc, ROOM)?;
    for number in 0..takers.len() {
        let end = new_end(&mut owner)?;
        takers[number].ends.push(Some(end))?;
    }
    Ok(owner)
}

/// `count` new parts, of each of which each of these takers gets an end.
pub(crate) fn new_owners<T: Drop>(
    alloc: Global,
    count: usize,
    takers: &mut Vec<TakeEnds<T>>,
) -> Result<Vec<Owner<T>>, AllocError>
    requires { AreNewTakers [] takers.old.items }
    ensures count { IfOk result (λ owners. length owners.items ≡ count) }
    ensures owners { IfOk result (λ owners. AreNewOwners (length takers.old.items) owners.items) }
    ensures taker_count { OnOk result (length takers.new.items ≡ length takers.old.items) }
    ensures takers { IfOk result (λ owners. AreNewTakers (parts_of owners.items) takers.new.items) }
{
    let mut owners = Vec::with_capacity(alloc, count)?;
    for _number in 0..count {
        owners.push(new_owner(alloc, takers)?)?;
    }
    Ok(owners)
}

/// The pass of the owner of a part.
fn put_pass<T>(owner: Owner<T>, number: usize, home: &Auxiliary<Home>) -> PutPass<T>
    requires { IsNewOwner home.now.value.takers owner × (slice_get home.now.value.parts number ≡ Some (part_of owner)) }
    ensures { result ≡ new_pass (intake_id home.now.value) number }
{
    PutPass {
        owner,
        home: Auxiliary::of::<Auxiliary<Home>, SameHome>(home),
        number: Auxiliary::of::<usize, Number>(&number),
        calls: Auxiliary::of::<usize, NoCalls>(&number),
    }
}

/// The passes of the owners of all parts.
pub(crate) fn put_passes<T: Drop>(
    alloc: Global,
    owners: Vec<Owner<T>>,
    home: &Auxiliary<Home>,
) -> Result<Vec<PutPass<T>>, AllocError>
    requires owners { AreNewOwners home.now.value.takers owners.items }
    requires home { home.now.value.parts ≡ parts_of owners.items }
    ensures { IfOk result (λ passes. passes.items ≡ new_passes (intake_id home.now.value) (length owners.items)) }
{
    let mut passes = Vec::with_capacity(alloc, owners.len())?;
    for owner in owners {
        let number = passes.len();
        passes.push(put_pass(owner, number, home))?;
    }
    Ok(passes)
}

/// The pass of a taker that has an end of each part.
fn take_pass<T>(mut ends: TakeEnds<T>, home: &Auxiliary<Home>) -> TakePass<T>
    requires { IsNewTaker home.now.value.parts ends.number ends }
    ensures { result ≡ new_pass (intake_id home.now.value) ends.number }
{
    ends.home = Auxiliary::of::<Auxiliary<Home>, SameHome>(home);
    TakePass { ends }
}

/// The passes of all takers.
pub(crate) fn take_passes<T: Drop>(
    alloc: Global,
    takers: Vec<TakeEnds<T>>,
    home: &Auxiliary<Home>,
) -> Result<Vec<TakePass<T>>, AllocError>
    requires { AreNewTakers home.now.value.parts takers.items }
    ensures { IfOk result (λ passes. passes.items ≡ new_passes (intake_id home.now.value) (length takers.items)) }
{
    let mut passes = Vec::with_capacity(alloc, takers.len())?;
    for ends in takers {
        passes.push(take_pass(ends, home))?;
    }
    Ok(passes)
}

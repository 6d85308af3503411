//! Passes: the rights to put to a queue and to take from it. What a pass was used for is known to
//! contracts alone and takes no bytes.

ghost use Rattle.std.specs.Prelude.{◌≡◌, ◌+◌, ◌<◌, [], ◌∷◌, Some, IsSome, IfOk, OnOk};
ghost use Rattle.crossbeam_queue.specs.Passes.{view as known, IsPassOf, IsSamePass as IsSamePort};
ghost use Rattle.lfi_queues.specs.Passes.{new_pass, new_passes};
ghost use Rattle.lfi_queues.specs.inner.Delivery.{log, next_putter, one_more_putter, next_taker, one_more_taker};
ghost use Rattle.lfi_queues.specs.inner.Ports.{queue_id};

use crate::log::{All, Log, NewPutter, NewTaker, Ring};
use crossbeam_queue::Pass;
use lfi_auxiliary::{Auxiliary, Reading};
use std::alloc::{AllocError, Global};
use std::marker::Model;

struct Zero;

impl Reading<(u64, u64), u64> for Zero {
    ghost reads = { λ _. 0 };
}

/// The same value, known to contracts alone.
pub(crate) struct Same;

impl Reading<(u64, u64), (u64, u64)> for Same {
    ghost reads = { λ counts. counts };
}

/// The number of calls with one more.
pub(crate) struct Next;

impl Reading<Auxiliary<u64>, u64> for Next {
    ghost reads = { λ calls. calls.value + 1 };
}

/// The right to put to a queue. It can be sent to another thread.
#[derive(Drop)]
pub struct LanePut<T> {
    pub(crate) seat: Pass<T, Log<T>>,
    pub(crate) calls: Auxiliary<u64>,
    pub(crate) counts: Auxiliary<(u64, u64)>,
}

impl<T> Model for LanePut<T> {
    ghost use Rattle.std.specs.Prelude.{◌≡◌, []};
    ghost use Rattle.crossbeam_queue.specs.Passes.{view as known};
    ghost use Rattle.lfi_queues.specs.Passes.{PassView, no_rounds};

    ghost Value = { PassView T };

    ghost use Rattle.lfi_queues.specs.inner.Ports.{queue_id, number_of, items_of, putting};

    ghost view = { λ p. record { queue = queue_id p.seat.table_id p.counts.value; number = number_of (known p.seat).puts; calls = p.calls.value; items = items_of (known p.seat).puts; rounds = no_rounds (queue_id p.seat.table_id p.counts.value) } };

    ghost invariant = { λ p. (known p.seat ≡ putting (number_of (known p.seat).puts) (items_of (known p.seat).puts)) × (p.seat.me.1 ≡ []) };
}

/// The right to take from a queue. It can be sent to another thread.
#[derive(Drop)]
pub struct LaneTake<T> {
    pub(crate) seat: Pass<T, Log<T>>,
    pub(crate) calls: Auxiliary<u64>,
    pub(crate) counts: Auxiliary<(u64, u64)>,
}

impl<T> Model for LaneTake<T> {
    ghost use Rattle.std.specs.Prelude.{◌≡◌, []};
    ghost use Rattle.crossbeam_queue.specs.Passes.{view as known};
    ghost use Rattle.lfi_queues.specs.Passes.{PassView, no_rounds};

    ghost Value = { PassView T };

    ghost use Rattle.lfi_queues.specs.inner.Ports.{queue_id, number_of, items_of, taking};

    ghost view = { λ p. record { queue = queue_id p.seat.table_id p.counts.value; number = number_of (known p.seat).takes; calls = p.calls.value; items = items_of (known p.seat).takes; rounds = no_rounds (queue_id p.seat.table_id p.counts.value) } };

    ghost invariant = { λ p. (known p.seat ≡ taking p.counts.value (number_of (known p.seat).takes) (items_of (known p.seat).takes)) × (p.seat.me.1 ≡ []) };
}

/// The pass of the next putter.
fn new_putter<T>(queue: &Ring<T>, maker: &mut Pass<T, Log<T>>, counts: &(u64, u64)) -> LanePut<T>
    requires { IsPassOf queue.now maker.old × IsSome (known maker.old).made }
    ensures maker { IsSamePort maker.old maker.new × (known maker.new ≡ log (known maker.old).puts (known maker.old).takes (one_more_putter (known maker.old).made)) }
    ensures pass { result ≡ new_pass (queue_id queue.now.table.shared.table_id counts.now) (next_putter (known maker.old).made) }
{
    LanePut {
        seat: queue.another::<NewPutter>(maker),
        calls: Auxiliary::of::<(u64, u64), Zero>(counts),
        counts: Auxiliary::of::<(u64, u64), Same>(counts),
    }
}

/// The passes of all putters, in the order of their numbers.
pub(crate) fn new_putters<T: Drop>(
    alloc: Global,
    queue: &Ring<T>,
    maker: &mut Pass<T, Log<T>>,
    counts: &(u64, u64),
) -> Result<Vec<LanePut<T>>, AllocError>
    requires { IsPassOf queue.now maker.old × (known maker.old ≡ log [] [] (Some (0, 0))) }
    ensures maker { OnOk result (IsSamePort maker.old maker.new × (known maker.new ≡ log [] [] (Some (counts.now.0, 0)))) }
    ensures passes { IfOk result (λ passes. passes.items ≡ new_passes (queue_id queue.now.table.shared.table_id counts.now) counts.now.0) }
{
    let mut passes = Vec::new(alloc);
    for _number in 0..counts.0 {
        passes.push(new_putter(queue, maker, counts))?;
    }
    Ok(passes)
}

/// The pass of a taker but the first.
fn later_taker<T>(queue: &Ring<T>, maker: &mut Pass<T, Log<T>>, counts: &(u64, u64)) -> LaneTake<T>
    requires maker { IsPassOf queue.now maker.old × IsSome (known maker.old).made }
    requires later { 0 < next_taker (known maker.old).made }
    ensures maker { IsSamePort maker.old maker.new × (known maker.new ≡ log (known maker.old).puts (known maker.old).takes (one_more_taker (known maker.old).made)) }
    ensures pass { result ≡ new_pass (queue_id queue.now.table.shared.table_id counts.now) (next_taker (known maker.old).made) }
{
    LaneTake {
        seat: queue.another::<NewTaker>(maker),
        calls: Auxiliary::of::<(u64, u64), Zero>(counts),
        counts: Auxiliary::of::<(u64, u64), Same>(counts),
    }
}

/// The passes of all takers but the first.
fn later_takers<T: Drop>(
    alloc: Global,
    queue: &Ring<T>,
    maker: &mut Pass<T, Log<T>>,
    counts: &(u64, u64),
) -> Result<Vec<LaneTake<T>>, AllocError>
    requires maker { IsPassOf queue.now maker.old × (known maker.old ≡ log [] [] (Some (counts.now.0, 1))) }
    requires some { 0 < counts.now.1 }
    ensures maker { OnOk result (IsSamePort maker.old maker.new × (known maker.new ≡ log [] [] (Some (counts.now.0, counts.now.1)))) }
    ensures passes { IfOk result (λ passes. new_pass (queue_id queue.now.table.shared.table_id counts.now) 0 ∷ passes.items ≡ new_passes (queue_id queue.now.table.shared.table_id counts.now) counts.now.1) }
{
    let mut passes = Vec::new(alloc);
    for _number in 1..counts.1 {
        passes.push(later_taker(queue, maker, counts))?;
    }
    Ok(passes)
}

/// The passes of all takers, in the order of their numbers. The first is the one that knows how
/// many passes there are.
pub(crate) fn new_takers<T: Drop>(
    alloc: Global,
    queue: &Ring<T>,
    mut maker: Pass<T, Log<T>>,
    counts: &(u64, u64),
) -> Result<Vec<LaneTake<T>>, AllocError>
    requires maker { IsPassOf queue.now maker × (known maker ≡ log [] [] (Some (counts.now.0, 0))) }
    requires some { 0 < counts.now.1 }
    ensures passes { IfOk result (λ passes. passes.items ≡ new_passes (queue_id queue.now.table.shared.table_id counts.now) counts.now.1) }
{
    let first = queue.another::<NewTaker>(&mut maker);
    let mut passes = later_takers(alloc, queue, &mut maker, counts)?;
    queue.absorb::<All>(&mut maker, first);
    let first = LaneTake {
        seat: maker,
        calls: Auxiliary::of::<(u64, u64), Zero>(counts),
        counts: Auxiliary::of::<(u64, u64), Same>(counts),
    };
    passes.insert(0, first)?;
    Ok(passes)
}

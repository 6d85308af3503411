//! A bounded queue that several passes put to and several take from.

ghost use Rattle.std.specs.Prelude.{◌≡◌, ◌+◌, ◌<◌, [], ◌∷◌, ◌++◌, List, length, IfOk, OnOk, IfErr, IfNone, IfSome};
ghost use Rattle.crossbeam_queue.specs.Passes.{view as known, IsSamePass as IsSamePort};
ghost use Rattle.lfi_queues.specs.Kept.{Kept};
ghost use Rattle.lfi_queues.specs.Passes.{OneRing, new_passes, IsSamePass, SeenByPutter, SeenByTaker, AreAllPasses, items_at, with_first, after_rest, IsFirstOf};
ghost use Rattle.lfi_queues.specs.inner.Ports.{AreOfQueue, AreLaterOf, EndsInFirst, HasTaken, LearnedAll, LearnedAs};

use crate::log::{All, Log, OnePutter, OneTaker, Puts, Ring, Takes};
use crate::pass::{LanePut, LaneTake, Next, Same, new_putters, new_takers};
use crossbeam_queue::Pass;
use lfi_auxiliary::Auxiliary;
use std::alloc::{AllocError, Global};
use std::marker::Model;
use std::sync::Wait;

/// A queue of at most `CAPACITY` items, which threads share by `&`. Contracts know which queue it
/// is, and how many passes put to it and take from it.
#[derive(Drop)]
pub struct RuledQueue<T, const CAPACITY: usize> {
    queue: Ring<T>,
    counts: Auxiliary<(u64, u64)>,
}

impl<T, const CAPACITY: usize> Model for RuledQueue<T, CAPACITY> {
    ghost use Rattle.std.specs.Prelude.{◌≡◌};
    ghost use Rattle.crossbeam_queue.specs.Passes.{ruled_capacity};
    ghost use Rattle.lfi_queues.specs.Passes.{QueueId};

    ghost Value = { QueueId };

    ghost use Rattle.lfi_queues.specs.inner.Ports.{queue_id};

    ghost view = { λ q. queue_id q.queue.table.shared.table_id q.counts.value };

    ghost invariant = { λ q. ruled_capacity q.queue ≡ CAPACITY };
}

impl<T, const CAPACITY: usize> RuledQueue<T, CAPACITY> {
    /// An empty queue with its passes, in the order of their numbers. This is its only call that
    /// takes memory. There is at least one taker.
    ///
    /// # Errors
    ///
    /// `AllocError` where memory is refused.
    pub fn new(
        alloc: Global,
        putters: usize,
        takers: usize,
    ) -> Result<(RuledQueue<T, CAPACITY>, Vec<LanePut<T>>, Vec<LaneTake<T>>), AllocError>
    where
        T: Drop,
        requires capacity { 0 < CAPACITY }
        requires takers { 0 < takers }
        ensures counts { IfOk result (λ r. (r.0.putters ≡ putters) × (r.0.takers ≡ takers)) }
        ensures puts { IfOk result (λ r. r.1.items ≡ new_passes r.0 putters) }
        ensures takes { IfOk result (λ r. r.2.items ≡ new_passes r.0 takers) }
    {
        let counts = (putters as u64, takers as u64);
        let (queue, mut maker) = Ring::ruled(alloc, CAPACITY)?;
        let puts = new_putters(alloc, &queue, &mut maker, &counts)?;
        let takes = new_takers(alloc, &queue, maker, &counts)?;
        let shared = RuledQueue {
            queue,
            counts: Auxiliary::of::<(u64, u64), Same>(&counts),
        };
        Ok((shared, puts, takes))
    }

    /// Puts the item at the end.
    ///
    /// # Errors
    ///
    /// The item itself, where the queue was full.
    pub fn put<R: Wait>(&self, rt: &R, pass: &mut LanePut<T>, item: T) -> Result<(), T>
        requires { pass.old.queue ≡ self.now }
        ensures same { IsSamePass pass.old pass.new }
        ensures counted { pass.new.calls ≡ pass.old.calls + 1 }
        ensures ok { OnOk result (pass.new.items ≡ pass.old.items ++ item ∷ []) }
        ensures err { IfErr result (λ back. (back ≡ item) × (pass.new.items ≡ pass.old.items)) }
        ensures full { IfErr result (λ _. (held : List T) × (length held ≡ CAPACITY) × SeenByPutter pass.old held) }
        ensures rounds { pass.new.rounds ≡ pass.old.rounds }
    {
        pass.calls = Auxiliary::of::<Auxiliary<u64>, Next>(&pass.calls);
        self.queue.push_as::<Puts, R>(rt, &mut pass.seat, item)
    }

    /// Takes the item that was put first, if there is one.
    pub fn take<R: Wait>(&self, rt: &R, pass: &mut LaneTake<T>) -> Option<T>
        requires { pass.old.queue ≡ self.now }
        ensures same { IsSamePass pass.old pass.new }
        ensures counted { pass.new.calls ≡ pass.old.calls + 1 }
        ensures taken { IfSome result (λ item. pass.new.items ≡ pass.old.items ++ item ∷ []) }
        ensures none { IfNone result (pass.new.items ≡ pass.old.items) }
        ensures empty { IfNone result (SeenByTaker pass.old []) }
        ensures rounds { pass.new.rounds ≡ pass.old.rounds }
    {
        pass.calls = Auxiliary::of::<Auxiliary<u64>, Next>(&pass.calls);
        self.queue.pop_as::<Takes, R>(rt, &mut pass.seat)
    }

    /// What is left, once the port has also taken in what these taking passes know, which they get
    /// back.
    fn rest_of_takes<R: Wait>(
        &self,
        rt: &R,
        seat: &mut Pass<T, Log<T>>,
        takes: &mut [Option<LaneTake<T>>],
    ) -> Option<T>
        requires seat { (OneRing seat.old.table_id ≡ self.now.home) × (seat.old.me.1 ≡ []) × EndsInFirst (known seat.old).takes }
        requires takes { AreLaterOf self.now takes.old }
        ensures seat { IsSamePort seat.old seat.new }
        ensures takes { takes.new ≡ takes.old }
        ensures taken { HasTaken (known seat.old) result (known seat.new) }
        ensures learned { LearnedAll (known seat.old) [] takes.old result }
    {
        let Some((slot, later)) = takes.split_first_mut() else {
            return self.queue.pop_as::<Takes, R>(rt, seat);
        };
        let Some(pass) = slot.take() else {
            return self.rest_of_takes(rt, seat, later);
        };
        let LaneTake {
            seat: lent,
            calls,
            counts,
        } = pass;
        self.queue.absorb::<All>(seat, lent);
        let item = self.rest_of_takes(rt, seat, later);
        let back = self.queue.another::<OneTaker>(seat);
        *slot = Some(LaneTake {
            seat: back,
            calls,
            counts,
        });
        item
    }

    /// What is left, once the port has also taken in what these putting passes know, which they get
    /// back, and then these taking passes.
    fn rest_of_puts<R: Wait>(
        &self,
        rt: &R,
        seat: &mut Pass<T, Log<T>>,
        puts: &mut [Option<LanePut<T>>],
        takes: &mut [Option<LaneTake<T>>],
    ) -> Option<T>
        requires seat { (OneRing seat.old.table_id ≡ self.now.home) × (seat.old.me.1 ≡ []) × EndsInFirst (known seat.old).takes }
        requires puts { AreOfQueue self.now puts.old }
        requires takes { AreLaterOf self.now takes.old }
        ensures seat { IsSamePort seat.old seat.new }
        ensures puts { puts.new ≡ puts.old }
        ensures takes { takes.new ≡ takes.old }
        ensures taken { HasTaken (known seat.old) result (known seat.new) }
        ensures learned { LearnedAll (known seat.old) puts.old takes.old result }
    {
        let Some((slot, later)) = puts.split_first_mut() else {
            return self.rest_of_takes(rt, seat, takes);
        };
        let Some(pass) = slot.take() else {
            return self.rest_of_puts(rt, seat, later, takes);
        };
        let LanePut {
            seat: lent,
            calls,
            counts,
        } = pass;
        self.queue.absorb::<All>(seat, lent);
        let item = self.rest_of_puts(rt, seat, later, takes);
        let back = self.queue.another::<OnePutter>(seat);
        *slot = Some(LanePut {
            seat: back,
            calls,
            counts,
        });
        item
    }

    /// Takes an item that is left, as the first taker, which doesn't count as a call. It is handed
    /// all passes, each at the place of its number; where it answers None nothing is left, and what
    /// was put is what was taken.
    pub fn rest<R: Wait>(
        &self,
        rt: &R,
        puts: &mut [Option<LanePut<T>>],
        takes: &mut [Option<LaneTake<T>>],
    ) -> Option<T>
        requires takers { 0 < self.now.takers }
        requires puts { AreAllPasses self.now self.now.putters puts.old }
        requires takes { AreAllPasses self.now self.now.takers takes.old }
        ensures puts { puts.new ≡ puts.old }
        ensures takes { takes.new ≡ with_first takes.old (λ pass. after_rest pass result) }
        ensures kept { (held : List T) × Kept (items_at puts.old) (items_at takes.old) held × IsFirstOf held result }
    {
        let Some(mut first) = takes[0].take() else {
            unreachable!()
        };
        let item = self.rest_as(rt, &mut first, puts, takes);
        takes[0] = Some(first);
        item
    }

    /// What is left, as the first taker, with all other passes at hand.
    fn rest_as<R: Wait>(
        &self,
        rt: &R,
        first: &mut LaneTake<T>,
        puts: &mut [Option<LanePut<T>>],
        takes: &mut [Option<LaneTake<T>>],
    ) -> Option<T>
        requires first { (first.old.queue ≡ self.now) × (first.old.number ≡ 0) }
        requires puts { AreOfQueue self.now puts.old }
        requires takes { AreLaterOf self.now takes.old }
        ensures first { first.new ≡ after_rest first.old result }
        ensures puts { puts.new ≡ puts.old }
        ensures takes { takes.new ≡ takes.old }
        ensures learned { LearnedAs first.old puts.old takes.old result }
    {
        self.rest_of_puts(rt, &mut first.seat, puts, takes)
    }
}

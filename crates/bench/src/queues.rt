//! How long a put and a take need, of the intake and beside it of an array queue: `bench queues ITEMS [ROUNDS]`. With a
//! second word it passes a number of items through as many times, and prints the least time of an item.

ghost use Rattle.std.specs.Prelude.{◌≡◌};

use crate::carriers::{PartPut, PartTake, Piece, Puts, Ring, RingPut, RingTake, Takes};
use crate::faults::Fault;
use crate::times::nanos_since;
use lfi_queues::{Intake, LanePut, LaneTake, PutPass, TakePass};
use std::io;
use std::rt::Clock;
use std::sync::Wait;
use std::sync::atomic::{AtomicBool, Ordering};
use std::thread::{self, Scope, Threads};
use std::time::Instant;

/// The passes of one putter and one taker.
#[derive(Drop)]
struct Pair<P: Drop, T: Drop> {
    put: P,
    take: T,
}

/// Puts one and takes one, by turns: how many came.
fn by_turns<R: Wait, P: Puts + Drop, T: Takes + Drop>(
    rt: &R,
    pair: &mut Pair<P, T>,
    items: u64,
) -> u64 {
    let mut came = 0u64;
    for number in 0..items {
        pair.put.put(rt, [number; 5]);
        if let Some(piece) = pair.take.take(rt) {
            came = came.saturating_add(u64::from(piece[4] == number));
        }
    }
    came
}

/// Puts `items` items, unless it is told to stop.
fn put_many<R: Wait, P: Puts + Drop>(rt: &R, stop: &AtomicBool, mut put: P, items: u64) -> u64 {
    let mut done = 0u64;
    for _ in rt.forever() {
        if done >= items || stop.load(Ordering::SeqCst) {
            break;
        }
        if put.put(rt, [done; 5]) {
            done += 1;
        } else {
            thread::yield_now();
        }
    }
    done
}

/// Takes `items` items, unless it is told to stop.
fn take_many<R: Wait, T: Takes + Drop>(rt: &R, stop: &AtomicBool, mut take: T, items: u64) -> u64 {
    let mut done = 0u64;
    for _ in rt.forever() {
        if done >= items || stop.load(Ordering::SeqCst) {
            break;
        }
        match take.take(rt) {
            Some(_) => done += 1,
            None => thread::yield_now(),
        }
    }
    done
}

/// Starts a putting thread and a taking one. Where one can't be made, all are told to stop.
fn start_pair<'s, 'e, R: Wait + Sync, P: Puts + Drop + Send + 'e, T: Takes + Drop + Send + 'e>(
    scope: &Scope<'s, &'e ()>,
    rt: &'e R,
    stop: &'e AtomicBool,
    pair: Pair<P, T>,
    items: u64,
) {
    let Pair { put, take } = pair;
    let putting = scope.spawn(move || put_many(rt, stop, put, items)).is_ok();
    let taking = scope
        .spawn(move || take_many(rt, stop, take, items))
        .is_ok();
    if !(putting && taking) {
        stop.store(true, Ordering::SeqCst);
    }
}

/// Runs two pairs of threads to their ends: the nanoseconds in which they do.
fn run_pairs<R: Threads + Wait + Sync + Clock, P: Puts + Drop + Send, T: Takes + Drop + Send>(
    rt: &R,
    first: Pair<P, T>,
    second: Pair<P, T>,
    items: u64,
) -> Result<u64, Fault> {
    let stop = AtomicBool::new(false);
    let stop = &stop;
    let start = Instant::now(rt);
    thread::scope(thread::scope_env(), rt, move |scope| {
        start_pair(scope, rt, stop, first, items);
        start_pair(scope, rt, stop, second, items);
    });
    if stop.load(Ordering::SeqCst) {
        Err(Fault::Is("a thread was refused"))
    } else {
        nanos_since(rt, start?)
    }
}

/// The nanoseconds in which one thread puts and takes `items` items.
fn alone<R: Wait + Clock, P: Puts + Drop, T: Takes + Drop>(
    rt: &R,
    mut pair: Pair<P, T>,
    items: u64,
) -> Result<u64, Fault> {
    let start = Instant::now(rt);
    let came = by_turns(rt, &mut pair, items);
    drop(pair);
    if came == items {
        nanos_since(rt, start?)
    } else {
        Err(Fault::Is("an item didn't come"))
    }
}

/// The passes of one putter and one taker of the intake.
fn part_pair<'a>(
    intake: &'a Intake<Piece>,
    put: PutPass<Piece>,
    take: TakePass<Piece>,
) -> Pair<PartPut<'a>, PartTake<'a>>
    requires put { put.queue ≡ intake.now }
    requires take { take.queue ≡ intake.now }
{
    Pair {
        put: PartPut { intake, pass: put },
        take: PartTake { intake, pass: take },
    }
}

/// The passes of one putter and one taker of the array queue.
fn ring_pair<'a>(
    ring: &'a Ring,
    put: LanePut<Piece>,
    take: LaneTake<Piece>,
) -> Pair<RingPut<'a>, RingTake<'a>>
    requires put { put.queue ≡ ring.now }
    requires take { take.queue ≡ ring.now }
{
    Pair {
        put: RingPut { ring, pass: put },
        take: RingTake { ring, pass: take },
    }
}

/// The nanoseconds in which one thread puts `items` items to the intake and takes them.
fn intake_alone<R: Wait + Clock + AllocGlobal>(rt: &R, items: u64) -> Result<u64, Fault> {
    let (intake, mut puts, mut takes) = Intake::<Piece>::new(rt.alloc(), 1, 1)?;
    let pair = part_pair(&intake, puts.swap_remove(0), takes.swap_remove(0));
    alone(rt, pair, items)
}

/// The nanoseconds in which one thread puts `items` items to the array queue and takes them.
fn ring_alone<R: Wait + Clock + AllocGlobal>(rt: &R, items: u64) -> Result<u64, Fault> {
    let (ring, mut puts, mut takes) = Ring::new(rt.alloc(), 1, 1)?;
    let pair = ring_pair(&ring, puts.swap_remove(0), takes.swap_remove(0));
    alone(rt, pair, items)
}

/// The nanoseconds in which two threads put `items` items each to the intake, and two take as many.
fn intake_together<R: Threads + Wait + Sync + Clock + AllocGlobal>(
    rt: &R,
    items: u64,
) -> Result<u64, Fault> {
    let (intake, mut puts, mut takes) = Intake::<Piece>::new(rt.alloc(), 2, 2)?;
    let second = part_pair(&intake, puts.swap_remove(1), takes.swap_remove(1));
    let first = part_pair(&intake, puts.swap_remove(0), takes.swap_remove(0));
    run_pairs(rt, first, second, items)
}

/// The nanoseconds in which two threads put `items` items each to the array queue, and two take as many.
fn ring_together<R: Threads + Wait + Sync + Clock + AllocGlobal>(
    rt: &R,
    items: u64,
) -> Result<u64, Fault> {
    let (ring, mut puts, mut takes) = Ring::new(rt.alloc(), 2, 2)?;
    let second = ring_pair(&ring, puts.swap_remove(1), takes.swap_remove(1));
    let first = ring_pair(&ring, puts.swap_remove(0), takes.swap_remove(0));
    run_pairs(rt, first, second, items)
}

/// The least times of all rounds, in nanoseconds: of the intake by one thread, of the array queue by one, and of both by four.
#[derive(Clone, Copy)]
struct Least {
    intake_alone: u64,
    ring_alone: u64,
    intake_together: u64,
    ring_together: u64,
}

impl Least {
    const NONE: Least = Least {
        intake_alone: u64::MAX,
        ring_alone: u64::MAX,
        intake_together: u64::MAX,
        ring_together: u64::MAX,
    };

    /// Passes `items` items through once more.
    fn round<R: Threads + Wait + Sync + Clock + AllocGlobal>(
        self,
        rt: &R,
        items: u64,
    ) -> Result<Least, Fault> {
        Ok(Least {
            intake_alone: self.intake_alone.min(intake_alone(rt, items)?),
            intake_together: self.intake_together.min(intake_together(rt, items)?),
            ring_alone: self.ring_alone.min(ring_alone(rt, items)?),
            ring_together: self.ring_together.min(ring_together(rt, items)?),
        })
    }

    /// Prints the times of one item.
    fn print<R: Print>(self, rt: &R, items: u64) -> io::Result<()> {
        let all = items.saturating_mul(2);
        let rows = [
            ("intake, one thread", items, self.intake_alone),
            ("array queue, one thread", items, self.ring_alone),
            (
                "intake, two threads put, two take",
                all,
                self.intake_together,
            ),
            (
                "array queue, two threads put, two take",
                all,
                self.ring_together,
            ),
        ];
        for (what, items, least) in rows.iter() {
            let each = *least / (*items).max(1);
            println!(rt; "{what}: {each} ns an item")?;
        }
        Ok(())
    }
}

/// Passes `items` items through, in `rounds` rounds. Prints how many, and with rounds the least times.
pub(crate) fn run<R: Threads + Wait + Sync + Clock + AllocGlobal + Print>(
    rt: &R,
    items: u64,
    rounds: Option<u64>,
) -> Result<(), Fault> {
    let mut least = Least::NONE;
    for _ in 0..rounds.unwrap_or(1) {
        least = least.round(rt, items)?;
    }
    println!(rt; "{items} items put and taken")?;
    if rounds.is_some() {
        least.print(rt, items)?;
    }
    Ok(())
}

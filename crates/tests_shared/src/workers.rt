//! A thread for each pass of a queue: what it does, and how all are started and joined.

ghost use Rattle.std.specs.Prelude.{◌≡◌, ◌<◌, ◌≤◌, vec_len};
ghost use Rattle.lfi_queues.specs.Passes.{AreAllPasses, IsSamePass, new_passes};

use crate::passes::{PutRow, Queue, TakeRow};
use lfi_queues::{LanePut, LaneTake};
use std::alloc::Global;
use std::process::Abort;
use std::sync::Wait;
use std::sync::atomic::{AtomicU64, Ordering};
use std::thread;
use std::thread::{Promise, Scope, Threads};

/// How many numbers each putting thread puts.
pub(crate) const EACH: u64 = 100_000;

/// A taker's pass, with the numbers that it took.
#[derive(Drop)]
pub(crate) struct Taker {
    pass: LaneTake<u64>,
    numbers: Vec<u64>,
}

/// A queue that threads put in and take from: how many of them put, and how many of these have ended.
#[derive(Clone, Copy)]
struct Run<'e, R> {
    rt: &'e R,
    alloc: Global,
    queue: &'e Queue,
    ended: &'e AtomicU64,
    putters: u64,
}

/// What a thread gives back: this pass of the queue.
#[derive(Clone, Copy)]
struct PassOf<'a> {
    queue: &'a Queue,
    number: usize,
}

impl<'a> Promise<LanePut<u64>> for PassOf<'a> {
    ghost kept_by = { λ p r. (r.queue ≡ p.queue.now) × (r.number ≡ p.number) };
}

impl<'a> Promise<Taker> for PassOf<'a> {
    ghost kept_by = { λ p r. (r.pass.queue ≡ p.queue.now) × (r.pass.number ≡ p.number) };
}

/// Puts the numbers of a putting thread, its own hundred thousand, in order.
fn put_all<R: Wait>(
    rt: &R,
    queue: &Queue,
    ended: &AtomicU64,
    mut pass: LanePut<u64>,
    thread: u64,
) -> LanePut<u64>
    requires queue { pass.queue ≡ queue.now }
    requires few { thread ≤ 8 }
    ensures { IsSamePass pass result }
{
    let mut next = thread * EACH;
    let end = next + EACH;
    for _ in rt.forever() {
        if next >= end {
            break;
        }
        match queue.put(rt, &mut pass, next) {
            Ok(()) => next += 1,
            Err(_) => thread::yield_now(),
        }
    }
    ended.fetch_add(1, Ordering::SeqCst);
    pass
}

/// Takes numbers until all putting threads have ended and nothing is left.
fn take_all<R: Wait + Abort>(
    rt: &R,
    queue: &Queue,
    ended: &AtomicU64,
    mut taker: Taker,
    putters: u64,
) -> Taker
    requires { taker.pass.queue ≡ queue.now }
    ensures { IsSamePass taker.pass result.pass }
{
    let mut all_ended = false;
    for _ in rt.forever() {
        match queue.take(rt, &mut taker.pass) {
            Some(number) => taker.numbers.push(number).expect(rt, "no memory"),
            None if all_ended => break,
            None => {
                all_ended = ended.load(Ordering::SeqCst) >= putters;
                thread::yield_now();
            }
        }
    }
    taker
}

/// A thread for each of the first takers: their passes, once all are joined, and a list of what each
/// took.
fn run_takers<'s, 'e, R: Threads + Wait + Abort + Sync>(
    scope: &Scope<'s, &'e ()>,
    run: Run<'e, R>,
    mut takes: Vec<LaneTake<u64>>,
    lists: &mut Vec<Vec<u64>>,
) -> TakeRow
    requires { (takes.items ≡ new_passes run.queue.now (vec_len takes)) × (vec_len takes ≤ 8) }
    ensures { AreAllPasses run.entry.queue.now (vec_len takes) result }
{
    let Run {
        rt,
        alloc,
        queue,
        ended,
        putters,
    } = run;
    let Some(pass) = takes.pop() else {
        return [None, None, None, None, None, None, None, None];
    };
    let number = takes.len();
    let taker = Taker {
        pass,
        numbers: Vec::new(alloc),
    };
    let Ok(thread) = scope.spawn_with(
        PassOf { queue, number },
        move || take_all(rt, queue, ended, taker, putters),
    ) else {
        panic!(rt; "no thread")
    };
    let mut row = run_takers(scope, run, takes, lists);
    let Taker { pass, numbers } = thread.join(rt);
    row[number] = Some(pass);
    lists.push(numbers).expect(rt, "no memory");
    row
}

/// A thread for each of the first putters, and for each taker: their passes, once all are joined.
fn run_putters<'s, 'e, R: Threads + Wait + Abort + Sync>(
    scope: &Scope<'s, &'e ()>,
    run: Run<'e, R>,
    mut puts: Vec<LanePut<u64>>,
    takes: Vec<LaneTake<u64>>,
    lists: &mut Vec<Vec<u64>>,
) -> (PutRow, TakeRow)
    requires puts { (puts.items ≡ new_passes run.queue.now (vec_len puts)) × (vec_len puts ≤ 8) }
    requires takes { (takes.items ≡ new_passes run.queue.now (vec_len takes)) × (vec_len takes ≤ 8) }
    ensures puts { AreAllPasses run.entry.queue.now (vec_len puts) result.0 }
    ensures takes { AreAllPasses run.entry.queue.now (vec_len takes) result.1 }
{
    let Run {
        rt,
        queue,
        ended,
        ..
    } = run;
    let Some(pass) = puts.pop() else {
        let row = run_takers(scope, run, takes, lists);
        return ([None, None, None, None, None, None, None, None], row);
    };
    let number = puts.len();
    let Ok(thread) = scope.spawn_with(
        PassOf { queue, number },
        move || put_all(rt, queue, ended, pass, number as u64),
    ) else {
        panic!(rt; "no thread")
    };
    let (mut row, takes) = run_putters(scope, run, puts, takes, lists);
    row[number] = Some(thread.join(rt));
    (row, takes)
}

/// What is left, taken with all passes in hand.
fn drain<R: Wait + Abort>(
    rt: &R,
    alloc: Global,
    queue: &Queue,
    puts: &mut PutRow,
    takes: &mut TakeRow,
) -> Vec<u64>
    requires takers { 0 < queue.now.takers }
    requires puts { AreAllPasses queue.now queue.now.putters puts.old }
    requires takes { AreAllPasses queue.now queue.now.takers takes.old }
{
    let mut left = Vec::new(alloc);
    for _ in rt.forever() {
        match queue.rest(rt, puts, takes) {
            Some(number) => left.push(number).expect(rt, "no memory"),
            None => break,
        }
    }
    left
}

/// A thread for each pass; once all are joined, what is left is taken: the numbers that each taker
/// took, and last those that were left.
fn relay_in<'s, 'e, R: Threads + Wait + Abort + Sync>(
    scope: &Scope<'s, &'e ()>,
    run: Run<'e, R>,
    puts: Vec<LanePut<u64>>,
    takes: Vec<LaneTake<u64>>,
) -> Vec<Vec<u64>>
    requires some { 0 < run.queue.now.takers }
    requires puts { (puts.items ≡ new_passes run.queue.now run.queue.now.putters) × (vec_len puts ≡ run.queue.now.putters) × (run.queue.now.putters ≤ 8) }
    requires takes { (takes.items ≡ new_passes run.queue.now run.queue.now.takers) × (vec_len takes ≡ run.queue.now.takers) × (run.queue.now.takers ≤ 8) }
{
    let Run {
        rt,
        alloc,
        queue,
        ..
    } = run;
    let mut lists = Vec::new(alloc);
    let (mut puts, mut takes) = run_putters(scope, run, puts, takes, &mut lists);
    let left = drain(rt, alloc, queue, &mut puts, &mut takes);
    lists.push(left).expect(rt, "no memory");
    lists
}

/// A thread for each pass of a new queue; once all are joined, what is left is taken: the numbers
/// that each taker took, and last those that were left.
#[tactic(auto, using(crate::proofs::Rows::count_of_new))]
pub(crate) fn relay<R: Threads + Wait + Abort + Sync>(
    rt: &R,
    alloc: Global,
    putters: usize,
    takers: usize,
) -> Vec<Vec<u64>>
    requires { (putters ≤ 8) × (0 < takers) × (takers ≤ 8) }
{
    let (queue, puts, takes) = Queue::new(alloc, putters, takers).expect(rt, "no memory");
    let (queue, ended) = (&queue, &AtomicU64::new(0));
    thread::scope(
        thread::scope_env(),
        rt,
        move |scope| -> Vec<Vec<u64>>
            requires { (0 < queue.now.takers) × ((puts.items ≡ new_passes queue.now queue.now.putters) × (vec_len puts ≡ queue.now.putters) × (queue.now.putters ≤ 8)) × ((takes.items ≡ new_passes queue.now queue.now.takers) × (vec_len takes ≡ queue.now.takers) × (queue.now.takers ≤ 8)) }
        {
            relay_in(
                scope,
                Run {
                    rt,
                    alloc,
                    queue,
                    ended,
                    putters: puts.len() as u64,
                },
                puts,
                takes,
            )
        },
    )
}

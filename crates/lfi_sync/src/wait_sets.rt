//! Wait sets: how threads wait for what others bring, and how those call them.

use crate::state_word::Said;
use lfi_module::{CONNECTIONS, VERIFIERS};
use std::array;
use std::sync::Wait;
use std::sync::atomic::{AtomicU64, Ordering};
use std::thread::Parker;

/// How many threads may wait for one thing: those of all verifiers, or of all receivers, which are no more.
const THREADS: usize = VERIFIERS;

const _: () = prove!(CONNECTIONS <= THREADS);

/// The bit of the thread with this number.
fn bit_of(number: usize) -> u64 {
    1 << (number % THREADS)
}

/// The bits of the first `count` threads.
fn bits_of_first(count: usize) -> u64 {
    let mut bits = 0;
    for number in 0..count {
        bits |= bit_of(number);
    }
    bits
}

/// Where threads wait for one thing, and where who brings it calls them.
///
/// A thread that found nothing says that it waits, looks once more, and only then sleeps. Whoever brings
/// something puts it where it belongs, and only then looks who waits. All these steps have one order:
/// so either the thread finds in its second look what was brought, or it is called.
#[derive(Drop)]
pub struct WaitSet {
    /// A bit for each thread that waits and wasn't called yet.
    waiting: AtomicU64,
    /// The bits of all threads that may wait here.
    all: u64,
    /// Where they sleep, by their numbers.
    sleepers: [Parker; THREADS],
}

impl WaitSet {
    /// Nobody waits here yet, and the first `count` threads may.
    fn new(count: usize) -> WaitSet {
        WaitSet {
            waiting: AtomicU64::new(0),
            all: bits_of_first(count),
            sleepers: array::from_fn(|_| Parker::new()),
        }
    }

    /// Where the thread with this number sleeps.
    fn sleeper(&self, number: usize) -> &Parker {
        let sleepers = &self.sleepers[..];
        &sleepers[number % THREADS]
    }

    /// This thread waits from now on. It looks once more before it sleeps.
    fn enter(&self, number: usize) {
        self.waiting.fetch_or(bit_of(number), Ordering::SeqCst);
    }

    /// This thread waits no longer, whether it was called or not.
    fn leave(&self, number: usize) {
        self.waiting.fetch_and(!bit_of(number), Ordering::SeqCst);
    }

    /// Calls this thread, where it waits and wasn't called yet.
    fn call(&self, number: usize) {
        let bit = bit_of(number);
        if self.waiting.fetch_and(!bit, Ordering::SeqCst) & bit != 0 {
            self.sleeper(number).unpark();
        }
    }

    /// Calls one of the threads that wait, if there are any: that with the least number. Where
    /// another one calls it at the same time, one call is enough: it looks after both have brought
    /// what they bring.
    fn call_one(&self) {
        let waiting = self.waiting.load(Ordering::SeqCst);
        if waiting != 0 {
            self.call(waiting.trailing_zeros() as usize);
        }
    }

    /// Calls one of the threads that wait, where all do. One that doesn't looks once more before it sleeps, and finds what was
    /// brought.
    fn call_if_all_wait(&self) {
        if self.waiting.load(Ordering::SeqCst) == self.all {
            self.call_one();
        }
    }

    /// Calls all threads that wait.
    pub(crate) fn call_all(&self) {
        if self.waiting.load(Ordering::SeqCst) == 0 {
            return;
        }
        for number in 0..THREADS {
            self.call(number);
        }
    }
}

/// The wait sets of a stage, by what is waited for.
#[derive(Drop)]
pub struct WaitSets {
    /// Items in the intake: verifiers wait for them, and receivers bring them.
    pub items: WaitSet,
    /// Few untaken items in the intake: receivers wait for that, and verifiers bring it.
    pub intake_room: WaitSet,
    /// Judged items in the lanes: the sequencers' thread waits for them, and verifiers bring them.
    pub judged: WaitSet,
    /// Room in the lanes: verifiers wait for it, and the sequencers' thread brings it.
    pub lane_room: WaitSet,
}

impl WaitSets {
    /// Nobody waits for anything yet. There are `verifiers` verifiers.
    pub(crate) fn new(verifiers: usize) -> WaitSets {
        WaitSets {
            items: WaitSet::new(verifiers),
            intake_room: WaitSet::new(CONNECTIONS),
            judged: WaitSet::new(1),
            lane_room: WaitSet::new(verifiers),
        }
    }

    /// Calls the sequencers' thread, for what was said.
    pub(crate) fn call_sequencers(&self, said: Said) {
        drop(said);
        self.judged.call_all();
    }

    /// Calls all threads that wait for anything, for what was said.
    pub(crate) fn call_all(&self, said: Said) {
        drop(said);
        self.items.call_all();
        self.intake_room.call_all();
        self.judged.call_all();
        self.lane_room.call_all();
    }
}

/// Whom a thread calls of those that wait for what it brings.
#[derive(Clone, Copy)]
enum Called {
    /// One of them, where all wait, since any of them can use it, and one that doesn't wait finds it.
    One,
    /// All of them, since it may be of use to one alone.
    All,
}

/// How a thread calls others for what it brings: not for each thing at once.
#[derive(Drop)]
pub struct Notifier<'a> {
    wait_set: &'a WaitSet,
    called: Called,
    /// For how many things it calls at the latest.
    every: u32,
    /// How many things it has brought since it called.
    untold: u32,
}

impl<'a> Notifier<'a> {
    /// That of a thread that calls one of those that wait, where all do, and has brought nothing yet.
    pub fn of_one(wait_set: &'a WaitSet, every: u32) -> Notifier<'a> {
        Notifier {
            wait_set,
            called: Called::One,
            every,
            untold: 0,
        }
    }

    /// That of one that calls all that wait.
    pub fn of_all(wait_set: &'a WaitSet, every: u32) -> Notifier<'a> {
        Notifier {
            wait_set,
            called: Called::All,
            every,
            untold: 0,
        }
    }

    /// It has brought one more thing.
    pub fn brought(&mut self) {
        self.untold = self.untold.saturating_add(1);
        if self.untold >= self.every {
            self.tell();
        }
    }

    /// Calls who is to be called, where it has brought something since it called.
    pub fn tell_rest(&mut self) {
        if self.untold != 0 {
            self.tell();
        }
    }

    /// Calls one of those that wait, whatever the others do: there is so much that it is of use to one more.
    pub fn tell_one_more(&mut self) {
        self.untold = 0;
        self.wait_set.call_one();
    }

    /// Calls who is to be called.
    pub fn tell(&mut self) {
        self.untold = 0;
        match self.called {
            Called::One => self.wait_set.call_if_all_wait(),
            Called::All => self.wait_set.call_all(),
        }
    }
}

/// How a thread waits that has nothing to do.
#[derive(Drop)]
pub struct Waiter<'a> {
    wait_set: &'a WaitSet,
    /// The thread's number at the wait set.
    number: usize,
    /// Whether it has said that it waits.
    waits: bool,
}

impl<'a> Waiter<'a> {
    /// That of the thread with this number at the wait set, which doesn't wait.
    pub fn new(wait_set: &'a WaitSet, number: usize) -> Waiter<'a> {
        Waiter {
            wait_set,
            number,
            waits: false,
        }
    }

    /// It had something to do.
    pub fn end(&mut self) {
        if self.waits {
            self.waits = false;
            self.wait_set.leave(self.number);
        }
    }

    /// It had nothing to do. The first time it says that it waits, and is to look once more; where
    /// that found nothing either, it sleeps until it is called.
    pub fn pause<S: Wait>(&mut self, rt: &S) {
        if self.waits {
            self.wait_set.sleeper(self.number).park(rt);
            self.end();
        } else {
            self.waits = true;
            self.wait_set.enter(self.number);
        }
    }
}

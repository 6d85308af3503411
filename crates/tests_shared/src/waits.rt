//! How threads wait for one another and tell of filled lanes, on several threads. What is compared is the same in every schedule.

ghost use Rattle.std.specs.Prelude.{◌<◌};

use lfi_module::ModuleNumber;
use lfi_sync::{Lifecycle, LoadError, Notifier, WaitSet, Waiter};
use std::process::Abort;
use std::sync::Wait;
use std::sync::atomic::{AtomicU64, Ordering};
use std::thread::{Scope, Threads, join, scope, scope_env, yield_now};
use std::time::Duration;

/// How many threads tell of filled lanes, each of one.
const TELLERS: usize = 3;

/// How often each of them does.
const ROUNDS: u64 = 20_000;

/// How often a thread looks for what another one has to see, at most.
const LOOKS: u64 = 100_000_000;

/// How often each lane was seen as filled, and how many threads still tell.
#[derive(Drop)]
struct Seen {
    lanes: [AtomicU64; TELLERS],
    telling: AtomicU64,
}

/// Whether a lane is seen as filled so often, in the end.
fn comes_to(lane: &AtomicU64, count: u64) -> bool {
    for _ in 0..LOOKS {
        if lane.load(Ordering::SeqCst) == count {
            return true;
        }
        yield_now();
    }
    false
}

/// Tells of a lane again and again, each time once it was seen before. Whether it was seen each time.
fn tell_each(lifecycle: &Lifecycle, seen: &Seen, number: usize) -> bool
    requires { number < 3 }
{
    let mut all = true;
    for round in 1..=ROUNDS {
        lifecycle.tell_filled(ModuleNumber::at(number));
        if !comes_to(&seen.lanes[number], round) {
            all = false;
            break;
        }
    }
    seen.telling.fetch_sub(1, Ordering::SeqCst);
    all
}

/// Counts the lanes that are told of, until no thread tells any more.
fn take_each<R: Wait>(rt: &R, lifecycle: &Lifecycle, seen: &Seen) {
    for _ in rt.forever() {
        let filled = lifecycle.take_filled();
        for number in 0..TELLERS {
            if filled.has(ModuleNumber::at(number)) {
                seen.lanes[number].fetch_add(1, Ordering::SeqCst);
            }
        }
        if seen.telling.load(Ordering::SeqCst) == 0 {
            break;
        }
    }
}

/// A thread for each lane, and this one beside them: whether each lane was seen each time.
fn tell_and_take<'s, 'e, R: Threads + Wait + Abort>(
    scope: &Scope<'s, &'e ()>,
    rt: &R,
    lifecycle: &'e Lifecycle,
    seen: &'e Seen,
) -> bool {
    let Ok(first) = scope.spawn(move || -> bool { tell_each(lifecycle, seen, 0) }) else {
        panic!(rt; "no thread")
    };
    let Ok(second) = scope.spawn(move || -> bool { tell_each(lifecycle, seen, 1) }) else {
        panic!(rt; "no thread")
    };
    let Ok(third) = scope.spawn(move || -> bool { tell_each(lifecycle, seen, 2) }) else {
        panic!(rt; "no thread")
    };
    take_each(rt, lifecycle, seen);
    [first.join(rt), second.join(rt), third.join(rt)] == [true; TELLERS]
}

/// Whether each lane that is told of is seen, while others are told of and taken.
fn each_lane_is_seen<R: Threads + Wait + Abort>(rt: &R) -> bool {
    let lifecycle = &Lifecycle::new(1);
    let seen = &Seen {
        lanes: [AtomicU64::new(0), AtomicU64::new(0), AtomicU64::new(0)],
        telling: AtomicU64::new(TELLERS as u64),
    };
    scope(scope_env(), rt, move |scope| -> bool {
        tell_and_take(scope, rt, lifecycle, seen)
    })
}

#[test]
fn a_lane_that_is_told_of_is_seen(rt: HostRuntime) {
    assert!(rt; each_lane_is_seen(&rt));
}

/// Tells that a verifier's thread has nothing more to put, once two threads are there.
fn verify_together(lifecycle: &Lifecycle, there: &AtomicU64) {
    there.fetch_add(1, Ordering::SeqCst);
    comes_to(there, 2);
    lifecycle.tell_verified();
}

/// How often two verifiers' threads end at the same time.
const MEETINGS: u64 = 20_000;

/// Whether all verifiers are told of as ended, where two end at the same time.
fn both_are_counted<R: Threads>(rt: &R) -> bool {
    let lifecycle = Lifecycle::new(2);
    let there = AtomicU64::new(0);
    join(
        rt,
        || verify_together(&lifecycle, &there),
        || verify_together(&lifecycle, &there),
    );
    lifecycle.are_verified().is_some()
}

#[test]
fn two_verifiers_that_end_at_once_are_counted(rt: HostRuntime) {
    for _ in 0..MEETINGS {
        assert!(rt; both_are_counted(&rt));
    }
}

/// Waits at a wait set until all threads are to stop.
fn wait_at<R: Wait>(rt: &R, lifecycle: &Lifecycle, wait_set: &WaitSet) -> bool {
    let mut waiter = Waiter::new(wait_set, 0);
    for _ in rt.forever() {
        if lifecycle.stopped().is_some() {
            break;
        }
        waiter.pause(rt);
    }
    true
}

/// How many milliseconds the threads have to come to their wait sets.
const TO_COME: u64 = 100;

/// A thread at each wait set; once all sleep there, all are told to stop. Whether all come back.
fn wait_and_stop<'s, 'e, R: Threads + Wait + Abort + Sync>(
    scope: &Scope<'s, &'e ()>,
    rt: &'e R,
    lifecycle: &'e Lifecycle,
) -> bool {
    let all = lifecycle.wait_sets();
    let Ok(items) = scope.spawn(move || -> bool { wait_at(rt, lifecycle, &all.items) }) else {
        panic!(rt; "no thread")
    };
    let Ok(intake) = scope.spawn(move || -> bool { wait_at(rt, lifecycle, &all.intake_room) })
    else {
        panic!(rt; "no thread")
    };
    let Ok(judged) = scope.spawn(move || -> bool { wait_at(rt, lifecycle, &all.judged) }) else {
        panic!(rt; "no thread")
    };
    let Ok(lanes) = scope.spawn(move || -> bool { wait_at(rt, lifecycle, &all.lane_room) }) else {
        panic!(rt; "no thread")
    };
    lifecycle.sleep(rt, Duration::from_millis(TO_COME));
    lifecycle.stop(LoadError::NoMemory);
    [
        items.join(rt),
        intake.join(rt),
        judged.join(rt),
        lanes.join(rt),
    ] == [true; 4]
}

/// Whether threads that wait for anything come back where all are to stop.
fn all_stop<R: Threads + Wait + Abort + Sync>(rt: &R) -> bool {
    let lifecycle = &Lifecycle::new(1);
    scope(scope_env(), rt, move |scope| -> bool {
        wait_and_stop(scope, rt, lifecycle)
    })
}

#[test]
fn threads_that_wait_for_anything_are_told_to_stop(rt: HostRuntime) {
    assert!(rt; all_stop(&rt));
}

/// Whether a thread that waits is called, though another one that waited there has left.
fn is_called<R: Wait>(rt: &R) -> bool {
    let lifecycle = Lifecycle::new(2);
    let room = &lifecycle.wait_sets().lane_room;
    let (mut leaving, mut waiting) = (Waiter::new(room, 0), Waiter::new(room, 1));
    leaving.pause(rt);
    waiting.pause(rt);
    leaving.end();
    Notifier::of_all(room, 1).brought();
    waiting.pause(rt);
    true
}

#[test]
fn who_leaves_takes_no_other_ones_call(rt: HostRuntime) {
    assert!(rt; is_called(&rt));
}

/// Whether the first of `count` threads is called where all of them wait.
fn first_of_all_is_called<R: Wait>(rt: &R, count: usize) -> bool {
    let lifecycle = Lifecycle::new(count);
    let items = &lifecycle.wait_sets().items;
    let mut first = Waiter::new(items, 0);
    first.pause(rt);
    for number in 1..count {
        Waiter::new(items, number).pause(rt);
    }
    Notifier::of_one(items, 1).brought();
    first.pause(rt);
    true
}

#[test]
fn one_is_called_where_all_wait(rt: HostRuntime) {
    for count in 1..=8usize {
        assert!(rt; first_of_all_is_called(&rt, count));
    }
}

/// Whether the first of `count` threads is called where there is work for one more, and none of the others waits.
fn one_more_is_called<R: Wait>(rt: &R, count: usize) -> bool {
    let lifecycle = Lifecycle::new(count);
    let items = &lifecycle.wait_sets().items;
    let mut first = Waiter::new(items, 0);
    first.pause(rt);
    Notifier::of_one(items, 1).tell_one_more();
    first.pause(rt);
    true
}

#[test]
fn one_more_is_called_though_the_others_work(rt: HostRuntime) {
    for count in 1..=8usize {
        assert!(rt; one_more_is_called(&rt, count));
    }
}

/// How often a thread waits and is called while another one comes and goes.
const CALLS: u64 = 50_000;

/// What was brought last, what was found last, and whether all is over, each a number.
#[derive(Drop)]
struct Calls {
    brought: AtomicU64,
    found: AtomicU64,
    over: AtomicU64,
}

/// Says that it waits and that it doesn't, again and again, until all is over.
fn come_and_go<R: Wait>(rt: &R, room: &WaitSet, calls: &Calls) -> bool {
    let mut waiter = Waiter::new(room, 0);
    for _ in rt.forever() {
        if calls.over.load(Ordering::SeqCst) != 0 {
            break;
        }
        waiter.pause(rt);
        waiter.end();
    }
    true
}

/// Waits for each thing that is brought.
fn find_each<R: Wait>(rt: &R, room: &WaitSet, calls: &Calls) -> bool {
    let mut waiter = Waiter::new(room, 1);
    let mut next = 1;
    for _ in rt.forever() {
        if calls.brought.load(Ordering::SeqCst) < next {
            waiter.pause(rt);
            continue;
        }
        waiter.end();
        calls.found.store(next, Ordering::SeqCst);
        if next >= CALLS {
            break;
        }
        next += 1;
    }
    true
}

/// Brings one thing after another, each once the last was found. Whether each was found; where one wasn't, whoever waits for it
/// is called in another way, and finds all at once.
fn bring_each<R: Wait>(rt: &R, room: &WaitSet, calls: &Calls) -> bool {
    let mut notifier = Notifier::of_all(room, 1);
    let mut all = true;
    for number in 1..=CALLS {
        calls.brought.store(number, Ordering::SeqCst);
        notifier.brought();
        if !comes_to(&calls.found, number) {
            all = false;
            calls.brought.store(CALLS, Ordering::SeqCst);
            Waiter::new(room, 1).pause(rt);
            notifier.tell();
            break;
        }
    }
    calls.over.store(1, Ordering::SeqCst);
    all
}

/// A thread that waits, one that comes and goes, and this one, which calls: whether each call is heard.
fn wait_and_call<'s, 'e, R: Threads + Wait + Abort + Sync>(
    scope: &Scope<'s, &'e ()>,
    rt: &'e R,
    room: &'e WaitSet,
    calls: &'e Calls,
) -> bool {
    let Ok(waiting) = scope.spawn(move || -> bool { find_each(rt, room, calls) }) else {
        panic!(rt; "no thread")
    };
    let Ok(passing) = scope.spawn(move || -> bool { come_and_go(rt, room, calls) }) else {
        panic!(rt; "no thread")
    };
    let all = bring_each(rt, room, calls);
    [waiting.join(rt), passing.join(rt), all] == [true; 3]
}

/// Whether each call of a thread is heard while another one comes and goes at the same wait set.
fn each_call_is_heard<R: Threads + Wait + Abort + Sync>(rt: &R) -> bool {
    let lifecycle = &Lifecycle::new(2);
    let calls = &Calls {
        brought: AtomicU64::new(0),
        found: AtomicU64::new(0),
        over: AtomicU64::new(0),
    };
    scope(scope_env(), rt, move |scope| -> bool {
        wait_and_call(scope, rt, &lifecycle.wait_sets().lane_room, calls)
    })
}

#[test]
fn who_comes_and_goes_takes_no_other_ones_call(rt: HostRuntime) {
    assert!(rt; each_call_is_heard(&rt));
}

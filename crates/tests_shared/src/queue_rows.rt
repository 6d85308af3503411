//! Lanes, and queues of other sizes, on one thread.

ghost use Rattle.std.specs.Prelude.{◌≡◌, ◌<◌, ◌≤◌};
ghost use Rattle.lfi_queues.specs.Passes.{AreAllPasses};

use crate::passes::{PutRow, Queue, TakeRow, row_of_puts, row_of_takes};
use lfi_queues::{Lane, LanePut, LaneTake, RuledQueue};
use std::process::Abort;
use std::sync::Wait;

/// Puts the numbers from 0 on, `CAPACITY` of them, and one more: whether that one alone is handed back.
fn is_filled<const CAPACITY: usize>(
    rt: &impl Wait,
    queue: &RuledQueue<u64, CAPACITY>,
    pass: &mut LanePut<u64>,
    count: u64,
    more: u64,
) -> bool
    requires { pass.old.queue ≡ queue.now }
    ensures { pass.new.queue ≡ queue.now }
{
    let mut all = true;
    for number in 0..count {
        all = queue.put(rt, pass, number).is_ok() && all;
    }
    queue.put(rt, pass, more) == Err(more) && all
}

/// Takes `CAPACITY` numbers and one more: whether they are those from 0 on, and there are no more.
fn is_emptied<const CAPACITY: usize>(
    rt: &impl Wait,
    queue: &RuledQueue<u64, CAPACITY>,
    pass: &mut LaneTake<u64>,
    count: u64,
) -> bool
    requires { pass.old.queue ≡ queue.now }
    ensures { pass.new.queue ≡ queue.now }
{
    let mut all = true;
    for number in 0..count {
        all = queue.take(rt, pass) == Some(number) && all;
    }
    queue.take(rt, pass).is_none() && all
}

/// Fills a queue, which then hands back what comes, and empties it; and again: whether it does so.
fn is_filled_and_emptied<const CAPACITY: usize>(rt: &(impl Abort + Wait + AllocGlobal)) -> bool
    requires { (0 < CAPACITY) × (CAPACITY ≤ 256) }
{
    let (queue, mut puts, mut takes) = RuledQueue::<u64, CAPACITY>::new(rt.alloc(), 1, 1).expect(
        rt, "no queue",
    );
    let (put, take) = (&mut puts[0], &mut takes[0]);
    let count = CAPACITY as u64;
    let first = is_filled(rt, &queue, put, count, 1000);
    let emptied = is_emptied(rt, &queue, take, count);
    let second = is_filled(rt, &queue, put, count, 1001);
    let emptied_again = is_emptied(rt, &queue, take, count);
    [first, emptied, second, emptied_again] == [true; 4]
}

#[test]
fn full_at_its_capacity(rt: HostRuntime) {
    assert!(rt; is_filled_and_emptied::<1>(&rt));
    assert!(rt; is_filled_and_emptied::<2>(&rt));
    assert!(rt; is_filled_and_emptied::<7>(&rt));
    assert!(rt; is_filled_and_emptied::<256>(&rt));
}

#[test]
fn a_lane_holds_64(rt: HostRuntime) {
    let (lane, mut puts, mut takes) = Lane::<u64>::new(rt.alloc(), 1, 1).expect(&rt, "no lane");
    let (put, take) = (&mut puts[0], &mut takes[0]);
    let filled = is_filled(&rt, &lane, put, 64, 64);
    let taken = lane.take(&rt, take);
    let is_put = lane.put(&rt, put, 65).is_ok();
    assert!(rt; filled && taken == Some(0) && is_put);
}

/// What is put by three putters, in this order: by which, and the number.
const PUTS: [(usize, u64); 5] = [(2, 31), (0, 11), (1, 21), (0, 12), (2, 32)];

/// Puts by the passes at their places: whether each number is taken in.
fn are_put(rt: &impl Wait, queue: &Queue, puts: &mut PutRow) -> bool
    requires { AreAllPasses queue.now 3 puts.old }
    ensures { AreAllPasses queue.now 3 puts.new }
{
    let mut all = true;
    for (at, number) in &PUTS {
        let Some(pass) = &mut puts[*at] else {
            return false;
        };
        all = queue.put(rt, pass, *number).is_ok() && all;
    }
    all
}

/// Takes by the pass at a place.
fn take_at(rt: &impl Wait, queue: &Queue, takes: &mut TakeRow, at: usize) -> Option<u64>
    requires { AreAllPasses queue.now 2 takes.old × (at < 2) }
    ensures { AreAllPasses queue.now 2 takes.new }
{
    match &mut takes[at] {
        Some(pass) => queue.take(rt, pass),
        None => None,
    }
}

/// Takes what is left: whether it is these numbers, and no more.
fn is_rest(
    rt: &impl Wait,
    queue: &Queue,
    puts: &mut PutRow,
    takes: &mut TakeRow,
    numbers: &[u64],
) -> bool
    requires counts { (queue.now.putters ≡ 3) × (queue.now.takers ≡ 2) }
    requires puts { AreAllPasses queue.now 3 puts.old }
    requires takes { AreAllPasses queue.now 2 takes.old }
{
    let mut all = true;
    for number in numbers {
        all = queue.rest(rt, puts, takes) == Some(*number) && all;
    }
    queue.rest(rt, puts, takes).is_none() && all
}

#[test]
#[tactic(auto, using(crate::proofs::Rows::count_of_new))]
fn rest_takes_what_is_left(rt: HostRuntime) {
    let (queue, puts, takes) = Queue::new(rt.alloc(), 3, 2).expect(&rt, "no queue");
    let mut puts = row_of_puts(&queue, puts);
    let mut takes = row_of_takes(&queue, takes);
    let all = are_put(&rt, &queue, &mut puts);
    let taken = [
        take_at(&rt, &queue, &mut takes, 1),
        take_at(&rt, &queue, &mut takes, 0),
    ];
    assert!(rt; all && taken == [Some(31), Some(11)]);
    assert!(rt; is_rest(&rt, &queue, &mut puts, &mut takes, &[21, 12, 32]));
}

//! The intake: on one thread, and on two that may not wait.

ghost use Rattle.std.specs.Prelude.{◌≡◌, Some};
ghost use Rattle.lfi_queues.specs.Passes.{AreAllPasses, IsPass, IsSamePass};

use lfi_queues::{Intake, PutPass, TakePass, Taken};
use std::thread::{self, Threads};

/// Puts the numbers from this one on, `count` of them: how many were put.
fn fill(intake: &Intake<u64>, pass: &mut PutPass<u64>, first: u64, count: u64) -> u64
    requires { pass.old.queue ≡ intake.now }
    ensures { IsSamePass pass.old pass.new }
{
    let mut done = 0u64;
    for number in 0..count {
        let is_put = intake.put(pass, first.wrapping_add(number)).is_ok();
        done = done.wrapping_add(u64::from(is_put));
    }
    done
}

/// Takes in `tries` tries: how many of the numbers from 0 on came, in order.
fn take_some(intake: &Intake<u64>, pass: &mut TakePass<u64>, tries: u64) -> u64
    requires { pass.old.queue ≡ intake.now }
    ensures { IsSamePass pass.old pass.new }
{
    let mut next = 0u64;
    for _ in 0..tries {
        let is_next = matches!(intake.take(pass), Taken::Item(it) if it == next);
        next = next.wrapping_add(u64::from(is_next));
    }
    next
}

/// Takes `count` numbers: whether they are those from 0 on, and there are no more.
fn is_emptied(intake: &Intake<u64>, pass: &mut TakePass<u64>, count: u64) -> bool
    requires { pass.old.queue ≡ intake.now }
{
    let came = take_some(intake, pass, count);
    matches!(intake.take(pass), Taken::Empty) && came == count
}

#[test]
fn room_for_256(rt: HostRuntime) {
    let (intake, mut puts, mut takes) = Intake::<u64>::new(rt.alloc(), 2, 1).expect(
        &rt,
        "no intake",
    );
    let none = is_emptied(&intake, &mut takes[0], 0);
    let second = fill(&intake, &mut puts[1], 0, 256);
    let first = fill(&intake, &mut puts[0], 1000, 256);
    assert!(rt; none && [first, second] == [256, 256]);
}

#[test]
fn more_than_256(rt: HostRuntime) {
    let (intake, mut puts, mut takes) = Intake::<u64>::new(rt.alloc(), 1, 1).expect(
        &rt,
        "no intake",
    );
    let put = fill(&intake, &mut puts[0], 0, 1000);
    assert!(rt; put == 1000 && is_emptied(&intake, &mut takes[0], 1000));
}

/// Of two parts, which hold three items and one, the first item of each is taken.
#[test]
fn untaken_items(rt: HostRuntime) {
    let (intake, mut puts, mut takes) = Intake::<u64>::new(rt.alloc(), 2, 1).expect(
        &rt,
        "no intake",
    );
    fill(&intake, &mut puts[0], 0, 3);
    fill(&intake, &mut puts[1], 1, 1);
    let held = [intake.untaken(&mut puts[0]), intake.untaken(&mut puts[1])];
    let came = take_some(&intake, &mut takes[0], 2);
    let left = [intake.untaken(&mut puts[0]), intake.untaken(&mut puts[1])];
    assert!(rt; held == [3, 1] && came == 2 && left == [2, 0]);
}

#[test]
fn parts_by_turns(rt: HostRuntime) {
    let (intake, mut puts, mut takes) = Intake::<u64>::new(rt.alloc(), 2, 1).expect(
        &rt,
        "no intake",
    );
    let put = [
        fill(&intake, &mut puts[0], 0, 1),
        fill(&intake, &mut puts[0], 2, 1),
        fill(&intake, &mut puts[1], 1, 1),
    ];
    assert!(rt; put == [1, 1, 1] && is_emptied(&intake, &mut takes[0], 3));
}

/// Of three parts, which hold a1 and a2, b1 and c1, these are taken in the order a1, b1, c1, a2.
#[test]
fn three_parts_by_turns(rt: HostRuntime) {
    let (intake, mut puts, mut takes) = Intake::<u64>::new(rt.alloc(), 3, 1).expect(
        &rt,
        "no intake",
    );
    let put = [
        fill(&intake, &mut puts[0], 0, 1),
        fill(&intake, &mut puts[0], 3, 1),
        fill(&intake, &mut puts[1], 1, 1),
        fill(&intake, &mut puts[2], 2, 1),
    ];
    assert!(rt; put == [1, 1, 1, 1] && is_emptied(&intake, &mut takes[0], 4));
}

/// Puts the numbers from 0 on, `count` of them: how many were put, and the pass.
fn put_all(intake: &Intake<u64>, mut pass: PutPass<u64>, count: u64) -> (u64, PutPass<u64>)
    requires { IsPass intake.now 1 0 pass }
    ensures { IsPass intake.now 1 0 result.1 }
{
    let done = fill(intake, &mut pass, 0, count);
    (done, pass)
}

/// Takes in `tries` tries: how many of the numbers from 0 on came, in order, and the pass.
fn take_all(intake: &Intake<u64>, mut pass: TakePass<u64>, tries: u64) -> (u64, TakePass<u64>)
    requires { IsPass intake.now 1 0 pass }
    ensures { IsPass intake.now 1 0 result.1 }
{
    let came = take_some(intake, &mut pass, tries);
    (came, pass)
}

/// One thread puts the numbers below 1,000, and another takes. Neither may wait.
fn put_and_take<R: Threads>(
    rt: &R,
    intake: &Intake<u64>,
    put: PutPass<u64>,
    take: TakePass<u64>,
) -> ((u64, PutPass<u64>), (u64, TakePass<u64>))
    requires put { IsPass intake.now 1 0 put }
    requires take { IsPass intake.now 1 0 take }
    ensures put { IsPass intake.now 1 0 result.0.1 }
    ensures take { IsPass intake.now 1 0 result.1.1 }
{
    thread::join(
        rt,
        move || -> (u64, PutPass<u64>)
            requires { IsPass intake.now 1 0 put }
            ensures { IsPass intake.entry.now 1 0 result.1 }
        { put_all(intake, put, 1000) },
        move || -> (u64, TakePass<u64>)
            requires { IsPass intake.now 1 0 take }
            ensures { IsPass intake.entry.now 1 0 result.1 }
        { take_all(intake, take, 3000) },
    )
}

/// The putter's pass, at its place.
type PutRow = [Option<PutPass<u64>>; 1];

/// The taker's pass, at its place.
type TakeRow = [Option<TakePass<u64>>; 8];

/// Takes what is left: how far the numbers from this one on came, with none after them; 1,001 where others did.
fn rest_from(intake: &Intake<u64>, puts: &mut PutRow, takes: &mut TakeRow, first: u64) -> u64
    requires counts { (intake.now.putters ≡ 1) × (intake.now.takers ≡ 1) }
    requires puts { AreAllPasses intake.now 1 puts.old }
    requires takes { AreAllPasses intake.now 1 takes.old }
{
    for next in first..1001 {
        match intake.rest(puts, takes) {
            Some(item) if item == next => {}
            Some(_) => return 1001,
            None => return next,
        }
    }
    1001
}

/// Takes what is left, with both passes in hand.
#[tactic(auto, using(crate::proofs::Rows::one_put, crate::proofs::Rows::one_take))]
fn rest_of(intake: &Intake<u64>, put: PutPass<u64>, take: TakePass<u64>, first: u64) -> u64
    requires counts { (intake.now.putters ≡ 1) × (intake.now.takers ≡ 1) }
    requires put { IsPass intake.now 1 0 put }
    requires take { IsPass intake.now 1 0 take }
{
    let mut puts = [Some(put)];
    let mut takes = [Some(take), None, None, None, None, None, None, None];
    rest_from(intake, &mut puts, &mut takes, first)
}

/// Two threads put and take, and what is left is taken: how many numbers were put, and how far they came, in order.
fn put_and_come<R: Threads>(
    rt: &R,
    intake: &Intake<u64>,
    put: PutPass<u64>,
    take: TakePass<u64>,
) -> [u64; 2]
    requires counts { (intake.now.putters ≡ 1) × (intake.now.takers ≡ 1) }
    requires put { IsPass intake.now 1 0 put }
    requires take { IsPass intake.now 1 0 take }
{
    let ((done, put), (taken, take)) = put_and_take(rt, intake, put, take);
    [done, rest_of(intake, put, take, taken)]
}

#[test]
fn two_threads_that_may_not_wait(rt: HostRuntime) {
    let (intake, mut puts, mut takes) = Intake::<u64>::new(rt.alloc(), 1, 1).expect(
        &rt,
        "no intake",
    );
    let put = puts.swap_remove(0);
    let take = takes.swap_remove(0);
    assert!(rt; put_and_come(&rt, &intake, put, take) == [1000, 1000]);
}

//! Queues on several threads. What is compared is the same in every schedule.

ghost use Rattle.std.specs.Prelude.{◌≤◌};

use crate::workers::{EACH, relay};
use std::process::Abort;
use std::sync::Wait;
use std::thread::Threads;

/// Counts the numbers of a list among those that came: whether each was put, and those of each putting thread come in
/// order.
fn are_in_order(seen: &mut [u32], list: &[u64]) -> bool {
    let mut next = [0u64; 8];
    let mut all = true;
    for number in list {
        let thread = (*number / EACH).min(7) as usize;
        all = next[thread] <= *number && all;
        next[thread] = number.saturating_add(1);
        match seen.get_mut(*number as usize) {
            Some(count) => *count = count.saturating_add(1),
            None => all = false,
        }
    }
    all
}

/// Several threads put, others take: whether each number comes once, and in the order of its thread.
fn each_comes_once(
    rt: &(impl Abort + Threads + Wait + Sync + AllocGlobal),
    putters: usize,
    takers: usize,
) -> bool
    requires { (putters ≤ 8) × (1 ≤ takers) × (takers ≤ 8) }
{
    let lists = relay(rt, rt.alloc(), putters, takers);
    let mut seen = vec![in rt.alloc(); 0u32; putters * EACH as usize].expect(rt, "no memory");
    let mut all = lists.len() == takers + 1;
    for list in lists.iter() {
        all = are_in_order(&mut seen, list.as_slice()) && all;
    }
    seen.iter().all(|count| *count == 1) && all
}

#[test]
fn three_put_and_three_take(rt: HostRuntime) {
    assert!(rt; each_comes_once(&rt, 3, 3));
}

#[test]
fn four_put_and_one_takes(rt: HostRuntime) {
    assert!(rt; each_comes_once(&rt, 4, 1));
}

//! What a taking pass does: one steal a part.

ghost use Rattle.std.specs.Prelude.{◌≤◌, length};
ghost use Rattle.crossbeam_deque.specs.Steals.{MatchSteal};
ghost use Rattle.lfi_queues.specs.inner.Parts.{SeesEmpty, SeesRetry, Gives};
ghost use Rattle.lfi_queues.specs.inner.Rounds.{DidParts, DidRound, DidTake};

use crate::intake::Taken;
use crate::part::{Home, TakeEnd};
use crate::pass::Next;
use crossbeam_deque::Steal;
use lfi_auxiliary::{Auxiliary, Reading};
use std::collections::LinkedList;
use std::marker::Model;

/// What a round over some parts gave.
enum Round<T> {
    /// An item, and the part that it came from.
    Got(usize, T),
    /// Nothing: each part was empty.
    Empty,
    /// Nothing, and a steal has to be tried again.
    Again,
}

/// One steal, where there is an end.
fn steal_at<T>(slot: &mut Option<TakeEnd<T>>) -> Steal<T>
    ensures { MatchSteal result (SeesEmpty slot.old slot.new) (SeesRetry slot.old slot.new) (λ item. Gives item slot.old slot.new) }
{
    match slot {
        Some(end) => end.steal(),
        None => Steal::Empty,
    }
}

/// One steal from each of these parts, until one gives an item.
fn try_parts<T>(ends: &mut [Option<TakeEnd<T>>], from: usize, to: usize) -> Round<T>
    requires { (from ≤ to) × (to ≤ length ends.old) }
    ensures { DidParts from to result ends.old ends.new }
{
    let mut again = false;
    for number in from..to {
        match steal_at(&mut ends[number]) {
            Steal::Success(item) => return Round::Got(number, item),
            Steal::Empty => {}
            Steal::Retry => again = true,
        }
    }
    if again { Round::Again } else { Round::Empty }
}

/// One steal a part, from this part on and round to it, until one gives an item.
fn try_round<T>(ends: &mut [Option<TakeEnd<T>>], first: usize) -> Round<T>
    requires { first ≤ length ends.old }
    ensures { DidRound first result ends.old ends.new }
{
    let count = ends.len();
    match try_parts(ends, first, count) {
        Round::Got(number, item) => Round::Got(number, item),
        Round::Empty => try_parts(ends, 0, first),
        Round::Again => match try_parts(ends, 0, first) {
            Round::Got(number, item) => Round::Got(number, item),
            Round::Empty | Round::Again => Round::Again,
        },
    }
}

/// The list with one more item.
pub(crate) struct WithLast;

impl<'a, T> Reading<(&'a Auxiliary<LinkedList<T>>, &'a T), LinkedList<T>> for WithLast {
    ghost use Rattle.std.specs.Prelude.{[], ◌∷◌, ◌++◌};

    ghost reads = { λ p. p.0.now.value ++ p.1.now ∷ [] };
}

/// What a taking pass has: its end of each part, and the part at which its next round begins. The rest is known
/// to contracts alone.
#[derive(Drop)]
pub(crate) struct TakeEnds<T> {
    pub(crate) ends: Vec<Option<TakeEnd<T>>>,
    pub(crate) next: usize,
    pub(crate) home: Auxiliary<Home>,
    pub(crate) number: Auxiliary<u64>,
    pub(crate) calls: Auxiliary<u64>,
    pub(crate) items: Auxiliary<LinkedList<T>>,
}

impl<T> Model for TakeEnds<T> {
    ghost use Rattle.lfi_queues.specs.inner.Parts.{TakeView};

    ghost Value = { TakeView T };

    ghost view = { λ t. record { home = t.home.value; number = t.number.value; calls = t.calls.value; items = t.items.value; next = t.next; ends = t.ends.items } };
}

impl<T> TakeEnds<T> {
    /// One steal a part, from the part after that of the last item on.
    pub(crate) fn take(&mut self) -> Taken<T>
        ensures { DidTake result self.old self.new }
    {
        self.calls = Auxiliary::of::<Auxiliary<u64>, Next>(&self.calls);
        let first = self.next.min(self.ends.len());
        let round = try_round(self.ends.as_mut_slice(), first);
        match round {
            Round::Got(number, item) => {
                self.next = number + 1;
                self.items = Auxiliary::of::<(&Auxiliary<LinkedList<T>>, &T), WithLast>(&(
                    &self.items,
                    &item,
                ));
                Taken::Item(item)
            }
            Round::Empty => Taken::Empty,
            Round::Again => Taken::Again,
        }
    }
}

//! What is left in an intake, once all its passes are in one hand.

ghost use Rattle.std.specs.Prelude.{◌≡◌, ◌<◌, ◌≤◌, ℕ, false, List, length, map, Option, Some, None, IfSome, is_none, MatchOption, get_or};
ghost use Rattle.std.specs.Option.{option_map};
ghost use Rattle.crossbeam_deque.specs.Handles.{worker_view, worker_index, worker_flavor, SameWorker};
ghost use Rattle.lfi_queues.specs.Kept.{Kept};
ghost use Rattle.lfi_queues.specs.Passes.{PassView, AreAllPasses, IsPass, items_at, with_first, after_rest, IsFirstOf};
ghost use Rattle.lfi_queues.specs.inner.Ports.{EndsInFirst, HasTaken};
ghost use Rattle.lfi_queues.specs.inner.Owners.{part_of};
ghost use Rattle.lfi_queues.specs.inner.Parts.{IsWhole, take_pass, TakesFrom};
ghost use Rattle.lfi_queues.specs.inner.Remains.{Looked, AreAtPart, LearnedAt, AreTakersOf, LeftAt, HasTakenBelow, LeftIn, Opens, AreOpened, wants};

use crate::intake::{Intake, PutPass, TakePass};
use crate::log::{All, OneTaker};
use crate::part::{Owner, PartLook, PartTakes, TakeEnd};
use crate::round::TakeEnds;
use lfi_auxiliary::{Auxiliary, Reading};
use std::array;
use std::collections::LinkedList;

/// The most takers of an intake of which the rest can be taken.
pub const TAKERS: usize = 8;

/// What is asked of a part.
#[derive(Clone, Copy, PartialEq, Eq)]
enum Asked {
    /// Its first item.
    FirstItem,
    /// No item: it is only looked at.
    Nothing,
}

/// The first item of a part, where it is asked for.
fn look<T: Drop>(owner: &mut Owner<T>, asked: Asked) -> Option<T>
    requires { (worker_flavor owner.old ≡ 0) × EndsInFirst (worker_view owner.old).takes }
    ensures owner { SameWorker owner.old owner.new × (worker_index owner.new ≤ worker_index owner.old) }
    ensures taken { HasTaken (worker_view owner.old) result (worker_view owner.new) }
    ensures looked { Looked (wants asked) (worker_view owner.old) result }
{
    match asked {
        Asked::FirstItem => owner.pop_as::<PartTakes>(),
        Asked::Nothing => {
            owner.len_as::<PartLook>();
            None
        }
    }
}

/// The first item of a part, where it is asked for, once its owner has also taken in what these takers
/// took there, which they get back.
fn rest_of_ends<T: Drop>(
    owner: &mut Owner<T>,
    place: usize,
    asked: Asked,
    takers: &mut [Option<TakeEnds<T>>],
) -> Option<T>
    requires owner { (worker_flavor owner.old ≡ 0) × EndsInFirst (worker_view owner.old).takes }
    requires takers { AreAtPart (part_of owner.old) place takers.old }
    ensures owner { SameWorker owner.old owner.new × (worker_index owner.new ≤ worker_index owner.old) }
    ensures takers { takers.new ≡ takers.old }
    ensures taken { HasTaken (worker_view owner.old) result (worker_view owner.new) }
    ensures learned { LearnedAt (wants asked) place (worker_view owner.old) takers.old result }
{
    let Some((slot, later)) = takers.split_first_mut() else {
        return look(owner, asked);
    };
    let Some(mut taker) = slot.take() else {
        return rest_of_ends(owner, place, asked, later);
    };
    let Some(end) = taker.ends[place].take() else {
        unreachable!()
    };
    let TakeEnd {
        stealer,
        seat,
        tally,
    } = end;
    owner.absorb::<All>(seat);
    let item = rest_of_ends(owner, place, asked, later);
    let seat = owner.another::<OneTaker>();
    taker.ends[place] = Some(TakeEnd {
        stealer,
        seat,
        tally,
    });
    *slot = Some(taker);
    item
}

/// The list with the item that was found, if one was.
struct WithFound;

impl<'a, T> Reading<(&'a Auxiliary<LinkedList<T>>, &'a Option<T>), LinkedList<T>> for WithFound {
    ghost use Rattle.lfi_queues.specs.inner.Remains.{with_found};

    ghost reads = { λ p. with_found p.0.now.value p.1.now };
}

/// What is left in the part of this putter, with all takers at hand: where it is asked for
/// the first of them takes an item.
fn rest_at<T: Drop>(
    intake: &Intake<T>,
    slot: &mut Option<PutPass<T>>,
    place: usize,
    asked: Asked,
    first: &mut TakeEnds<T>,
    others: &mut [Option<TakeEnds<T>>],
) -> Option<T>
    requires slot { IfSome slot.old (IsPass intake.now intake.now.putters place) }
    requires takers { AreTakersOf intake.now first.old others.old }
    ensures slot { slot.new ≡ slot.old }
    ensures others { others.new ≡ others.old }
    ensures first { MatchOption result (first.new ≡ first.old) (λ x. TakesFrom first.old first.new place x) }
    ensures left { (pass : PassView T) → slot.old ≡ Some pass → LeftAt (wants asked) place pass.items first.old others.old result }
    ensures none { slot.old ≡ None → result ≡ None }
    ensures unwanted { wants asked ≡ false → result ≡ None }
{
    let Some(pass) = slot.take() else {
        return None;
    };
    let PutPass {
        mut owner,
        home,
        number,
        calls,
    } = pass;
    let Some(end) = first.ends[place].take() else {
        unreachable!()
    };
    let TakeEnd {
        stealer,
        seat,
        tally,
    } = end;
    owner.absorb::<All>(seat);
    let item = rest_of_ends(&mut owner, place, asked, others);
    let seat = owner.another::<OneTaker>();
    first.ends[place] = Some(TakeEnd {
        stealer,
        seat,
        tally,
    });
    first.items = Auxiliary::of::<(&Auxiliary<LinkedList<T>>, &Option<T>), WithFound>(&(
        &first.items,
        &item,
    ));
    *slot = Some(PutPass {
        owner,
        home,
        number,
        calls,
    });
    item
}

/// One part more, where those before it had this item left.
fn rest_step<T: Drop>(
    intake: &Intake<T>,
    slot: &mut Option<PutPass<T>>,
    place: usize,
    found: Option<T>,
    first: &mut TakeEnds<T>,
    others: &mut [Option<TakeEnds<T>>],
) -> Option<T>
    requires slot { IfSome slot.old (IsPass intake.now intake.now.putters place) }
    requires takers { AreTakersOf intake.now first.old others.old }
    ensures slot { slot.new ≡ slot.old }
    ensures others { others.new ≡ others.old }
    ensures stays { IfSome found (λ x. (result ≡ Some x) × (first.new ≡ first.old)) }
    ensures first { found ≡ None → MatchOption result (first.new ≡ first.old) (λ x. TakesFrom first.old first.new place x) }
    ensures left { (pass : PassView T) → slot.old ≡ Some pass → (r : Option T) × LeftAt (is_none found) place pass.items first.old others.old r × (found ≡ None → r ≡ result) }
    ensures none { slot.old ≡ None → result ≡ found }
{
    match found {
        Some(item) => {
            rest_at(intake, slot, place, Asked::Nothing, first, others);
            Some(item)
        }
        None => rest_at(intake, slot, place, Asked::FirstItem, first, others),
    }
}

/// What is left in all parts, with all takers at hand.
fn rest_of_parts<T: Drop>(
    intake: &Intake<T>,
    puts: &mut [Option<PutPass<T>>],
    first: &mut TakeEnds<T>,
    others: &mut [Option<TakeEnds<T>>],
) -> Option<T>
    requires puts { AreAllPasses intake.now intake.now.putters puts.old }
    requires takers { AreTakersOf intake.now first.old others.old }
    ensures puts { puts.new ≡ puts.old }
    ensures others { others.new ≡ others.old }
    ensures first { HasTakenBelow (length puts.old) first.old first.new result }
    ensures left { (held : List T) × LeftIn (length puts.old) puts.old first.old others.old held × IsFirstOf held result }
{
    let mut found = None;
    for place in 0..puts.len() {
        found = rest_step(intake, &mut puts[place], place, found, first, others);
    }
    found
}

/// What a taking pass has.
fn open<T: Drop>(slot: &mut Option<TakePass<T>>) -> Option<TakeEnds<T>>
    ensures { Opens slot.old result }
{
    match slot.take() {
        Some(pass) => Some(pass.ends),
        None => None,
    }
}

/// What the passes have, at their places.
fn open_all<T: Drop>(takes: &mut [Option<TakePass<T>>; TAKERS]) -> [Option<TakeEnds<T>>; TAKERS]
    ensures opened { AreOpened takes.old result }
    ensures long { length result ≡ length takes.old }
{
    let mut takers = array::from_fn(|_| None);
    for place in 0..TAKERS {
        takers[place] = open(&mut takes[place]);
    }
    takers
}

/// A taking pass.
fn close<T>(taker: Option<TakeEnds<T>>) -> Option<TakePass<T>>
    requires { IfSome taker IsWhole }
    ensures { result ≡ option_map take_pass taker }
{
    match taker {
        Some(ends) => Some(TakePass { ends }),
        None => None,
    }
}

/// The passes come back to their places.
fn close_all<T: Drop>(
    takes: &mut [Option<TakePass<T>>; TAKERS],
    mut takers: [Option<TakeEnds<T>>; TAKERS],
)
    requires { (k : ℕ) → IfSome (get_or takers k None) IsWhole }
    ensures { takes.new ≡ map (option_map take_pass) takers }
{
    for place in 0..TAKERS {
        takes[place] = close(takers[place].take());
    }
}

impl<T> Intake<T> {
    /// Takes an item that is left, as the first taker, which doesn't count as a call. It is handed
    /// all passes, each at the place of its number; where it answers None nothing is left, and what
    /// was put is what was taken.
    pub fn rest(
        &self,
        puts: &mut [Option<PutPass<T>>],
        takes: &mut [Option<TakePass<T>>; TAKERS],
    ) -> Option<T>
    where
        T: Drop,
        requires takers { 0 < self.now.takers }
        requires puts { AreAllPasses self.now self.now.putters puts.old }
        requires takes { AreAllPasses self.now self.now.takers takes.old }
        ensures puts { puts.new ≡ puts.old }
        ensures takes { takes.new ≡ with_first takes.old (λ pass. after_rest pass result) }
        ensures kept { (held : List T) × Kept (items_at puts.old) (items_at takes.old) held × IsFirstOf held result }
    {
        let mut takers = open_all(takes);
        let Some(mut first) = takers[0].take() else {
            unreachable!()
        };
        let item = rest_of_parts(self, puts, &mut first, &mut takers);
        takers[0] = Some(first);
        close_all(takes, takers);
        item
    }
}

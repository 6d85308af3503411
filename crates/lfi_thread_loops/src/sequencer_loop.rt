//! What the sequencers' thread does.

ghost use Rattle.std.specs.Prelude.{◌≡◌};
ghost use Rattle.lfi_sequence.specs.Turns.{lane_pass_of, LaneTaken};
ghost use Rattle.lfi_sync.specs.LaneSets.{has_lane};
ghost use Rattle.lfi_thread_loops.specs.inner.Workers.{AreSequencersOf, HasLooked, HavePlaced, IsSequencerOf, LookedAt};

use crate::promises::Placed;
use lfi_module::ModuleNumber;
use lfi_sequence::{Sequencer, SequencerTurn};
use lfi_stage_model::Shared;
use lfi_sync::{LaneSet, Lifecycle, Notifier, Waiter};
use std::sync::Wait;

/// How many items of its lane a sequencer takes in a row, at most: half a lane.
const ITEMS_IN_A_ROW: u32 = 32;

/// What a sequencer found in its lane.
#[derive(Clone, Copy)]
pub(crate) enum LaneLook {
    /// Nothing.
    Empty,
    /// Items, and it took all of them.
    Emptied,
    /// Items, of which some may be left.
    Left,
}

/// One turn of the sequencer of this module.
fn turn_one<S: Wait>(
    rt: &S,
    shared: &Shared,
    module: ModuleNumber,
    sequencer: &mut Sequencer,
) -> SequencerTurn
    requires is { IsSequencerOf shared.now «module» sequencer.old }
    ensures is { IsSequencerOf shared.now «module» sequencer.new }
    ensures takes { LaneTaken result (lane_pass_of sequencer.old) (lane_pass_of sequencer.new) }
{
    sequencer.turn(rt, &shared.lanes[module.index()], &shared.board)
}

/// Turns the sequencer of this module until its lane is empty, or it has taken half a lane.
fn empty_lane<S: Wait>(
    rt: &S,
    shared: &Shared,
    module: ModuleNumber,
    sequencer: &mut Sequencer,
) -> LaneLook
    requires is { IsSequencerOf shared.now «module» sequencer.old }
    ensures is { IsSequencerOf shared.now «module» sequencer.new }
    ensures looked { LookedAt result sequencer.old sequencer.new }
{
    match turn_one(rt, shared, module, sequencer) {
        SequencerTurn::Worked => {}
        SequencerTurn::Idle => return LaneLook::Empty,
    }
    for _turn in 1..ITEMS_IN_A_ROW {
        match turn_one(rt, shared, module, sequencer) {
            SequencerTurn::Worked => {}
            SequencerTurn::Idle => return LaneLook::Emptied,
        }
    }
    LaneLook::Left
}

/// Has the sequencer of this module take what is in its lane, where that is one of the filled ones. What may be left is told of
/// again. The answer is whether it took an item.
fn look_at<S: Wait>(
    rt: &S,
    shared: &Shared,
    lifecycle: &Lifecycle,
    filled: &LaneSet,
    module: ModuleNumber,
    sequencer: &mut Sequencer,
) -> bool
    requires is { IsSequencerOf shared.now «module» sequencer.old }
    ensures is { IsSequencerOf shared.now «module» sequencer.new }
    ensures looked { HasLooked (has_lane filled.now «module») result sequencer.old sequencer.new }
{
    if !filled.has(module) {
        return false;
    }
    match empty_lane(rt, shared, module, sequencer) {
        LaneLook::Empty => false,
        LaneLook::Emptied => true,
        LaneLook::Left => {
            lifecycle.tell_filled(module);
            true
        }
    }
}

/// Has the sequencer of each filled lane take what is in it, but half a lane at most. The answer is whether one of them took an
/// item.
fn sequence_once<S: Wait>(
    rt: &S,
    shared: &Shared,
    lifecycle: &Lifecycle,
    filled: &LaneSet,
    sequencers: &mut Vec<Sequencer>,
) -> bool
    requires { AreSequencersOf shared.now sequencers.old.items }
    ensures are { AreSequencersOf shared.now sequencers.new.items }
    ensures placed { HavePlaced (has_lane filled.now) result sequencers.old.items sequencers.new.items }
{
    let mut worked = false;
    for number in 0..sequencers.len() {
        let module = ModuleNumber::at(number);
        if look_at(
            rt,
            shared,
            lifecycle,
            filled,
            module,
            &mut sequencers[number],
        ) {
            worked = true;
        }
    }
    worked
}

/// In how many rounds of turns the sequencers' thread calls verifiers that wait for room, at the
/// latest.
const ROUNDS_A_CALL: u32 = 16;

/// How the sequencers' thread waits, and tells verifiers of the room that it brings.
#[derive(Drop)]
struct SequencerPace<'a> {
    /// Until there are judged items.
    rest: Waiter<'a>,
    /// Of room in the lanes, by rounds.
    room: Notifier<'a>,
}

impl<'a> SequencerPace<'a> {
    fn new(lifecycle: &'a Lifecycle) -> SequencerPace<'a> {
        let wait_sets = lifecycle.wait_sets();
        SequencerPace {
            rest: Waiter::new(&wait_sets.judged, 0),
            room: Notifier::of_all(&wait_sets.lane_room, ROUNDS_A_CALL),
        }
    }

    /// What follows a round of turns, in which an item was taken or none was. Verifiers are called
    /// for more than one place: a lane's items are taken faster than a thread wakes.
    fn go_on<S: Wait>(&mut self, rt: &S, worked: bool) {
        if worked {
            self.room.brought();
            self.rest.end();
        } else {
            self.room.tell();
            self.rest.pause(rt);
        }
    }
}

/// Turns all sequencers until it is told that the verifiers' threads have ended, or that all are to
/// stop. Then it looks at all lanes once more.
pub(crate) fn sequence_loop<S: Wait>(
    rt: &S,
    shared: &Shared,
    lifecycle: &Lifecycle,
    mut sequencers: Vec<Sequencer>,
) -> Placed
    requires { AreSequencersOf shared.now sequencers.items }
    ensures { AreSequencersOf shared.now result.sequencers.items }
{
    let mut pace = SequencerPace::new(lifecycle);
    for _ in rt.forever() {
        if let Some(told) = lifecycle.are_verified() {
            sequence_once(rt, shared, lifecycle, &LaneSet::all(), &mut sequencers);
            return Placed { sequencers, told };
        }
        let worked = sequence_once(
            rt,
            shared,
            lifecycle,
            &lifecycle.take_filled(),
            &mut sequencers,
        );
        pace.go_on(rt, worked);
    }
    unreachable!()
}

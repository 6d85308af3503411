//! How far a receiver's thread comes ahead of the verifiers.

ghost use Rattle.std.specs.Prelude.{◌≡◌};
ghost use Rattle.lfi_stage_model.specs.Parts.{IsReceiver};

use crate::promises::PartId;
use lfi_receive::Receiver;
use lfi_sync::{WaitSet, Waiter};
use std::sync::Wait;

/// With how many untaken items of its own a receiver's thread calls one more verifier.
const MANY_UNTAKEN: usize = 64;

/// With how many it takes no turn, since pages that wait in the intake are memory.
const MOST_UNTAKEN: usize = 128;

/// With fewer than how many one that took no turn goes on.
const FEW_UNTAKEN: usize = 32;

/// After how many puts a receiver's thread that is far ahead looks again.
const LOOK_PUTS: usize = 32;

/// How far a receiver's thread is ahead of the verifiers.
#[derive(Clone, Copy)]
pub(crate) enum Distance {
    /// Not far: those that are awake keep up.
    Near,
    /// So far that one more is of use.
    Far,
    /// So far that it takes no turn now.
    TooFar,
}

/// Whether a receiver's thread takes turns.
#[derive(Clone, Copy)]
enum Flow {
    Open,
    Held,
}

impl Flow {
    /// With how many untaken items it takes no turn then.
    fn limit(self) -> usize {
        match self {
            Flow::Open => MOST_UNTAKEN,
            Flow::Held => FEW_UNTAKEN,
        }
    }
}

/// Keeps a receiver's thread from turning while too many of its items are untaken.
#[derive(Drop)]
pub(crate) struct BackPressure<'a> {
    /// Until verifiers have taken some of them.
    room: Waiter<'a>,
    /// How many are untaken, at most: as many as at the last look, and those that were put since.
    untaken: usize,
    /// With how many it looks again.
    look_at: usize,
    flow: Flow,
}

impl<'a> BackPressure<'a> {
    /// That of the receiver with this number, which has put nothing yet.
    pub(crate) fn new(intake_room: &'a WaitSet, number: usize) -> BackPressure<'a> {
        BackPressure {
            room: Waiter::new(intake_room, number),
            untaken: 0,
            look_at: MANY_UNTAKEN,
            flow: Flow::Open,
        }
    }

    /// It has put one more item.
    pub(crate) fn put(&mut self) {
        self.untaken = self.untaken.saturating_add(1);
    }

    /// How far it is ahead. It looks only where that may be far.
    #[inline(always)]
    pub(crate) fn distance(&mut self, part: PartId<'_>, receiver: &mut Receiver) -> Distance
        requires is { IsReceiver part.shared.now part.number receiver.old }
        ensures same { receiver.new ≡ receiver.old }
    {
        if self.untaken < self.look_at {
            return Distance::Near;
        }
        let shared = part.shared;
        self.untaken = receiver.untaken(&shared.intake);
        self.distance_seen()
    }

    /// How far it is ahead, where it has just looked.
    fn distance_seen(&mut self) -> Distance {
        if self.untaken >= self.flow.limit() {
            self.flow = Flow::Held;
            self.look_at = FEW_UNTAKEN;
            return Distance::TooFar;
        }
        self.flow = Flow::Open;
        self.look_at = self
            .untaken
            .saturating_add(LOOK_PUTS)
            .clamp(MANY_UNTAKEN, MOST_UNTAKEN);
        self.room.end();
        if self.untaken < MANY_UNTAKEN {
            Distance::Near
        } else {
            Distance::Far
        }
    }

    /// Waits until verifiers have taken items, and were told that it waits.
    pub(crate) fn pause<S: Wait>(&mut self, rt: &S) {
        self.room.pause(rt);
    }
}

//! What passes pieces on: the intake, and an array queue of 256 places. Each pass has its queue.

ghost use Rattle.std.specs.Prelude.{◌≡◌};

use lfi_queues::{Intake, LanePut, LaneTake, PutPass, RuledQueue, TakePass, Taken};
use std::sync::Wait;

/// As large as an item of the loader.
pub(crate) type Piece = [u64; 5];

/// The array queue.
pub(crate) type Ring = RuledQueue<Piece, 256>;

/// What puts pieces.
pub(crate) trait Puts {
    /// Whether it was put.
    fn put<R: Wait>(&mut self, rt: &R, piece: Piece) -> bool;
}

/// What takes pieces.
pub(crate) trait Takes {
    /// A piece, if one came.
    fn take<R: Wait>(&mut self, rt: &R) -> Option<Piece>;
}

/// A pass that puts to the intake.
#[derive(Drop)]
pub(crate) struct PartPut<'a> {
    pub(crate) intake: &'a Intake<Piece>,
    pub(crate) pass: PutPass<Piece>,
    pub(crate) ghost tie: { pass.queue ≡ intake.now },
}

impl<'a> Puts for PartPut<'a> {
    fn put<R: Wait>(&mut self, _rt: &R, piece: Piece) -> bool {
        self.intake.put(&mut self.pass, piece).is_ok()
    }
}

/// A pass that takes from the intake.
#[derive(Drop)]
pub(crate) struct PartTake<'a> {
    pub(crate) intake: &'a Intake<Piece>,
    pub(crate) pass: TakePass<Piece>,
    pub(crate) ghost tie: { pass.queue ≡ intake.now },
}

impl<'a> Takes for PartTake<'a> {
    fn take<R: Wait>(&mut self, _rt: &R) -> Option<Piece> {
        match self.intake.take(&mut self.pass) {
            Taken::Item(piece) => Some(piece),
            Taken::Empty | Taken::Again => None,
        }
    }
}

/// A pass that puts to the array queue.
#[derive(Drop)]
pub(crate) struct RingPut<'a> {
    pub(crate) ring: &'a Ring,
    pub(crate) pass: LanePut<Piece>,
    pub(crate) ghost tie: { pass.queue ≡ ring.now },
}

impl<'a> Puts for RingPut<'a> {
    fn put<R: Wait>(&mut self, rt: &R, piece: Piece) -> bool {
        self.ring.put(rt, &mut self.pass, piece).is_ok()
    }
}

/// A pass that takes from the array queue.
#[derive(Drop)]
pub(crate) struct RingTake<'a> {
    pub(crate) ring: &'a Ring,
    pub(crate) pass: LaneTake<Piece>,
    pub(crate) ghost tie: { pass.queue ≡ ring.now },
}

impl<'a> Takes for RingTake<'a> {
    fn take<R: Wait>(&mut self, rt: &R) -> Option<Piece> {
        self.ring.take(rt, &mut self.pass)
    }
}

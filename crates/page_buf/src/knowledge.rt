//! What a seat of the pool knows, the rule of the pool, and what each step tells.

ghost use Rattle.page_buf.specs.inner.Slots.{Kept, idle};
ghost use Rattle.page_buf.specs.SeenSlots.{empty, full};
ghost use Rattle.page_buf.specs.inner.Steps.{sat, looked, tried, done};

use crate::page::OpenPage;
use atomic_table::{Play, TableRule};
use std::collections::LinkedList;

/// The word of a slot was seen to hold a number.
pub struct SeenSlot {
    pub slot: u64,
    pub number: u64,
}

/// What a seat knows. No value of it is made.
pub struct Knowledge {
    /// 0, or 1 more than the slot that is out with the seat.
    pub out: u64,
    pub seen: LinkedList<SeenSlot>,
}

pub struct Slots;

impl TableRule<Option<OpenPage>, Knowledge, ()> for Slots {
    ghost holds = { λ _. Kept };

    ghost first = { λ _. idle };
}

pub(crate) struct Sit;

impl Play<Option<OpenPage>, Knowledge> for Sit {
    ghost then = { sat };
}

pub(crate) struct SeeFull;

impl Play<Option<OpenPage>, Knowledge> for SeeFull {
    ghost then = { looked full };
}

pub(crate) struct SeeEmpty;

impl Play<Option<OpenPage>, Knowledge> for SeeEmpty {
    ghost then = { looked empty };
}

pub(crate) struct Try;

impl Play<Option<OpenPage>, Knowledge> for Try {
    ghost then = { tried };
}

pub(crate) struct PutBack;

impl Play<Option<OpenPage>, Knowledge> for PutBack {
    ghost then = { done };
}

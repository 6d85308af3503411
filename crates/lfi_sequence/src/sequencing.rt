//! What a sequence does with one more item.

ghost use Rattle.std.specs.Prelude.{◌≡◌, ◌⊎◌, ℕ, ◌+◌, ◌-◌, ◌<◌, ◌≤◌, ◌==◌, ◌&&◌, IsTrue, slice_set, IfSome, IfNone, List, [], ◌∷◌, ◌++◌, length, Option, Some, None, IfOk, get_or, true, false, vec_capacity};
ghost use Rattle.lfi_model.specs.Item.{ItemView};
ghost use Rattle.lfi_sequence.specs.Come.{Come, Coming};
ghost use Rattle.lfi_sequence.specs.Sequenced.{Holds, Sequenced, Steps, board_seat_of, module_number_of, pool_seat_of, told_in, fits_state, is_same};
ghost use Rattle.lfi_sequence.specs.Tells.{Tells, HasEnd};
ghost use Rattle.lfi_sequence.specs.declared.sequence.Stepped.TheVariants as stepped;

use crate::placing::{Placing, after, is_same, pass_over};
use crate::report::{ModuleReport, report_of};
use crate::sequence::{BoardNotice, Sequence, Stepped};
use lfi_board::SequencerSeat;
use lfi_image::PageMemory;
use lfi_model::Judged;
use lfi_module::{Extent, WordCount};
use page_buf::PoolMember;
use std::alloc::{AllocError, Global};

/// The places of the table: ordinals are 0 to 4,097.
const TABLE_ITEMS: usize = 4_098;

/// Whether an item of a module of this extent fits after what has come.
fn fits(placing: &Option<Placing>, extent: Extent) -> bool
    ensures { result ≡ fits_state placing.now extent }
{
    match placing {
        None => true,
        Some(placing) => is_same(extent, placing.builder.extent()) && placing.ended.is_none(),
    }
}

/// Takes the next item out of the table, where it is there and fits.
fn next(table: &mut Vec<Option<Judged>>, count: usize, placing: &Option<Placing>) -> Option<Judged>
    ensures taken { IfSome result (λ j. (count < length table.old.items) × (get_or table.old.items count None ≡ Some j) × (fits_state placing.now j.extent ≡ true) × (table.new.items ≡ slice_set table.old.items count None)) }
    ensures none { IfNone result ((table.new.items ≡ table.old.items) × ((j : ItemView) → get_or table.old.items count None ≡ Some j → fits_state placing.now j.extent ≡ false)) }
    ensures room { vec_capacity table.new ≡ vec_capacity table.old }
{
    if count >= table.len() {
        return None;
    }
    let is_next = match &table[count] {
        Some(item) => fits(placing, item.extent),
        None => false,
    };
    if !is_next {
        return None;
    }
    table[count].take()
}

/// Makes a place in the table, at which nothing waits yet.
fn grow(table: &mut Vec<Option<Judged>>, place: usize)
    requires room { place < vec_capacity table.old }
    ensures there { place < length table.new.items }
    ensures most { (length table.new.items ≡ length table.old.items) ⊎ (length table.new.items ≡ place + 1) }
    ensures same { (k : ℕ) → get_or table.new.items k None ≡ get_or table.old.items k None }
    ensures room { vec_capacity table.old ≤ vec_capacity table.new }
{
    while table.len() <= place {
        match table.push(None) {
            Ok(()) => {}
            Err(_) => unreachable!(),
        }
    }
}

impl Sequence {
    /// Of the seat's module no item has come. The memory for its pages is reserved, and so is the
    /// table. Pages that it doesn't place go back to the pool.
    ///
    /// # Errors
    ///
    /// `AllocError` where memory is refused.
    pub fn new(alloc: Global, seat: SequencerSeat, pool: PoolMember) -> Result<Sequence, AllocError>
        ensures seat { IfOk result (λ s. board_seat_of s ≡ seat) }
        ensures sequenced { IfOk result (λ s. Sequenced s []) }
        ensures pool { IfOk result (λ s. (pool_seat_of s).pool ≡ pool.pool) }
    {
        Ok(Sequence {
            seat,
            count: 0,
            table: Vec::with_capacity(alloc, TABLE_ITEMS)?,
            spare: Some(PageMemory::new(alloc, WordCount::MOST)?),
            placing: None,
            pool,
        })
    }

    /// What there is to tell the board: that a page brought a fault, or that the End came after
    /// pages without one.
    pub fn told(&self) -> BoardNotice
        ensures { result ≡ told_in self.now }
    {
        match &self.placing {
            None => BoardNotice::Nothing,
            Some(placing) => match (placing.refusal, placing.ended) {
                (Some(_), _) => BoardNotice::Refused,
                (None, Some(_)) => BoardNotice::Finished,
                (None, None) => BoardNotice::Nothing,
            },
        }
    }

    /// Places the next item, where it is there and fits.
    fn step(&mut self) -> Stepped
        ensures steps { (taken come : List ItemView) → Coming taken come → Holds self.old taken come → Steps result self.new taken come }
        ensures fewer { result ≡ stepped.Placed → (self.old.count < self.new.count) × (self.new.count ≤ 4098) }
        ensures same { board_seat_of self.new ≡ board_seat_of self.old }
    {
        match next(&mut self.table, self.count, &self.placing) {
            None => Stepped::Waits,
            Some(item) => {
                self.count += 1;
                let before = self.placing.take();
                let module = self.seat.module();
                self.placing = after(&mut self.spare, module, before, item, &mut self.pool);
                Stepped::Placed
            }
        }
    }

    /// Keeps an item at its place, unless one of its ordinal came before.
    fn keep(&mut self, item: Judged)
        ensures kept { (taken come : List ItemView) → Holds self.old taken come → Holds self.new (taken ++ item ∷ []) come }
        ensures same { board_seat_of self.new ≡ board_seat_of self.old }
    {
        let place = item.ordinal as usize;
        if place < self.count {
            pass_over(&mut self.pool, item);
            return;
        }
        grow(&mut self.table, place);
        if self.table[place].is_some() {
            pass_over(&mut self.pool, item);
            return;
        }
        self.table[place] = Some(item);
    }

    /// One item that was taken: places all that has come without a gap then, and keeps the others.
    pub fn handle(&mut self, item: Judged)
        ensures tie { (taken : List ItemView) → Sequenced self.old taken → Sequenced self.new (taken ++ item ∷ []) }
        ensures same { board_seat_of self.new ≡ board_seat_of self.old }
    {
        self.keep(item);
        while self.step() == Stepped::Placed {}
    }

    /// What became of its module, once all its items were taken.
    pub fn into_report(self) -> ModuleReport
        ensures { (taken items : List ItemView) → Sequenced self taken → Come taken items → HasEnd items → Tells (module_number_of self) result items }
    {
        report_of(self.placing)
    }
}

//! The pool of pages that are used again: 64 slots, each with a word that says what lies there. No
//! call waits.

ghost use Rattle.std.specs.Prelude.{◌≡◌, ◌<◌, [], IfSome, IfNone, IfOk, IfErr, OnOk, OnErr, All, length};
ghost use Rattle.lfi_module.specs.Numbers.{small_page};

use crate::knowledge::{Knowledge, PutBack, SeeEmpty, SeeFull, Sit, Slots, Try};
use crate::page::{OpenPage, SealedPage};
use atomic_table::{Seat, Shared, Table};
use std::alloc::{AllocError, Global};

/// Nothing lies in the slot.
const EMPTY: u64 = 0;

/// A seat is at the slot.
const BUSY: u64 = 1;

/// A page lies in the slot.
const FULL: u64 = 2;

/// How many pages there is room for.
const SLOTS: usize = 64;

type Top = Shared<Option<OpenPage>, Knowledge, (), Slots>;

/// A pool of small pages, which threads share by `&`.
#[derive(Drop)]
pub struct Pool {
    table: Table<Option<OpenPage>, Knowledge, (), Slots, Global>,
    ghost wide: { (table.shared.table_id.words ≡ 64) × (table.shared.table_id.slots ≡ 64) },
}

/// The right to use a pool. It can be sent to another thread.
#[derive(Drop)]
pub struct PoolSeat {
    seat: Seat<Option<OpenPage>, Knowledge>,
    ghost idle: { (seat.me.0.out ≡ 0) × (seat.me.1 ≡ []) },
}

/// One more seat at a table.
fn sit(top: &Top) -> PoolSeat
    requires { 0 < top.now.table_id.words }
    ensures table { result.seat.table_id ≡ top.now.table_id }
    ensures unused { result.seat.me.0.seen ≡ [] }
{
    let seat = top.load_new_seat::<Sit>(0).1;
    PoolSeat { seat }
}

/// `count` seats at a table.
fn sit_all(alloc: Global, top: &Top, count: usize) -> Result<Vec<PoolSeat>, AllocError>
    requires { 0 < top.now.table_id.words }
    ensures count { IfOk result (λ seats. length seats.items ≡ count) }
    ensures seated { IfOk result (λ seats. All (λ s. s.seat.table_id ≡ top.now.table_id) seats.items) }
    ensures unused { IfOk result (λ seats. All (λ s. s.seat.me.0.seen ≡ []) seats.items) }
{
    let mut seats = Vec::with_capacity(alloc, count)?;
    for _ in 0..count {
        seats.push(sit(top))?;
    }
    Ok(seats)
}

impl Pool {
    ghost use Rattle.page_buf.specs.Page.{small_empty};
    ghost use Rattle.page_buf.specs.SeenSlots.{Found, Passed, empty, full};
    ghost use Rattle.page_buf.specs.Pools.{pool_id, pool_of, seen_by};

    /// A pool in which each slot is empty, and its seats, which have found nothing yet. This is its only call that takes
    /// memory. That each slot is empty is asked by the pool's rule: at first no page is there, and no seat is at a slot.
    ///
    /// # Errors
    ///
    /// `AllocError` where memory is refused.
    pub fn new(alloc: Global, seats: usize) -> Result<(Pool, Vec<PoolSeat>), AllocError>
        ensures count { IfOk result (λ r. length r.1.items ≡ seats) }
        ensures seated { IfOk result (λ r. All (λ s. pool_of s ≡ pool_id r.0) r.1.items) }
        ensures unused { IfOk result (λ r. All (λ s. seen_by s ≡ []) r.1.items) }
    {
        let (table, _first) = Table::vacant(alloc, &[EMPTY; SLOTS], SLOTS, &())?;
        let pool = Pool { table };
        let all = sit_all(alloc, &pool.table.shared, seats)?;
        Ok((pool, all))
    }

    /// One more seat, which has found nothing yet. It takes no memory.
    pub fn seat(&self) -> PoolSeat
        ensures pool { pool_of result ≡ pool_id self.now }
        ensures unused { seen_by result ≡ [] }
    {
        sit(&self.table.shared)
    }

    /// A small page in which nothing is written. `None` only where each slot was found not full, at a
    /// moment of the call.
    pub fn get(&self, seat: &mut PoolSeat) -> Option<OpenPage>
        requires pool { pool_of seat.old ≡ pool_id self.now }
        ensures pool { pool_of seat.new ≡ pool_of seat.old }
        ensures empty { IfSome result (λ page. page ≡ small_empty) }
        ensures some { IfSome result (λ _. Found full (seen_by seat.old) (seen_by seat.new)) }
        ensures none { IfNone result (Passed full 64 (seen_by seat.old) (seen_by seat.new)) }
    {
        let top = &self.table.shared;
        for k in 0..SLOTS {
            if top.load::<SeeFull>(&mut seat.seat, k) == FULL
                && top.compare_exchange::<Try>(&mut seat.seat, k, FULL, BUSY) == FULL
            {
                let page = top.exchange(&mut seat.seat, k, None);
                top.store::<PutBack>(&mut seat.seat, k, EMPTY);
                return page;
            }
        }
        None
    }

    /// Takes a small page, whose bytes nobody reads again.
    ///
    /// # Errors
    ///
    /// The page as it was, only where each slot was found not empty, at a moment of the call.
    pub fn give(&self, seat: &mut PoolSeat, page: SealedPage) -> Result<(), SealedPage>
        requires pool { pool_of seat.old ≡ pool_id self.now }
        requires small { page.size ≡ small_page }
        ensures pool { pool_of seat.new ≡ pool_of seat.old }
        ensures ok { OnOk result (Found empty (seen_by seat.old) (seen_by seat.new)) }
        ensures back { IfErr result (λ back. back ≡ page) }
        ensures err { OnErr result (Passed empty 64 (seen_by seat.old) (seen_by seat.new)) }
    {
        let top = &self.table.shared;
        for k in 0..SLOTS {
            if top.load::<SeeEmpty>(&mut seat.seat, k) == EMPTY
                && top.compare_exchange::<Try>(&mut seat.seat, k, EMPTY, BUSY) == EMPTY
            {
                let _ = top.exchange(&mut seat.seat, k, Some(page.reopen()));
                top.store::<PutBack>(&mut seat.seat, k, FULL);
                return Ok(());
            }
        }
        Err(page)
    }
}

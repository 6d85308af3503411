//! A pool that parts of a program share, each with a seat of its own.

ghost use Rattle.std.specs.Prelude.{◌≡◌, ◌≢◌, [], IfSome, IfNone, IfOk, IfErr, OnOk, OnErr, IsErr};
ghost use Rattle.lfi_module.specs.Numbers.{small_page};
ghost use Rattle.page_buf.specs.Page.{small_empty};
ghost use Rattle.page_buf.specs.SeenSlots.{Found, Passed, empty, full};

use crate::page::{OpenPage, SealedPage};
use crate::pool::{Pool, PoolSeat};
use lfi_module::PageSize;
use std::alloc::{AllocError, Global};
use std::marker::Model;
use std::sync::Arc;

/// A seat at a pool, with the pool, which is there as long as one of its members is. It can be sent
/// to another thread.
#[derive(Drop)]
pub struct PoolMember {
    pool: Arc<Pool, Global>,
    seat: PoolSeat,
}

impl Model for PoolMember {
    ghost use Rattle.std.specs.Prelude.{◌≡◌};
    ghost use Rattle.std.specs.Arc.{arc_value};
    ghost use Rattle.page_buf.specs.Members.{MemberView};
    ghost use Rattle.page_buf.specs.Pools.{pool_id, pool_of, seen_by};

    ghost Value = { MemberView };

    ghost view = { λ m. record { pool = pool_id (arc_value m.pool); seen = seen_by m.seat } };

    ghost invariant = { λ m. pool_of m.seat ≡ pool_id (arc_value m.pool) };
}

impl PoolMember {
    /// The first member of a new pool, in which no page is. It has found nothing yet.
    ///
    /// # Errors
    ///
    /// `AllocError` where memory is refused.
    pub fn new(alloc: Global) -> Result<PoolMember, AllocError>
        ensures { IfOk result (λ first. first.seen ≡ []) }
    {
        let (pool, _) = Pool::new(alloc, 0)?;
        let seat = pool.seat();
        Ok(PoolMember {
            pool: Arc::new(alloc, pool)?,
            seat,
        })
    }

    /// One more member of the same pool, which has found nothing yet. It takes no memory.
    ///
    /// # Errors
    ///
    /// `AllocError` where the pool has 2^63 members.
    pub fn another(&self) -> Result<PoolMember, AllocError>
        ensures pool { IfOk result (λ other. other.pool ≡ self.now.pool) }
        ensures unused { IfOk result (λ other. other.seen ≡ []) }
    {
        let pool = Arc::try_clone(&self.pool)?;
        let seat = pool.seat();
        Ok(PoolMember { pool, seat })
    }

    /// `get` of the pool.
    pub fn get(&mut self) -> Option<OpenPage>
        ensures pool { self.new.pool ≡ self.old.pool }
        ensures empty { IfSome result (λ page. page ≡ small_empty) }
        ensures some { IfSome result (λ _. Found full self.old.seen self.new.seen) }
        ensures none { IfNone result (Passed full 64 self.old.seen self.new.seen) }
    {
        self.pool.get(&mut self.seat)
    }

    /// `give` of the pool, which takes small pages alone.
    ///
    /// # Errors
    ///
    /// The page as it was, only where each slot was found not empty, at a moment of the call, or where the page is a
    /// large one: then no slot is tried.
    pub fn give(&mut self, page: SealedPage) -> Result<(), SealedPage>
        ensures pool { self.new.pool ≡ self.old.pool }
        ensures ok { OnOk result (Found empty self.old.seen self.new.seen) }
        ensures back { IfErr result (λ back. back ≡ page) }
        ensures small { page.size ≡ small_page → OnErr result (Passed empty 64 self.old.seen self.new.seen) }
        ensures large { page.size ≢ small_page → IsErr result × (self.new.seen ≡ self.old.seen) }
    {
        if page.size() == PageSize::SMALL {
            self.pool.give(&mut self.seat, page)
        } else {
            Err(page)
        }
    }
}

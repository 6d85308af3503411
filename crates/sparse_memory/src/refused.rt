//! The only calls that take memory, and what they answer where it was refused.

ghost use Rattle.std.specs.Prelude.{◌≡◌, ℕ, ◌+◌, ◌-◌, ◌*◌, ◌/◌, ◌<◌, ◌≤◌, length, OnOk, OnErr, IfOk, slice_index};

use crate::pages::PAGE;
use std::alloc::{AllocError, Global};

/// Memory was refused. Only calls that asked the allocator make one, where it had none.
#[derive(Clone, Copy, Debug, PartialEq, Eq)]
pub struct MemoryRefused {
    made_of: (),
}

impl MemoryRefused {
    /// What the allocator answered.
    fn of(_: AllocError) -> MemoryRefused {
        MemoryRefused { made_of: () }
    }
}

/// A table of zeros.
pub(crate) fn zero_table(alloc: Global, count: usize) -> Result<Vec<u32>, MemoryRefused>
    ensures length { IfOk result (λ v. length v.items ≡ count) }
    ensures zero { IfOk result (λ v. (k : ℕ) → slice_index v.items k ≡ 0) }
{
    match vec![in alloc; 0; count] {
        Ok(table) => Ok(table),
        Err(error) => Err(MemoryRefused::of(error)),
    }
}

/// Makes frames longer by one page of zeros: one more than its place. Only the allocator refuses that.
pub(crate) fn add_frame(frames: &mut Vec<u8>) -> Result<u32, MemoryRefused>
    requires room { length frames.old.items < 65536 * 65536 }
    ensures frame { IfOk result (λ frame. frame ≡ length frames.old.items / 65536 + 1) }
    ensures length { OnOk result (length frames.new.items ≡ length frames.old.items + 65536) }
    ensures front { OnOk result ((k : ℕ) → k < length frames.old.items → slice_index frames.new.items k ≡ slice_index frames.old.items k) }
    ensures zero { OnOk result ((k : ℕ) → length frames.old.items ≤ k → slice_index frames.new.items k ≡ 0) }
    ensures err { OnErr result (frames.new.items ≡ frames.old.items) }
{
    let size = frames.len();
    let frame = (size / PAGE + 1) as u32;
    match frames.resize(size + PAGE, 0) {
        Ok(()) => Ok(frame),
        Err(error) => Err(MemoryRefused::of(error)),
    }
}

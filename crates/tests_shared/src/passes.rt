//! A queue with all its passes in hand, each at the place of its number.

ghost use Rattle.std.specs.Prelude.{◌≡◌, ◌≤◌, vec_len};
ghost use Rattle.lfi_queues.specs.Passes.{AreAllPasses, new_passes};

use lfi_queues::{LanePut, LaneTake, RuledQueue};

/// A queue of numbers that is full soon.
pub(crate) type Queue = RuledQueue<u64, 16>;

/// The passes of all putters, by their numbers.
pub(crate) type PutRow = [Option<LanePut<u64>>; 8];

/// The passes of all takers, by their numbers.
pub(crate) type TakeRow = [Option<LaneTake<u64>>; 8];

/// The first putters' passes, each at its place.
#[tactic(auto, using(crate::proofs::Rows::last_new, crate::proofs::Rows::placed))]
pub(crate) fn row_of_puts(queue: &Queue, mut passes: Vec<LanePut<u64>>) -> PutRow
    requires { (passes.items ≡ new_passes queue.now (vec_len passes)) × (vec_len passes ≤ 8) }
    ensures { AreAllPasses queue.now (vec_len passes) result }
{
    let Some(pass) = passes.pop() else {
        return [None, None, None, None, None, None, None, None];
    };
    let number = passes.len();
    let mut row = row_of_puts(queue, passes);
    row[number] = Some(pass);
    row
}

/// The first takers' passes, each at its place.
#[tactic(auto, using(crate::proofs::Rows::last_new, crate::proofs::Rows::placed))]
pub(crate) fn row_of_takes(queue: &Queue, mut passes: Vec<LaneTake<u64>>) -> TakeRow
    requires { (passes.items ≡ new_passes queue.now (vec_len passes)) × (vec_len passes ≤ 8) }
    ensures { AreAllPasses queue.now (vec_len passes) result }
{
    let Some(pass) = passes.pop() else {
        return [None, None, None, None, None, None, None, None];
    };
    let number = passes.len();
    let mut row = row_of_takes(queue, passes);
    row[number] = Some(pass);
    row
}

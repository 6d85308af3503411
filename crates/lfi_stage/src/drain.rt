//! What is left in the lanes goes to the modules' sequences.

ghost use Rattle.std.specs.Prelude.{◌≡◌, ℕ, ◌<◌, ◌≤◌, [], length, Option, Some, None, MatchOption, get_or, slice_get};
ghost use Rattle.lfi_module.specs.Numbers.{module_count};
ghost use Rattle.lfi_model.specs.Item.{ItemView};
ghost use Rattle.lfi_queues.specs.Kept.{Kept};
ghost use Rattle.lfi_queues.specs.Passes.{QueueId, PassView, IsPass, AreAllPasses, items_at, pass_at};
ghost use Rattle.lfi_sequence.specs.Sequenced.{Sequenced, module_number_of};
ghost use Rattle.lfi_sequence.specs.declared.sequence.Sequence.{Sequence};
ghost use Rattle.lfi_sequence.specs.declared.sequencer.Sequencer.{Sequencer};
ghost use Rattle.lfi_sequence.specs.Turns.{lane_pass_of};
ghost use Rattle.lfi_stage.specs.inner.Rows.{passes_in, row_of, Popped, last_of, last_items, lane_items, DrainedTo, AreRowsOf};

use crate::slots::{empty, set};
use lfi_model::Judged;
use lfi_module::{CONNECTIONS, ModuleNumber};
use lfi_queues::{Lane, LanePut, LaneTake};
use lfi_sequence::{Sequence, Sequencer};
use std::array;
use std::sync::Wait;

/// Takes the last pass out of a row, where there is a row.
fn last_pass(row: &mut Option<Vec<LanePut<Judged>>>) -> Option<LanePut<Judged>>
    ensures { Popped (passes_in row.old) result (passes_in row.new) }
{
    match row {
        Some(passes) => passes.pop(),
        None => None,
    }
}

/// Takes the last pass out of each row.
fn gather(
    rows: &mut [Option<Vec<LanePut<Judged>>>; CONNECTIONS],
) -> [Option<LanePut<Judged>>; CONNECTIONS]
    ensures { (k : ℕ) → Popped (row_of rows.old k) (pass_at result k) (row_of rows.new k) }
{
    let mut puts = empty();
    for number in 0..CONNECTIONS {
        puts[number] = last_pass(&mut rows[number]);
    }
    puts
}

/// Hands all that is left in a lane to its sequence.
fn drain_lane<R: Wait>(
    rt: &R,
    lane: &Lane<Judged>,
    puts: &mut [Option<LanePut<Judged>>],
    takes: &mut [Option<LaneTake<Judged>>],
    sequence: &mut Sequence,
)
    requires takers { 0 < lane.now.takers }
    requires puts { AreAllPasses lane.now lane.now.putters puts.old }
    requires takes { AreAllPasses lane.now lane.now.takers takes.old }
    ensures others { (k : ℕ) → 0 < k → pass_at takes.new k ≡ pass_at takes.old k }
    ensures kept { Kept (items_at puts.old) (items_at takes.new) [] }
    ensures tie { Sequenced sequence.old (items_at takes.old 0) → Sequenced sequence.new (items_at takes.new 0) }
    ensures same { module_number_of sequence.new ≡ module_number_of sequence.old }
{
    while let Some(item) = lane.rest(rt, puts, takes) {
        sequence.handle(item);
    }
}

/// Hands all that is left in a lane to what its sequencer holds. Each row gives up its last pass,
/// which is that of the lane.
fn drain_one<R: Wait>(
    rt: &R,
    lane: &Lane<Judged>,
    rows: &mut [Option<Vec<LanePut<Judged>>>; CONNECTIONS],
    sequencer: Sequencer,
) -> Sequence
    requires takers { lane.now.takers ≡ 1 }
    requires puts { (k : ℕ) → MatchOption (last_of (row_of rows.old k)) (lane.now.putters ≤ k) (IsPass lane.now lane.now.putters k) }
    requires take { IsPass lane.now 1 0 (lane_pass_of sequencer) }
    ensures drained { DrainedTo (last_items rows.old) sequencer result }
    ensures popped { (k : ℕ) → (o : Option (PassView ItemView)) × Popped (row_of rows.old k) o (row_of rows.new k) }
{
    let mut puts = gather(rows);
    let (pass, mut sequence) = sequencer.into_parts();
    let mut takes = [Some(pass)];
    drain_lane(rt, lane, &mut puts, &mut takes, &mut sequence);
    sequence
}

/// Hands all that is left in the lanes to what their sequencers hold, from the last lane down.
pub(crate) fn drain_lanes<R: Wait>(
    rt: &R,
    lanes: &[Lane<Judged>],
    rows: &mut [Option<Vec<LanePut<Judged>>>; CONNECTIONS],
    mut sequencers: Vec<Sequencer>,
) -> [Option<Sequence>; ModuleNumber::COUNT]
    requires lanes { length lanes.now ≡ module_count }
    requires sequencers { length sequencers.items ≡ module_count }
    requires takers { (m : ℕ) (lane : QueueId) → slice_get lanes.now m ≡ Some lane → lane.takers ≡ 1 }
    requires rows { AreRowsOf lanes.now rows.old }
    requires takes { (m : ℕ) (s : Sequencer) (lane : QueueId) → slice_get sequencers.items m ≡ Some s → slice_get lanes.now m ≡ Some lane → IsPass lane 1 0 (lane_pass_of s) }
    ensures { (m : ℕ) (s : Sequencer) → slice_get sequencers.items m ≡ Some s → (after : Sequence) × (get_or result m None ≡ Some after) × DrainedTo (lane_items rows.old m) s after }
{
    let mut sequences = array::from_fn(|_| None);
    while let Some(sequencer) = sequencers.pop() {
        let module = sequencers.len();
        let sequence = drain_one(rt, &lanes[module], rows, sequencer);
        set(&mut sequences[module], Some(sequence));
    }
    sequences
}

//! The lanes of all modules, made together with the passes of verifiers and sequencers.

ghost use Rattle.std.specs.Prelude.{◌≡◌, List, [], ◌∷◌, ◌++◌, length, IfOk, OnOk};
ghost use Rattle.lfi_queues.specs.Passes.{QueueId, new_passes};
ghost use Rattle.lfi_sequence.specs.Lanes.{AreRows, AreNewLanes, new_row};

use lfi_model::Judged;
use lfi_module::ModuleNumber;
use lfi_queues::{Lane, LanePut, LaneTake};
use std::alloc::{AllocError, Global};

/// The lanes of all modules, and the passes of them.
#[derive(Drop)]
pub struct Lanes {
    /// By the modules' numbers.
    pub lanes: Vec<Lane<Judged>>,
    /// By the verifiers' numbers: a row of passes each, by the modules' numbers.
    pub puts: Vec<Vec<LanePut<Judged>>>,
    /// By the modules' numbers: what takes from the lane.
    pub takes: Vec<LaneTake<Judged>>,
}

/// `count` rows, with nothing in them yet.
fn empty_rows(alloc: Global, count: usize) -> Result<Vec<Vec<LanePut<Judged>>>, AllocError>
    ensures { IfOk result (λ rows. AreRows [] count rows.items) }
{
    let mut rows = Vec::with_capacity(alloc, count)?;
    for _row in 0..count {
        rows.push(Vec::with_capacity(alloc, ModuleNumber::COUNT)?)?;
    }
    Ok(rows)
}

/// Gives each row the pass of its number.
fn deal(
    rows: &mut Vec<Vec<LanePut<Judged>>>,
    mut passes: Vec<LanePut<Judged>>,
) -> Result<(), AllocError>
    requires { length passes.items ≡ length rows.old.items }
    ensures { OnOk result ((lanes : List QueueId) (lane : QueueId) → AreRows lanes (length rows.old.items) rows.old.items → passes.items ≡ new_passes lane (length rows.old.items) → AreRows (lanes ++ lane ∷ []) (length rows.old.items) rows.new.items) }
{
    while let Some(pass) = passes.pop() {
        rows[passes.len()].push(pass)?;
    }
    Ok(())
}

/// The only one of these passes.
fn only(mut passes: Vec<LaneTake<Judged>>) -> LaneTake<Judged>
    requires { length passes.items ≡ 1 }
    ensures { passes.items ≡ result ∷ [] }
{
    passes.swap_remove(0)
}

impl Lanes {
    /// One more lane, with its passes.
    fn add(&mut self, alloc: Global) -> Result<(), AllocError>
        ensures lanes { OnOk result ((lane : QueueId) × (self.new.lanes.items ≡ self.old.lanes.items ++ lane ∷ []) × (lane.putters ≡ length self.old.puts.items) × (lane.takers ≡ 1)) }
        ensures puts { OnOk result (AreRows self.old.lanes.items (length self.old.puts.items) self.old.puts.items → AreRows self.new.lanes.items (length self.old.puts.items) self.new.puts.items) }
        ensures takes { OnOk result (self.old.takes.items ≡ new_row self.old.lanes.items 0 → self.new.takes.items ≡ new_row self.new.lanes.items 0) }
    {
        let (lane, puts, takes) = Lane::new(alloc, self.puts.len(), 1)?;
        self.lanes.push(lane)?;
        self.takes.push(only(takes))?;
        deal(&mut self.puts, puts)
    }

    /// A lane for each module, with passes for `verifiers` verifiers.
    ///
    /// # Errors
    ///
    /// `AllocError` where memory is refused.
    pub fn new(alloc: Global, verifiers: usize) -> Result<Lanes, AllocError>
        ensures { IfOk result (AreNewLanes verifiers) }
    {
        let mut made = Lanes {
            lanes: Vec::new(alloc),
            puts: empty_rows(alloc, verifiers)?,
            takes: Vec::new(alloc),
        };
        for _module in 0..ModuleNumber::COUNT {
            made.add(alloc)?;
        }
        Ok(made)
    }
}

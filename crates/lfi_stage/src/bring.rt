//! Brings all that is left to the modules' sequences.

ghost use Rattle.std.specs.Prelude.{◌≡◌, ℕ, List, []};
ghost use Rattle.lfi_model.specs.Item.{ItemView};
ghost use Rattle.lfi_queues.specs.Kept.{Kept};
ghost use Rattle.lfi_queues.specs.Passes.{AreAllPasses, items_at};
ghost use Rattle.lfi_stage_model.specs.Workers.{AreWorkers};
ghost use Rattle.lfi_stage.specs.Settled.{Settles};

use crate::carry::{carry_hands, drain_intake};
use crate::drain::drain_lanes;
use crate::verifiers_apart::{VerifierParts, take_apart};
use lfi_model::{Item, Judged};
use lfi_module::{CONNECTIONS, ModuleNumber};
use lfi_queues::{Intake, Lane, PutPass};
use lfi_sequence::{Sequence, Sequencer, Verifier};
use std::sync::Wait;

/// Brings what is in the lanes, in the verifiers' hands and in the intake to what the modules'
/// sequencers hold, which are the sequences by the modules' numbers. It is handed all passes that
/// put to the intake, each at the place of its number. It takes no memory.
pub(crate) fn bring_all<R: Wait>(
    rt: &R,
    intake: &Intake<Item>,
    lanes: &[Lane<Judged>],
    puts: &mut [Option<PutPass<Item>>; CONNECTIONS],
    verifiers: Vec<Verifier>,
    sequencers: Vec<Sequencer>,
) -> [Option<Sequence>; ModuleNumber::COUNT]
    requires parts { AreWorkers intake.now lanes.now verifiers.items sequencers.items }
    requires puts { AreAllPasses intake.now intake.now.putters puts.old }
    ensures puts { puts.new ≡ puts.old }
    ensures settles { (takes : ℕ → List ItemView) × Kept (items_at puts.old) takes [] × Settles takes result }
{
    let VerifierParts {
        mut takes,
        mut rows,
        mut hands,
    } = take_apart(verifiers);
    let mut sequences = drain_lanes(rt, lanes, &mut rows, sequencers);
    carry_hands(&mut hands, &mut sequences);
    drain_intake(intake, puts, &mut takes, &mut sequences);
    sequences
}

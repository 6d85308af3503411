//! A stage of two receivers and two verifiers, whose parts are turned one by one. Each turn keeps
//! what `settle` asks for.

ghost use Rattle.std.specs.Prelude.{◌<◌, IfOk};
ghost use Rattle.lfi_module.specs.Numbers.{module_count};
ghost use Rattle.tests_load.specs.Pairs.{IsPair};

use lfi_board::Phase;
use lfi_model::Summary;
use lfi_module::ModuleNumber;
use lfi_receive::{Input, ReceiverTurn};
use lfi_sequence::{Gate, OpenGate, SequencerTurn, VerifierTurn};
use lfi_stage::{Report, Stage, settle};
use std::alloc::{AllocError, Global};
use std::io::Read;
use std::sync::Wait;

/// A new stage of two receivers and two verifiers.
pub fn pair(alloc: Global) -> Result<Stage, AllocError>
    ensures { IfOk result IsPair }
{
    Stage::new(alloc, 2, 2)
}

/// One turn of a receiver over its input.
fn receive<R: Read + Drop>(stage: &mut Stage, number: usize, input: &mut Input<R>) -> ReceiverTurn
    requires pair { IsPair stage.old }
    requires number { number < 2 }
    ensures { IsPair stage.new }
{
    let shared = &stage.shared;
    stage.parts.receivers[number].pull(&shared.board, &shared.intake, input)
}

/// Turns a receiver over its input until it has put all of it, or the intake refuses an item, or so
/// often: what its last turn did in the first two cases, and else More.
pub fn receive_all<R: Read + Drop>(
    stage: &mut Stage,
    number: usize,
    input: &mut Input<R>,
    most: usize,
) -> ReceiverTurn
    requires pair { IsPair stage.old }
    requires number { number < 2 }
    ensures { IsPair stage.new }
{
    for _ in 0..most {
        let did = receive(stage, number, input);
        if did == ReceiverTurn::Finished || did == ReceiverTurn::Blocked {
            return did;
        }
    }
    ReceiverTurn::More
}

/// The phase of a module, as a receiver's seat sees it.
pub fn phase(stage: &mut Stage, number: usize, module: ModuleNumber) -> Phase
    requires pair { IsPair stage.old }
    requires number { number < 2 }
    ensures { IsPair stage.new }
{
    let shared = &stage.shared;
    stage.parts.receivers[number].look(&shared.board, module)
}

/// One turn of a verifier, of which this gate is told.
fn verify<S: Wait, G: Gate>(rt: &S, stage: &mut Stage, number: usize, gate: &G) -> VerifierTurn
    requires pair { IsPair stage.old }
    requires number { number < 2 }
    ensures { IsPair stage.new }
{
    let shared = &stage.shared;
    stage.parts.verifiers[number].turn(rt, &shared.intake, &shared.lanes, gate)
}

/// Turns a verifier until a turn isn't Worked, or so often: how many were, and what the last one did.
/// This gate is told of them.
pub fn verify_all<S: Wait, G: Gate>(
    rt: &S,
    stage: &mut Stage,
    number: usize,
    gate: &G,
    most: usize,
) -> (usize, VerifierTurn)
    requires pair { IsPair stage.old }
    requires number { number < 2 }
    ensures { IsPair stage.new }
{
    for worked in 0..most {
        let did = verify(rt, stage, number, gate);
        if did != VerifierTurn::Worked {
            return (worked, did);
        }
    }
    (most, VerifierTurn::Worked)
}

/// One turn of the sequencer of this module.
pub fn place<S: Wait>(rt: &S, stage: &mut Stage, number: usize) -> SequencerTurn
    requires pair { IsPair stage.old }
    requires number { number < module_count }
    ensures { IsPair stage.new }
{
    let shared = &stage.shared;
    stage.parts.sequencers[number].turn(rt, &shared.lanes[number], &shared.board)
}

/// One turn of each sequencer.
fn place_all<S: Wait>(rt: &S, stage: &mut Stage)
    requires { IsPair stage.old }
    ensures { IsPair stage.new }
{
    for number in 0..ModuleNumber::COUNT {
        place(rt, stage, number);
    }
}

/// `rounds` rounds of a verifier and all sequencers.
pub fn go_on<S: Wait>(rt: &S, stage: &mut Stage, number: usize, rounds: usize)
    requires pair { IsPair stage.old }
    requires number { number < 2 }
    ensures { IsPair stage.new }
{
    for _ in 0..rounds {
        verify(rt, stage, number, &OpenGate);
        place_all(rt, stage);
    }
}

/// The report once all is settled.
pub fn settled_report<S: Wait>(rt: &S, stage: Stage) -> Report
    requires { IsPair stage }
{
    let Stage { parts, shared } = stage;
    settle(
        rt,
        parts.receivers,
        parts.verifiers,
        parts.sequencers,
        shared,
    )
}

/// What is told once all is settled.
pub fn settled<S: Wait>(rt: &S, stage: Stage) -> Summary
    requires { IsPair stage }
{
    settled_report(rt, stage).summary()
}

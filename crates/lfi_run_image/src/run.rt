//! Image files, run.

ghost use Rattle.std.specs.Prelude.{◌≡◌, ◌≤◌, ◌↔◌, IfOk, OnErr};
ghost use Rattle.lfi_machine.specs.Runs.{RanThenHalts};
ghost use Rattle.lfi_run_image.specs.Serving.{serves};
ghost use Rattle.lfi_run_image.specs.Runs.{CameOf, RunsImage};

use crate::console::Console;
use crate::image_run::ImageRun;
use lfi_image::CompleteImage;
use lfi_image_file::read_image;
use lfi_machine::{Halt, Machine, start_registers};
use std::alloc::{AllocError, Global};
use std::io::{Read, Write};

/// Runs a machine, with a console that serves its calls.
fn run_served<W: Write>(
    machine: &mut Machine,
    steps: u64,
    console: &mut Console<'_, W>,
) -> (Halt, u64)
    ensures within { result.1 ≤ steps }
    ensures used { (result.0 ≡ Halt.StepsUsed) ↔ (result.1 ≡ steps) }
    ensures ran { RanThenHalts serves machine.old (W.contents console.old.out.now) result.0 result.1 machine.new (W.contents console.new.out.now) }
    ensures same { console.new.out.ghost_name ≡ console.old.out.ghost_name }
{
    machine.run(steps, console)
}

/// Runs an image from its start, for at most `steps` steps. What its code prints is written to the output at its calls.
fn run_from_start<W: Write>(
    alloc: Global,
    image: CompleteImage,
    steps: u64,
    out: &mut W,
) -> Result<(Halt, u64), AllocError>
    ensures ran { IfOk result (λ ended. RunsImage image steps (W.contents out.old) (W.contents out.new) ended.0 ended.1) }
    ensures unwritten { OnErr result (out.new ≡ out.old) }
{
    let registers = start_registers(&image);
    let Ok(mut machine) = Machine::new(alloc, image, registers) else {
        return Err(AllocError);
    };
    let mut console = Console { out };
    let ended = run_served(&mut machine, steps, &mut console);
    let Console { out } = console;
    // It does nothing: the proof reads from this use what the output holds.
    let _ = &*out;
    Ok(ended)
}

/// Reads an image's file, which is all that the reader has left, and runs the image from its start, for at most `steps` steps.
/// Each byte that its code prints is written at its call. A byte that can't be written ends the run at this call, with the
/// status 255.
///
/// # Errors
///
/// Where there is no memory for the machine.
pub fn run_image<R: Read, W: Write>(
    alloc: Global,
    reader: &mut R,
    steps: u64,
    out: &mut W,
) -> Result<ImageRun, AllocError>
    ensures run { IfOk result (CameOf (R.remaining reader.old) steps (W.contents out.old) (W.contents out.new)) }
    ensures unwritten { OnErr result (out.new ≡ out.old) }
{
    match read_image(alloc, reader) {
        Ok(image) => {
            let (halt, steps) = run_from_start(alloc, image, steps, out)?;
            Ok(ImageRun::Ended { halt, steps })
        }
        Err(fault) => Ok(ImageRun::Refused(fault)),
    }
}

//! The runtime that serves the calls of the code.

ghost use Rattle.std.specs.Prelude.{◌≡◌, [], ◌∷◌, OnErr, OnOk};
ghost use Rattle.std.specs.Io.KnownBytes.{Appends, Keeps};
ghost use Rattle.lfi_run_image.specs.inner.Attempts.{Tries};

use crate::service::Service;
use a64_semantics::Registers;
use lfi_machine::{Answer, Runtime, SlotMemory};
use std::io::{self, Write};

/// The status of a run of which a byte could not be written.
const NOT_WRITTEN: u8 = 255;

/// A byte could not be written.
#[derive(Clone, Copy)]
pub(crate) struct NotWritten;

/// What came of a try to write a byte.
#[derive(Clone, Copy)]
pub(crate) enum Attempt {
    Written,
    /// Nothing was written, and it may be tried again.
    Interrupted,
    /// Nothing was written.
    Refused,
}

/// Tries to write a byte.
fn try_byte<W: Write>(out: &mut W, byte: u8) -> Attempt
    ensures { Tries (W.contents out.old) byte result (W.contents out.new) }
{
    match out.write(&[byte]) {
        Ok(0) => Attempt::Refused,
        Ok(_) => Attempt::Written,
        Err(error) if error.kind() == io::ErrorKind::Interrupted => Attempt::Interrupted,
        Err(_) => Attempt::Refused,
    }
}

/// Serves the calls of the code, over an output. Each byte is written at its call.
pub(crate) struct Console<'a, W> {
    pub(crate) out: &'a mut W,
}

impl<W: Write> Console<'_, W> {
    /// Writes a byte to the output.
    fn put(&mut self, byte: u8) -> Result<(), NotWritten>
        ensures ok { OnOk result (Appends (W.contents self.old.out.now) (W.contents self.new.out.now) (byte ∷ [])) }
        ensures err { OnErr result (Keeps (W.contents self.old.out.now) (W.contents self.new.out.now)) }
        ensures same { self.new.out.ghost_name ≡ self.old.out.ghost_name }
    {
        for _ in 0..u64::MAX {
            match try_byte(self.out, byte) {
                Attempt::Written => return Ok(()),
                Attempt::Interrupted => {}
                Attempt::Refused => return Err(NotWritten),
            }
        }
        Err(NotWritten)
    }
}

impl<W: Write> Runtime for Console<'_, W> {
    ghost use Rattle.std.specs.Prelude.{◌≡◌};
    ghost use Rattle.lfi_run_image.specs.Serving.{serves};

    ghost answers = { λ held entry given owned answer kept after.
        serves (W.contents held.out.now) entry given owned answer (W.contents kept.out.now) after
        × (kept.out.ghost_name ≡ held.out.ghost_name) };

    fn call(&mut self, entry: u32, registers: &Registers, _slot: &mut SlotMemory) -> Answer {
        let low = (registers.x[0] % 256) as u8;
        match Service::of(entry) {
            Service::Finish => Answer::End(low),
            Service::Print => match self.put(low) {
                Ok(()) => Answer::Resume(*registers),
                Err(_) => Answer::End(NOT_WRITTEN),
            },
            Service::Unknown => {
                let mut next = *registers;
                next.x[0] = u64::MAX;
                Answer::Resume(next)
            }
        }
    }
}

//! What comes of an image file that is run.

ghost use Rattle.std.specs.Prelude.{Some};
ghost use Rattle.lfi_run_image.specs.Texts.{halt_text, refusal_text, run_text, stop_text};

use lfi_image_file::ImageFault;
use lfi_machine::{Halt, StopCause};
use std::fmt;

/// What comes of an image file that is run.
#[derive(Clone, Copy)]
pub enum ImageRun {
    /// There is no image.
    Refused(ImageFault),
    /// It ran: why the run ended, and how many steps were carried out.
    Ended { halt: Halt, steps: u64 },
}

/// Why there is no image, as it is told.
#[derive(Drop)]
struct RefusalText(ImageFault);

/// Why a machine stops, as it is told.
#[derive(Drop)]
struct StopText(StopCause);

/// Why a run ended, as it is told.
#[derive(Drop)]
struct HaltText(Halt);

impl fmt::Display for RefusalText {
    ghost output = { λ refusal. Some (refusal_text refusal.0) };

    fn fmt<W: fmt::Write>(&self, f: &mut fmt::Formatter<W>) -> fmt::Result {
        match self.0 {
            ImageFault::Unlawful(fault) => write!(f, "image refused, fault 7, {fault}"),
            other => write!(f, "image refused, fault {}\n  {other}", other.number()),
        }
    }
}

impl fmt::Display for StopText {
    ghost output = { λ stop. Some (stop_text stop.0) };

    fn fmt<W: fmt::Write>(&self, f: &mut fmt::Formatter<W>) -> fmt::Result {
        match self.0 {
            StopCause::NoAccess(address) => write!(f, "halt 2 at 0x{address:016x}"),
            StopCause::NoFetch(pc) => write!(f, "halt 3 at 0x{pc:016x}"),
            StopCause::Breakpoint(pc) => write!(f, "halt 4 at 0x{pc:016x}"),
            StopCause::Ended(status) => write!(f, "halt 5 status {status}"),
            StopCause::UnlawfulAnswer => write!(f, "halt 6"),
        }
    }
}

impl fmt::Display for HaltText {
    ghost output = { λ ending. Some (halt_text ending.0) };

    fn fmt<W: fmt::Write>(&self, f: &mut fmt::Formatter<W>) -> fmt::Result {
        match self.0 {
            Halt::Stopped(cause) => write!(f, "{}", StopText(cause)),
            other => write!(f, "halt {}", other.number()),
        }
    }
}

impl fmt::Display for ImageRun {
    ghost output = { λ run. Some (run_text run) };

    /// Writes what is told of it, in a line, or in two where there is no image; without the end of the last.
    fn fmt<W: fmt::Write>(&self, f: &mut fmt::Formatter<W>) -> fmt::Result {
        match self {
            ImageRun::Refused(fault) => write!(f, "{}", RefusalText(*fault)),
            ImageRun::Ended { halt, steps } => {
                write!(f, "{} after {steps} steps", HaltText(*halt))
            }
        }
    }
}

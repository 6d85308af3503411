//! What comes of an image file that is run, as a JSON object.

ghost use Rattle.std.specs.Prelude.{Some};
ghost use Rattle.lfi_file_commands.specs.Json as spec;

use crate::info::Base;
use lfi_image_file::ImageFault;
use lfi_rules::Fault;
use lfi_run_image::{Halt, ImageRun, StopCause};
use std::fmt;

/// A fault of code: its word, and the rule that this breaks.
#[derive(Clone, Copy)]
pub struct FaultMembers(pub Fault);

impl fmt::Display for FaultMembers {
    ghost output = { λ fault. Some (spec.fault_members fault.0) };

    fn fmt<W: fmt::Write>(&self, f: &mut fmt::Formatter<W>) -> fmt::Result {
        let rule = self.0.rule.number();
        write!(f, "\"word\":{},\"rule\":{rule}", self.0.word)
    }
}

/// Why there is no image.
#[derive(Drop)]
struct NoImageMembers(ImageFault);

impl fmt::Display for NoImageMembers {
    ghost output = { λ fault. Some (spec.no_image_members fault.0) };

    fn fmt<W: fmt::Write>(&self, f: &mut fmt::Formatter<W>) -> fmt::Result {
        match self.0 {
            ImageFault::Unlawful(fault) => write!(f, "\"fault\":7,{}", FaultMembers(fault)),
            other => write!(f, "\"fault\":{},\"reason\":\"{other}\"", other.number()),
        }
    }
}

/// Why a machine stops.
#[derive(Drop)]
struct StopMembers(StopCause);

impl fmt::Display for StopMembers {
    ghost output = { λ stop. Some (spec.stop_members stop.0) };

    fn fmt<W: fmt::Write>(&self, f: &mut fmt::Formatter<W>) -> fmt::Result {
        match self.0 {
            StopCause::NoAccess(address) => {
                write!(f, "\"halt\":2,\"address\":\"{}\"", Base(address))
            }
            StopCause::NoFetch(pc) => write!(f, "\"halt\":3,\"address\":\"{}\"", Base(pc)),
            StopCause::Breakpoint(pc) => write!(f, "\"halt\":4,\"address\":\"{}\"", Base(pc)),
            StopCause::Ended(status) => write!(f, "\"halt\":5,\"status\":{status}"),
            StopCause::UnlawfulAnswer => write!(f, "\"halt\":6"),
        }
    }
}

/// Why a run ended.
#[derive(Drop)]
struct HaltMembers(Halt);

impl fmt::Display for HaltMembers {
    ghost output = { λ halt. Some (spec.halt_members halt.0) };

    fn fmt<W: fmt::Write>(&self, f: &mut fmt::Formatter<W>) -> fmt::Result {
        match self.0 {
            Halt::Stopped(cause) => write!(f, "{}", StopMembers(cause)),
            Halt::StepsUsed => write!(f, "\"halt\":1"),
            Halt::NoMemory => write!(f, "\"halt\":7"),
        }
    }
}

/// What comes of an image file that is run.
#[derive(Clone, Copy)]
pub(crate) struct RunObject(pub(crate) ImageRun);

impl fmt::Display for RunObject {
    ghost output = { λ object. Some (spec.run_object object.0) };

    fn fmt<W: fmt::Write>(&self, f: &mut fmt::Formatter<W>) -> fmt::Result {
        match self.0 {
            ImageRun::Refused(fault) => write!(f, "{{{}}}", NoImageMembers(fault)),
            ImageRun::Ended { halt, steps } => {
                write!(f, "{{{},\"steps\":{steps}}}", HaltMembers(halt))
            }
        }
    }
}

//! How a run of the program ends.

ghost use Rattle.std.specs.Prelude.{◌≡◌};
ghost use Rattle.lfi_file_commands.specs.Checking.{ending_of, worst};
ghost use Rattle.lfi_file_commands.specs.Endings.{number_of, ending_of_cause, ending_of_run};

use lfi_check::Verdict;
use lfi_image_file::ImageFault;
use lfi_run_image::{Halt, ImageRun, StopCause};

/// How a run of the program ends.
#[derive(Clone, Copy, PartialEq, Eq)]
pub enum Ending {
    /// The code is lawful; or each module is complete or unused and no connection has a fault; or an image ran until it ended
    /// with a status, came to BRK or used all steps; or help was asked for.
    Well,
    /// It isn't so: the printed lines say why.
    NotWell,
    /// A usage error.
    WrongWords,
    /// An I/O error, or memory was refused.
    Failed,
}

impl Ending {
    /// The exit status: 0 to 3.
    pub fn status(self) -> u8
        ensures { result ≡ number_of self }
    {
        match self {
            Ending::Well => 0,
            Ending::NotWell => 1,
            Ending::WrongWords => 2,
            Ending::Failed => 3,
        }
    }

    /// Of two endings the one with the larger number: the worse one.
    pub(crate) fn worse(self, other: Ending) -> Ending
        ensures { result ≡ worst self other }
    {
        if self.status() < other.status() {
            other
        } else {
            self
        }
    }

    /// The ending that a verdict gives: well exactly where the code is lawful.
    pub fn of_verdict(verdict: &Verdict) -> Ending
        ensures { result ≡ ending_of verdict.now }
    {
        match verdict {
            Verdict::Lawful { .. } => Ending::Well,
            Verdict::Refused(_) | Verdict::BadLength => Ending::NotWell,
        }
    }

    /// The ending that a machine gives that stops.
    fn of_stop(cause: StopCause) -> Ending
        ensures { result ≡ ending_of_cause cause }
    {
        match cause {
            StopCause::Breakpoint(_) | StopCause::Ended(_) => Ending::Well,
            StopCause::NoAccess(_) | StopCause::NoFetch(_) | StopCause::UnlawfulAnswer =>
                Ending::NotWell,
        }
    }

    /// The ending that the run of an image gives.
    pub fn of_run(run: &ImageRun) -> Ending
        ensures { result ≡ ending_of_run run.now }
    {
        match run {
            ImageRun::Refused(fault) => match fault {
                ImageFault::NoMemory | ImageFault::Device => Ending::Failed,
                _ => Ending::NotWell,
            },
            ImageRun::Ended { halt, .. } => match halt {
                Halt::Stopped(cause) => Ending::of_stop(*cause),
                Halt::StepsUsed => Ending::Well,
                Halt::NoMemory => Ending::Failed,
            },
        }
    }
}

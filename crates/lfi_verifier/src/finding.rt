//! What a stream's event tells of a module's code.

ghost use Rattle.std.specs.Prelude.{◌≡◌, ◌==◌};
ghost use Rattle.lfi_verifier.specs.States.{status_after};
ghost use Rattle.lfi_verifier.specs.StreamVerdicts.{nothing_found, bad_found};
ghost use Rattle.lfi_verifier.specs.inner.Judging.{finding_of_end, finding_by};

use crate::status::Status;
use lfi_check::Beginning;
use lfi_model::Reason;
use lfi_rules::Fault;

/// What is found of code: a status, and the first fault.
#[derive(Clone, Copy)]
pub(crate) struct Finding {
    pub(crate) status: Status,
    pub(crate) fault: Option<Fault>,
}

impl Finding {
    /// Nothing is told of code; or it has no fault.
    pub(crate) fn nothing() -> Finding
        ensures { result ≡ nothing_found }
    {
        Finding {
            status: Status::Lawful,
            fault: None,
        }
    }

    /// The numbers are those of no module: nothing is judged.
    pub(crate) fn bad_state() -> Finding
        ensures { result ≡ bad_found }
    {
        Finding {
            status: Status::BadState,
            fault: None,
        }
    }

    /// Of code that goes on, by the first fault so far.
    pub(crate) fn so_far(fault: Option<Fault>) -> Finding
        ensures { result ≡ record { status = status_after fault; fault = fault } }
    {
        match fault {
            Some(found) => Finding {
                status: Status::Refused,
                fault: Some(found),
            },
            None => Finding::nothing(),
        }
    }

    /// Of a module without a fault that has ended for a reason, where all its words came or didn't.
    fn of_lawful(reason: Reason, all: bool) -> Finding
        ensures { result ≡ finding_of_end reason all }
    {
        match reason {
            Reason::Close if all => Finding::nothing(),
            _ => Finding {
                status: Status::Incomplete,
                fault: None,
            },
        }
    }

    /// Of a module that has ended, by its whole pages.
    pub(crate) fn of_end(whole: Beginning, reason: Reason) -> Finding
        ensures { result ≡ finding_by whole.fault reason (whole.judged == whole.words) }
    {
        match whole.fault {
            Some(fault) => Finding::so_far(Some(fault)),
            None => Finding::of_lawful(reason, whole.judged == whole.words),
        }
    }
}

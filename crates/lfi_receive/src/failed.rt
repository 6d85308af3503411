//! Whether a reader has answered an error: only an error makes it so.

ghost use Rattle.std.specs.Prelude.{◌≡◌, true, false};

use lfi_auxiliary::{Auxiliary, Reading};
use std::io::Error;

/// Of a reader that wasn't asked yet.
struct Unasked;

impl Reading<usize, bool> for Unasked {
    ghost reads = { λ _. false };
}

/// Of a reader that has answered this error, whatever its kind.
struct Answered;

impl Reading<Error, bool> for Answered {
    ghost reads = { λ _. true };
}

/// Whether a reader has answered an error. Contracts alone know it: it takes no bytes.
#[derive(Drop)]
pub struct HasFailed {
    told: Auxiliary<bool>,
}

impl HasFailed {
    /// That of a reader which wasn't asked yet.
    pub(crate) fn unasked() -> HasFailed
        ensures { result.told.value ≡ false }
    {
        HasFailed {
            told: Auxiliary::of::<usize, Unasked>(&0),
        }
    }

    /// That of a reader which has answered this error.
    pub(crate) fn answered(error: &Error) -> HasFailed
        ensures { result.told.value ≡ true }
    {
        HasFailed {
            told: Auxiliary::of::<Error, Answered>(error),
        }
    }
}

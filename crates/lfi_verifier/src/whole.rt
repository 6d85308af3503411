//! Whole code in one call.

ghost use Rattle.std.specs.Prelude.{◌≡◌, ◌≤◌, None};
ghost use Rattle.lfi_verifier.specs.Faults.{fault_told};
ghost use Rattle.lfi_module.specs.declared.profile.Profile.{Profile};
ghost use Rattle.lfi_module.specs.Profiles.{profile_number};
ghost use Rattle.lfi_verifier.specs.Profiles.{IsUnknown};
ghost use Rattle.lfi_verifier.specs.Statuses.{status_number};
ghost use Rattle.lfi_verifier.specs.Verdicts.{Tells, TellsVerdict};

use crate::fault::{LfiFault, NO_FAULT, told_of};
use crate::profile::profile_of;
use crate::status::Status;
use lfi_check::{Verdict, judge_code};

/// Tells a verdict: its status, and its fault.
pub(crate) fn tell(verdict: Verdict, fault: &mut LfiFault) -> u32
    ensures { Tells verdict result fault.new }
{
    match verdict {
        Verdict::Lawful { .. } => {
            *fault = NO_FAULT;
            Status::Lawful.number()
        }
        Verdict::Refused(found) => {
            *fault = told_of(Some(found));
            Status::Refused.number()
        }
        Verdict::BadLength => {
            *fault = NO_FAULT;
            Status::BadLength.number()
        }
    }
}

/// Judges whole code by a profile.
#[unsafe(no_mangle)]
pub extern "C" fn lfi_verify(code: &[u8], profile: u32, fault: &mut LfiFault) -> u32
    ensures known { (by : Profile) → profile_number by ≡ profile → TellsVerdict by code.now result fault.new }
    ensures unknown { IsUnknown profile → (result ≡ status_number Status.UnknownProfile) × (fault.new ≡ fault_told None) }
    ensures most { result ≤ 7 }
{
    let Some(by) = profile_of(profile) else {
        *fault = NO_FAULT;
        return Status::UnknownProfile.number();
    };
    tell(judge_code(code, by), fault)
}

//! Code that comes in pieces, in a state that the caller keeps.

ghost use Rattle.std.specs.Prelude.{◌≡◌, ◌≤◌, ◌*◌, ◌<◌, ℕ, List, [], ◌++◌, length, true, false, None};
ghost use Rattle.lfi_verifier.specs.Faults.{fault_told};
ghost use Rattle.lfi_module.specs.declared.profile.Profile.{Profile};
ghost use Rattle.lfi_module.specs.Profiles.{profile_number};
ghost use Rattle.lfi_verifier.specs.Profiles.{IsUnknown};
ghost use Rattle.lfi_verifier.specs.States.{IsWordCount, IsState, IsInRange, StandsFor, Fits, HasRoom, TellsSoFar, TellsPart, status_after, status_within};
ghost use Rattle.lfi_verifier.specs.Statuses.{status_number};
ghost use Rattle.lfi_verifier.specs.Verdicts.{TellsVerdict};

use crate::fault::{LfiFault, NO_FAULT, told_of};
use crate::profile::profile_of;
use crate::state::{LfiState, beginning_of, state_of};
use crate::status::Status;
use crate::whole::tell;
use a64_word::WORD_BYTES;
use lfi_check::Beginning;
use lfi_module::WordCount;
use lfi_rules::Fault;

/// Begins to judge a module of `words` words by a profile.
#[unsafe(no_mangle)]
pub extern "C" fn lfi_verify_init(state: &mut LfiState, words: u32, profile: u32) -> u32
    ensures begun { (by : Profile) → profile_number by ≡ profile → IsWordCount words → StandsFor state.new by words [] × (result ≡ status_number Status.Lawful) }
    ensures length { (by : Profile) → profile_number by ≡ profile → ¬ (IsWordCount words) → (result ≡ status_number Status.BadLength) × (state.new ≡ state.old) }
    ensures unknown { IsUnknown profile → (result ≡ status_number Status.UnknownProfile) × (state.new ≡ state.old) }
    ensures most { result ≤ 7 }
{
    let Some(by) = profile_of(profile) else {
        return Status::UnknownProfile.number();
    };
    if words == 0 || words > WordCount::MOST.number() {
        return Status::BadLength.number();
    }
    *state = state_of(Beginning::none(words, by));
    Status::Lawful.number()
}

/// Whether a piece is whole words, no more than are to come.
fn fits(beginning: Beginning, piece: &[u8]) -> bool
    requires { IsInRange beginning }
    ensures fit { result ≡ true → HasRoom beginning piece.now }
    ensures unfit { result ≡ false → ¬ (HasRoom beginning piece.now) }
{
    let to_come = (beginning.words - beginning.judged) as usize * WORD_BYTES;
    piece.len() % WORD_BYTES == 0 && piece.len() <= to_come
}

/// The status of a piece that was taken, by the first fault so far.
fn after(fault: Option<Fault>) -> Status
    ensures { result ≡ status_after fault }
{
    match fault {
        Some(_) => Status::Refused,
        None => Status::Lawful,
    }
}

/// The status where words are still to come, by the first fault so far.
fn within(fault: Option<Fault>) -> Status
    ensures { result ≡ status_within fault }
{
    match fault {
        Some(_) => Status::Refused,
        None => Status::Incomplete,
    }
}

/// Judges the next piece of a module: whole words, in any cutting, also none.
#[unsafe(no_mangle)]
pub extern "C" fn lfi_verify_update(state: &mut LfiState, piece: &[u8]) -> u32
    ensures takes { (by : Profile) (words : ℕ) (bytes : List ℕ) → StandsFor state.old by words bytes → Fits words bytes piece.now →
        StandsFor state.new by words (bytes ++ piece.now) × TellsSoFar by words (bytes ++ piece.now) result }
    ensures unfit { (by : Profile) (words : ℕ) (bytes : List ℕ) → StandsFor state.old by words bytes → ¬ (Fits words bytes piece.now) →
        (result ≡ status_number Status.BadLength) × (state.new ≡ state.old) }
    ensures bad { ¬ (IsState state.old) → (result ≡ status_number Status.BadState) × (state.new ≡ state.old) }
    ensures most { result ≤ 7 }
{
    let Some(beginning) = beginning_of(*state) else {
        return Status::BadState.number();
    };
    if !fits(beginning, piece) {
        return Status::BadLength.number();
    }
    if piece.is_empty() {
        return after(beginning.fault).number();
    }
    let next = beginning.with(piece);
    *state = state_of(next);
    after(next.fault).number()
}

/// Tells what is found of all that came.
#[unsafe(no_mangle)]
pub extern "C" fn lfi_verify_final(state: &LfiState, fault: &mut LfiFault) -> u32
    ensures whole { (by : Profile) (words : ℕ) (bytes : List ℕ) → StandsFor state.now by words bytes → length bytes ≡ 4 * words →
        TellsVerdict by bytes result fault.new }
    ensures part { (by : Profile) (words : ℕ) (bytes : List ℕ) → StandsFor state.now by words bytes → length bytes < 4 * words →
        TellsPart by words bytes result fault.new }
    ensures bad { ¬ (IsState state.now) → (result ≡ status_number Status.BadState) × (fault.new ≡ fault_told None) }
    ensures most { result ≤ 7 }
{
    let Some(beginning) = beginning_of(*state) else {
        *fault = NO_FAULT;
        return Status::BadState.number();
    };
    if beginning.judged < beginning.words {
        *fault = told_of(beginning.fault);
        return within(beginning.fault).number();
    }
    tell(beginning.verdict(), fault)
}

//! What is told of a fault, as text.

ghost use Rattle.std.specs.Prelude.{◌≡◌, ◌≤◌, ◌≢◌, ◌<◌, ◌++◌, IfNone, IfSome, Some, length, take, drop};
ghost use Rattle.lfi_module.specs.Numbers.{module_count};
ghost use Rattle.lfi_rules.specs.declared.fault.Fault.{Fault};
ghost use Rattle.lfi_explain.specs.Explanations.{explanation_text};
ghost use Rattle.lfi_verifier.specs.Explained.{BeginsModule, HasWordAt, IsTold, TellsFault};
ghost use Rattle.lfi_verifier.specs.Faults.{fault_at};
ghost use Rattle.lfi_module.specs.declared.profile.Profile.{Profile};
ghost use Rattle.lfi_module.specs.Profiles.{profile_number};
ghost use Rattle.lfi_verifier.specs.Profiles.{IsUnknown};
ghost use Rattle.lfi_verifier.specs.Statuses.{status_number};

use crate::fault::{LfiFault, fault_of};
use crate::profile::profile_of;
use crate::status::Status;
use arrayvec::ArrayString;
use lfi_check::Code;
use lfi_explain::{Explanation, KnownFault, explain_near};
use lfi_module::{ModuleNumber, WordCount};
use std::fmt::Write;

/// Room for the text of an explanation, which has a few hundred bytes.
const TEXT_BYTES: usize = 2048;

/// The text of an explanation; `None` where it doesn't fit.
fn text_of(explanation: &Explanation) -> Option<ArrayString<TEXT_BYTES>>
    ensures { IfSome result (λ text. text.bytes ≡ explanation_text explanation.now) }
{
    let mut text = ArrayString::new();
    match write!(text, "{explanation}") {
        Ok(()) => Some(text),
        Err(_) => None,
    }
}

/// Copies the first bytes of a text, as many as there is room for.
fn copy_cut(whole: &[u8], text: &mut [u8])
    ensures { text.new ≡ take (length text.old) whole.now ++ drop (length whole.now) text.old }
{
    let count = whole.len().min(text.len());
    text[..count].copy_from_slice(&whole[..count]);
}

/// These bytes as code, where they are that and have a word at `place`.
pub(crate) fn code_with(bytes: &[u8], place: u32) -> Option<Code<'_>>
    ensures some { IfSome result (λ code. HasWordAt bytes.entry.now place × (code ≡ bytes.entry.now)) }
    ensures none { IfNone result (¬ (HasWordAt bytes.entry.now place)) }
{
    let code = Code::new(bytes)?;
    if place as usize >= code.len_words() {
        return None;
    }
    Some(code)
}

/// These bytes as the first code of a module of `words` words, where they are that and have a word at `place`.
fn code_of(bytes: &[u8], words: u32, place: u32) -> Option<Code<'_>>
    ensures some { IfSome result (λ code. BeginsModule words bytes.entry.now place × (code ≡ bytes.entry.now)) }
    ensures none { IfNone result (¬ (BeginsModule words bytes.entry.now place)) }
{
    let code = code_with(bytes, place)?;
    if words > WordCount::MOST.number() || code.len_words() > words as usize {
        return None;
    }
    Some(code)
}

/// Tells a fault of a module of `words` words as text. `code` has the module's first words, or all.
#[unsafe(no_mangle)]
pub extern "C" fn lfi_explain(
    profile: u32,
    module: u32,
    words: u32,
    code: &[u8],
    fault: &LfiFault,
    text: &mut [u8],
    count: &mut usize,
) -> u32
    ensures told { (by : Profile) (found : Fault) → profile_number by ≡ profile → IsTold «module» words code.now fault.now found → result ≡ status_number Status.Lawful →
        TellsFault by «module» words code.now found text.old text.new count.new }
    ensures room { (by : Profile) (found : Fault) → profile_number by ≡ profile → IsTold «module» words code.now fault.now found → result ≢ status_number Status.Lawful → result ≡ status_number Status.NoRoom }
    ensures kept { result ≢ status_number Status.Lawful → (text.new ≡ text.old) × (count.new ≡ count.old) }
    ensures unknown { IsUnknown profile → result ≡ status_number Status.UnknownProfile }
    ensures most { result ≤ 7 }
    ensures module { (by : Profile) → profile_number by ≡ profile → ¬ («module» < module_count) → result ≡ status_number Status.UnknownModule }
    ensures length { (by : Profile) → profile_number by ≡ profile → «module» < module_count → ¬ (BeginsModule words code.now fault.now.word) → result ≡ status_number Status.BadLength }
    ensures fault { (by : Profile) → profile_number by ≡ profile → «module» < module_count → BeginsModule words code.now fault.now.word → ((found : Fault) → fault_at fault.now ≢ Some (Some found)) →
        result ≡ status_number Status.BadState }
{
    let Some(by) = profile_of(profile) else {
        return Status::UnknownProfile.number();
    };
    if module as usize >= ModuleNumber::COUNT {
        return Status::UnknownModule.number();
    }
    let Some(come) = code_of(code, words, fault.word) else {
        return Status::BadLength.number();
    };
    let Some(Some(found)) = fault_of(*fault) else {
        return Status::BadState.number();
    };
    let known = KnownFault {
        slot: ModuleNumber::at(module as usize),
        words: WordCount::of(words),
        profile: by,
        fault: found,
    };
    let Some(whole) = text_of(&explain_near(&come, found.word as usize, &known)) else {
        return Status::NoRoom.number();
    };
    copy_cut(whole.as_str().as_bytes(), text);
    *count = whole.len();
    Status::Lawful.number()
}

//! What stands in the place of a refused word, as words.

ghost use Rattle.std.specs.Prelude.{◌≡◌, ◌≤◌, ◌≢◌, ◌<◌, ◌++◌, Some, length, drop};
ghost use Rattle.lfi_rules.specs.declared.fault.Fault.{Fault};
ghost use Rattle.lfi_verifier.specs.Explained.{HasWordAt};
ghost use Rattle.lfi_verifier.specs.Faults.{fault_at};
ghost use Rattle.lfi_verifier.specs.Mended.{AreSpelled, HasNoMend, IsFaultOf, LacksRoom, Spell, TellsMend};
ghost use Rattle.lfi_module.specs.declared.profile.Profile.{Profile};
ghost use Rattle.lfi_module.specs.Profiles.{profile_number};
ghost use Rattle.lfi_verifier.specs.Profiles.{IsUnknown};
ghost use Rattle.lfi_verifier.specs.Statuses.{status_number};

use crate::explain::code_with;
use crate::fault::{LfiFault, fault_of};
use crate::profile::profile_of;
use crate::status::Status;
use a64_encode::encode;
use a64_word::Instruction;
use arrayvec::ArrayVec;
use lfi_explain::mend_near;
use lfi_mends::MOST;
use lfi_module::Profile;

/// The words that spell these instructions.
fn words_of(instructions: &[Instruction], profile: Profile) -> ArrayVec<u32, MOST>
    requires few { length instructions.now ≤ 8 }
    requires spelled { AreSpelled profile instructions.now }
    ensures { Spell profile instructions.now result.items }
{
    let mut words = ArrayVec::new();
    for instruction in instructions {
        match encode(instruction, profile) {
            Some(word) => words.push(word),
            None => unreachable!(),
        }
    }
    words
}

/// Puts words at the beginning of a room, if they have room there, and tells how many they are. Gives the status.
fn put(words: &[u32], room: &mut [u32], count: &mut usize) -> u32
    ensures put { result ≡ status_number Status.Lawful → (room.new ≡ words.now ++ drop (length words.now) room.old) × (count.new ≡ length words.now) }
    ensures kept { result ≢ status_number Status.Lawful → (room.new ≡ room.old) × (count.new ≡ count.old) }
    ensures fits { length words.now ≤ length room.old → result ≡ status_number Status.Lawful }
    ensures other { result ≢ status_number Status.Lawful → result ≡ status_number Status.NoRoom }
    ensures short { result ≡ status_number Status.NoRoom → length room.old < length words.now }
    ensures most { result ≤ 7 }
{
    if room.len() < words.len() {
        return Status::NoRoom.number();
    }
    room[..words.len()].copy_from_slice(words);
    *count = words.len();
    Status::Lawful.number()
}

/// Tells the words that stand in the place of a word with a fault. `code` has the module's first words, or all.
#[unsafe(no_mangle)]
pub extern "C" fn lfi_mend(
    profile: u32,
    code: &[u8],
    fault: &LfiFault,
    mend: &mut [u32],
    count: &mut usize,
) -> u32
    ensures told { (by : Profile) (found : Fault) → profile_number by ≡ profile → IsFaultOf code.now fault.now found → result ≡ status_number Status.Lawful →
        TellsMend by code.now found mend.old mend.new count.new }
    ensures none { (by : Profile) (found : Fault) → profile_number by ≡ profile → IsFaultOf code.now fault.now found → result ≡ status_number Status.Refused →
        HasNoMend by code.now found }
    ensures kept { result ≢ status_number Status.Lawful → (mend.new ≡ mend.old) × (count.new ≡ count.old) }
    ensures unknown { IsUnknown profile → result ≡ status_number Status.UnknownProfile }
    ensures most { result ≤ 7 }
    ensures length { (by : Profile) → profile_number by ≡ profile → ¬ (HasWordAt code.now fault.now.word) → result ≡ status_number Status.BadLength }
    ensures fault { (by : Profile) → profile_number by ≡ profile → HasWordAt code.now fault.now.word → ((found : Fault) → fault_at fault.now ≢ Some (Some found)) →
        result ≡ status_number Status.BadState }
    ensures room { (by : Profile) (found : Fault) → profile_number by ≡ profile → IsFaultOf code.now fault.now found → 8 ≤ length mend.old → result ≤ status_number Status.Refused }
    ensures short { (by : Profile) (found : Fault) → profile_number by ≡ profile → IsFaultOf code.now fault.now found → result ≢ status_number Status.Lawful → result ≢ status_number Status.Refused →
        (result ≡ status_number Status.NoRoom) × LacksRoom by code.now found (length mend.old) }
{
    let Some(by) = profile_of(profile) else {
        return Status::UnknownProfile.number();
    };
    let Some(come) = code_with(code, fault.word) else {
        return Status::BadLength.number();
    };
    let Some(Some(found)) = fault_of(*fault) else {
        return Status::BadState.number();
    };
    match mend_near(&come, found.word as usize, found.rule, by) {
        Ok(it) => put(words_of(it.instructions(), by).as_slice(), mend, count),
        Err(_) => Status::Refused.number(),
    }
}

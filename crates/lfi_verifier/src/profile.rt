//! The profiles by which code is judged, and what a host needs to know of them: there are two, which share map and
//! registers.

ghost use Rattle.std.specs.Prelude.{◌≡◌, ◌≤◌, ◌<◌, IfSome, IfNone, Some};
ghost use Rattle.lfi_module.specs.Numbers.{module_count, base_of};
ghost use Rattle.lfi_module.specs.declared.profile.Profile.{Profile};
ghost use Rattle.lfi_module.specs.Profiles.{profile_number};
ghost use Rattle.lfi_verifier.specs.Profiles.{IsUnknown, IsMapOf, AreRegisters};
ghost use Rattle.lfi_verifier.specs.Statuses.{status_number};

use crate::status::Status;
use lfi_module::{ModuleNumber, Profile};
use lfi_rules::map::{
    CODE_OFFSET, ENTRY_COUNT, ENTRY_STEP, FIRST_ENTRY, GUARD_BYTES, SLOT_BYTES, STACK_REACH,
    TABLE_BYTES,
};
use lfi_rules::registers::{BASE, FIRST_ADDRESS, LINK, OFFSET, SECOND_ADDRESS, THIRD_ADDRESS};

/// The number of this interface, which grows with each change of it.
const VERSION: u32 = 7;

/// Where the parts of a module's slot lie, in addresses and bytes: docs/PROFILE.md.
#[repr(C)]
#[derive(Clone, Copy)]
pub struct LfiMap {
    /// The address at which the slot begins.
    pub base: u64,
    /// The bytes of the slot.
    pub size: u64,
    /// The bytes of each guard, one directly below the slot and one directly above.
    pub guard: u64,
    /// The bytes of the table of entries, from the base on.
    pub table: u64,
    /// Where the code begins, in bytes from the base.
    pub code: u64,
    /// The address at which the runtime's first entry is called.
    pub entry: u64,
    /// From one entry to the next.
    pub entry_step: u64,
    /// How many entries there are.
    pub entries: u64,
}

/// The registers that code rests on, by their numbers, and how far sp may be from the slot.
#[repr(C)]
#[derive(Clone, Copy)]
pub struct LfiRegisters {
    /// It holds the slot's base.
    pub base: u32,
    /// It holds a number below 2^32.
    pub offset: u32,
    /// These three hold addresses in the slot, and so does the link register.
    pub first_address: u32,
    pub second_address: u32,
    pub third_address: u32,
    pub link: u32,
    /// How many bytes sp may be from the slot, at most.
    pub stack_reach: u32,
}

/// The profile with this number, if there is one.
pub(crate) fn profile_of(number: u32) -> Option<Profile>
    ensures some { IfSome result (λ profile. profile_number profile ≡ number) }
    ensures only { (profile : Profile) → profile_number profile ≡ number → result ≡ Some profile }
    ensures none { IfNone result (IsUnknown number) }
{
    Profile::new(number)
}

/// The map of the slot that begins at an address.
fn map_at(base: u64) -> LfiMap
    ensures { IsMapOf base result }
{
    LfiMap {
        base,
        size: SLOT_BYTES,
        guard: GUARD_BYTES,
        table: TABLE_BYTES,
        code: CODE_OFFSET,
        entry: FIRST_ENTRY,
        entry_step: ENTRY_STEP,
        entries: ENTRY_COUNT,
    }
}

/// Tells where the parts of a module's slot lie.
#[unsafe(no_mangle)]
pub extern "C" fn lfi_profile_map(profile: u32, module: u32, map: &mut LfiMap) -> u32
    ensures known { (by : Profile) → profile_number by ≡ profile → «module» < module_count → IsMapOf (base_of «module») map.new × (result ≡ status_number Status.Lawful) }
    ensures module { (by : Profile) → profile_number by ≡ profile → ¬ («module» < module_count) → (result ≡ status_number Status.UnknownModule) × (map.new ≡ map.old) }
    ensures unknown { IsUnknown profile → (result ≡ status_number Status.UnknownProfile) × (map.new ≡ map.old) }
    ensures most { result ≤ 7 }
{
    if profile_of(profile).is_none() {
        return Status::UnknownProfile.number();
    }
    if module as usize >= ModuleNumber::COUNT {
        return Status::UnknownModule.number();
    }
    *map = map_at(ModuleNumber::at(module as usize).base());
    Status::Lawful.number()
}

/// Tells the registers that code rests on.
#[unsafe(no_mangle)]
pub extern "C" fn lfi_profile_registers(profile: u32, registers: &mut LfiRegisters) -> u32
    ensures known { (by : Profile) → profile_number by ≡ profile → AreRegisters registers.new × (result ≡ status_number Status.Lawful) }
    ensures unknown { IsUnknown profile → (result ≡ status_number Status.UnknownProfile) × (registers.new ≡ registers.old) }
    ensures most { result ≤ 7 }
{
    if profile_of(profile).is_none() {
        return Status::UnknownProfile.number();
    }
    *registers = LfiRegisters {
        base: u32::from(BASE),
        offset: u32::from(OFFSET),
        first_address: u32::from(FIRST_ADDRESS),
        second_address: u32::from(SECOND_ADDRESS),
        third_address: u32::from(THIRD_ADDRESS),
        link: u32::from(LINK),
        stack_reach: STACK_REACH as u32,
    };
    Status::Lawful.number()
}

/// The number of this interface.
#[unsafe(no_mangle)]
pub extern "C" fn lfi_version() -> u32
    ensures { result ≡ 7 }
{
    VERSION
}

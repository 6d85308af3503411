//! Laws of what calls tell.

ghost use Rattle.std.specs.Prelude.{◌≡◌, ℕ, ◌*◌, ◌^◌, List};
ghost use Rattle.lfi_module.specs.Numbers.{base_of};
ghost use Rattle.lfi_module.specs.declared.profile.Profile.{Profile};
ghost use Rattle.lfi_verifier.specs.declared.fault.LfiFault.{LfiFault};
ghost use Rattle.lfi_verifier.specs.declared.profile.LfiMap.{LfiMap};
ghost use Rattle.lfi_verifier.specs.declared.profile.LfiRegisters.{LfiRegisters};
ghost use Rattle.lfi_verifier.specs.Profiles.{IsMapOf, AreRegisters};
ghost use Rattle.lfi_verifier.specs.Verdicts.{TellsVerdict};

/// Of the same bytes a profile makes one status and one fault: so `lfi_verify_final` tells of all bytes, in whatever pieces they came,
/// the very numbers that `lfi_verify` tells of them.
pub fn one_answer()
    ensures { (profile : Profile) (bytes : List ℕ) (number other : ℕ) (told again : LfiFault) → TellsVerdict profile bytes number told → TellsVerdict profile bytes other again →
        (number ≡ other) × (told ≡ again) }
{}

/// What a host is told, in numbers (docs/PROFILE.md, "Modules, pages, slots" and "Registers"): the map of the first slot and of the
/// last, and the registers.
pub fn told_numbers()
    ensures first { (map : LfiMap) → IsMapOf (base_of 0) map → (map.base ≡ 2 ^ 32) × (map.size ≡ 2 ^ 32) × (map.guard ≡ 2 ^ 16) × (map.table ≡ 2 ^ 12)
        × (map.code ≡ 2 ^ 16) × (map.entry ≡ 2 ^ 40) × (map.entry_step ≡ 2 ^ 4) × (map.entries ≡ 2 ^ 9) }
    ensures last { (map : LfiMap) → IsMapOf (base_of 15) map → (map.base ≡ 31 * 2 ^ 32) × (map.entry ≡ 2 ^ 40) × (map.entry_step ≡ 2 ^ 4) }
    ensures registers { (told : LfiRegisters) → AreRegisters told → (told.base ≡ 21) × (told.offset ≡ 22) × (told.first_address ≡ 18) × (told.second_address ≡ 23)
        × (told.third_address ≡ 24) × (told.link ≡ 30) × (told.stack_reach ≡ 512) }
{}

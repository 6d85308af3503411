//! How a mend is put together.

ghost use Rattle.std.specs.Prelude.{◌≡◌, ◌<◌, ◌+◌, ◌++◌, ◌∷◌, []};
ghost use Rattle.lfi_module.specs.declared.profile.Profile.{Profile};
ghost use Rattle.lfi_module.specs.declared.profile.Profile.TheVariants.{Two};
ghost use Rattle.lfi_rules.specs.declared.needs.Need.TheVariants.{Nothing, Guard, Probe};
ghost use Rattle.lfi_rules.specs.Needs.{opens_of, window};
ghost use Rattle.lfi_mends.specs.Outcomes as outcomes;
ghost use Rattle.lfi_mends.specs.inner.Rows as rows;
ghost use Rattle.lfi_mends.specs.Mends.{Stands, Leads, KeepsRules, mended};
ghost use Rattle.lfi_rules.specs.declared.needs.Need.{Need};

use crate::builders::{link_guard, probe};
use crate::mend::{MOST, Mend};
use a64_word::Instruction;
use lfi_module::Profile;
use lfi_rules::Need;

impl Mend {
    pub(crate) fn new() -> Mend
        ensures items { mended result ≡ [] }
        ensures count { result.count ≡ 0 }
        ensures keeps { (profile : Profile) → KeepsRules profile (mended result) }
    {
        Mend {
            instructions: [Instruction::Nop; MOST],
            count: 0,
        }
    }

    pub(crate) fn then(self, instruction: Instruction) -> Mend
        requires { self.count < 8 }
        ensures items { mended result ≡ mended self ++ instruction ∷ [] }
        ensures count { result.count ≡ self.count + 1 }
    {
        let mut mend = self;
        mend.instructions[mend.count] = instruction;
        mend.count += 1;
        mend
    }

    /// One more instruction, which opens nothing.
    pub(crate) fn and(self, instruction: Instruction) -> Mend
        requires room { self.count < 8 }
        requires keeps { (profile : Profile) → KeepsRules profile (mended self) }
        requires stands { (profile : Profile) → Stands profile Nothing instruction }
        requires opens { (profile : Profile) → opens_of profile instruction ≡ Nothing }
        ensures keeps { (profile : Profile) → KeepsRules profile (mended result) }
        ensures items { mended result ≡ mended self ++ instruction ∷ [] }
        ensures count { result.count ≡ self.count + 1 }
    {
        self.then(instruction)
    }

    /// One more instruction, which loads x30, and the guard of x30.
    pub(crate) fn and_guarded(self, instruction: Instruction) -> Mend
        requires room { self.count < 7 }
        requires keeps { (profile : Profile) → KeepsRules profile (mended self) }
        requires stands { (profile : Profile) → Stands profile Nothing instruction }
        requires opens { (profile : Profile) → opens_of profile instruction ≡ Guard }
        ensures items { mended result ≡ mended self ++ instruction ∷ rows.guard_of 30 30 ∷ [] }
        ensures keeps { (profile : Profile) → KeepsRules profile (mended result) }
        ensures count { result.count ≡ self.count + 2 }
    {
        self.then(instruction).then(link_guard())
    }

    /// One more instruction, which moves sp by an immediate, and the probe.
    pub(crate) fn and_probed(self, instruction: Instruction) -> Mend
        requires room { self.count < 7 }
        requires keeps { (profile : Profile) → KeepsRules profile (mended self) }
        requires stands { (profile : Profile) → Stands profile Nothing instruction }
        requires opens { (profile : Profile) → opens_of profile instruction ≡ Probe (window profile) }
        ensures keeps { (profile : Profile) → KeepsRules profile (mended result) }
        ensures items { mended result ≡ mended self ++ instruction ∷ outcomes.probe ∷ [] }
        ensures count { result.count ≡ self.count + 2 }
    {
        self.then(instruction).then(probe())
    }

    /// One more instruction of the second profile, which opens nothing.
    pub(crate) fn and_ordered(self, instruction: Instruction) -> Mend
        requires room { self.count < 8 }
        requires keeps { KeepsRules Two (mended self) }
        requires stands { Stands Two Nothing instruction }
        requires opens { opens_of Two instruction ≡ Nothing }
        ensures keeps { KeepsRules Two (mended result) }
        ensures items { mended result ≡ mended self ++ instruction ∷ [] }
        ensures count { result.count ≡ self.count + 1 }
    {
        self.then(instruction)
    }

    /// One more instruction of the second profile, which loads x30, and the guard of x30.
    pub(crate) fn and_ordered_guarded(self, instruction: Instruction) -> Mend
        requires room { self.count < 7 }
        requires keeps { KeepsRules Two (mended self) }
        requires stands { Stands Two Nothing instruction }
        requires opens { opens_of Two instruction ≡ Guard }
        ensures keeps { KeepsRules Two (mended result) }
        ensures items { mended result ≡ mended self ++ instruction ∷ rows.guard_of 30 30 ∷ [] }
        ensures count { result.count ≡ self.count + 2 }
    {
        self.then(instruction).then(link_guard())
    }

    /// An instruction, which meets a need and opens nothing, before all others.
    pub(crate) fn behind(self, first: Instruction, need: Need, profile: Profile) -> Mend
        requires room { self.count < 8 }
        requires keeps { KeepsRules profile (mended self) }
        requires stands { Stands profile need first }
        requires opens { opens_of profile first ≡ Nothing }
        ensures items { mended result ≡ first ∷ mended self }
        ensures leads { Leads profile need (mended result) Nothing }
    {
        let mut mend = Mend::new().then(first);
        for i in 0..self.count {
            mend = mend.then(self.instructions[i]);
        }
        mend
    }

    /// The instructions, in order.
    pub fn instructions(&self) -> &[Instruction]
        ensures { result.now ≡ mended self.now }
    {
        &self.instructions[..self.count]
    }
}

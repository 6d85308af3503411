//! What stands in the place of a word, by the rule that it breaks.

ghost use Rattle.std.specs.Prelude.{◌≡◌, ◌≢◌, ◌≤◌, IfOk, IfSome, IfNone, IsTrue, is_some, is_none, false, ◌==◌, ◌+◌, ◌++◌, ◌∷◌, []};
ghost use Rattle.lfi_module.specs.declared.profile.Profile.{Profile};
ghost use Rattle.lfi_rules.specs.declared.needs.Need.TheVariants.{Nothing, Call};
ghost use Rattle.lfi_rules.specs.Needs.{opens_of};
ghost use Rattle.a64_word.specs.Encoding.{IsLegal, fields};
ghost use Rattle.a64_word.specs.Fields.{AllFit};
ghost use Rattle.a64_word.specs.Profiles.{is_of, SpellsIn};
ghost use Rattle.lfi_rules.specs.declared.rule.Rule.TheVariants.{NeedMet};
ghost use Rattle.lfi_mends.specs.Outcomes as spec;
ghost use Rattle.lfi_mends.specs.Outcomes.{DoesTheSame, DoesTheSameBounded, moves_bounded, moves_plainly};
ghost use Rattle.a64_word.specs.declared.instruction.Instruction.{Instruction};
ghost use Rattle.lfi_mends.specs.Mends.{Leads, KeepsRules, Stands, mended};
ghost use Rattle.lfi_mends.specs.Obstacles as obstacles;
ghost use Rattle.lfi_mends.specs.Obstacles.{refusal, IsReason, IsReasonOfWord};

use crate::accesses::{confined, put, scratch_beside};
use crate::builders::{
    address_guard, branch, computing, copied, guard, is_reserved, link_guard, probe, ret,
    stack_sum, sum_with_immediate,
};
use crate::computing::{computed, inserted, into_free, into_offset, keeps_part, source};
use crate::mend::Mend;
use crate::reason::Reason;
use crate::replacing::replaced;
use a64_effects::address_of;
use a64_word::{AddSubImmediate, BranchKind, BranchRegister, Instruction, Register, decode};
use lfi_module::Profile;
use lfi_rules::registers::{BASE, LINK, OFFSET, STACK};
use lfi_rules::{Need, Rule};

/// What meets a need, where it may stand between the word that opens it and any other.
fn meeting(need: Need) -> Option<Instruction>
    ensures stands { IfSome result (λ i. (profile : Profile) → Stands profile need i) }
    ensures opens { IfSome result (λ i. (profile : Profile) → opens_of profile i ≡ Nothing) }
    ensures some { IfSome result (λ i. spec.meeting need ≡ i ∷ []) }
    ensures none { IfNone result (spec.meeting need ≡ []) }
    ensures told { is_some result ≡ is_none (obstacles.of_need need) }
{
    match need {
        Need::Guard => Some(link_guard()),
        Need::Probe(_) => Some(probe()),
        Need::Call | Need::Nothing => None,
    }
}

/// What stands in the place of a branch through a register that holds no address in the slot.
fn bounded(i: &BranchRegister) -> Mend
    ensures keeps { (profile : Profile) → KeepsRules profile (mended result) }
    ensures count { result.count ≤ 7 }
{
    match i.kind {
        BranchKind::Br => Mend::new()
            .and(address_guard(i.rn))
            .and(branch(BranchKind::Br)),
        BranchKind::Blr => Mend::new()
            .and(address_guard(i.rn))
            .and(branch(BranchKind::Blr)),
        BranchKind::Ret => Mend::new().and(guard(Register::new(LINK), i.rn)).and(ret()),
    }
}

/// A register that only few instructions may write, from w22.
fn from_offset(mend: Mend, into: Register) -> Mend
    requires room { mend.count ≤ 6 }
    requires keeps { (profile : Profile) → KeepsRules profile (mended mend) }
    requires base { (into == 21) ≡ false }
    ensures keeps { (profile : Profile) → KeepsRules profile (mended result) }
    ensures count { result.count ≤ mend.count + 1 }
{
    let number = into.number();
    if number == OFFSET {
        return mend;
    }
    if number == STACK {
        return mend.and(stack_sum());
    }
    mend.and(guard(into, Register::new(OFFSET)))
}

/// What computes a register that only few instructions may write: the same in x16, and then the guard. Bits of x16 that go into
/// what the register holds would be lost there, so they go into x17.
fn in_two_steps(instruction: &Instruction, register: Register) -> Mend
    requires legal { IsLegal instruction.now }
    requires fits { AllFit (fields instruction.now) }
    requires computes { IsTrue (obstacles.is_computation instruction.now) }
    requires base { (register == 21) ≡ false }
    ensures keeps { (profile : Profile) → KeepsRules profile (mended result) }
    ensures count { result.count ≤ 7 }
{
    let scratch = scratch_beside(inserted(instruction));
    let first = if keeps_part(instruction) {
        Mend::new().and(copied(scratch, register))
    } else {
        Mend::new()
    };
    put(
        first.and(computing(into_free(instruction, scratch))),
        register,
        scratch,
    )
}

/// What computes a register that only few instructions may write: the guard of a copy, a sum in w22, or two steps.
fn written_elsewhere(instruction: &Instruction, register: Register) -> Mend
    requires legal { IsLegal instruction.now }
    requires fits { AllFit (fields instruction.now) }
    requires computes { IsTrue (obstacles.is_computation instruction.now) }
    requires base { (register == 21) ≡ false }
    ensures keeps { (profile : Profile) → KeepsRules profile (mended result) }
    ensures count { result.count ≤ 7 }
{
    if register.number() != OFFSET {
        if let Some(copied) = source(instruction) {
            return Mend::new().and(guard(register, copied));
        }
    }
    match into_offset(instruction) {
        Some(low) => from_offset(Mend::new().and(computing(low)), register),
        None => in_two_steps(instruction, register),
    }
}

/// What stands in the place of an instruction that computes a register which only few may write.
fn computed_elsewhere(instruction: &Instruction) -> Result<Mend, Reason>
    requires legal { IsLegal instruction.now }
    requires fits { AllFit (fields instruction.now) }
    ensures keeps { IfOk result (λ mend. (profile : Profile) → KeepsRules profile (mended mend)) }
    ensures count { IfOk result (λ mend. mend.count ≤ 7) }
    ensures told { refusal result ≡ obstacles.of_register (obstacles.computed instruction.now) }
{
    let Some(register) = computed(instruction) else {
        return Err(Reason::Kept);
    };
    if register.number() == BASE {
        return Err(Reason::Base);
    }
    if !is_reserved(register) && register.number() != STACK {
        return Err(Reason::Kept);
    }
    Ok(written_elsewhere(instruction, register))
}

/// Whether what an instruction computes depends on where it stands.
fn is_of_place(instruction: &Instruction) -> bool
    ensures { result ≡ obstacles.is_of_place instruction.now }
{
    match instruction {
        Instruction::PcRelative(_) => true,
        _ => false,
    }
}

/// What stands in the place of an instruction that writes a register which only few may write.
fn written(profile: Profile, instruction: &Instruction) -> Result<Mend, Reason>
    requires has { IsTrue (is_of profile instruction.now) }
    requires legal { IsLegal instruction.now }
    requires fits { AllFit (fields instruction.now) }
    ensures keeps { IfOk result (λ mend. KeepsRules profile (mended mend)) }
    ensures count { IfOk result (λ mend. mend.count ≤ 7) }
    ensures does { IfOk result (λ mend. IsTrue (moves_plainly instruction.now) → DoesTheSame [] (mended mend) instruction.now) }
    ensures bounded { IfOk result (λ mend. IsTrue (moves_bounded instruction.now) → DoesTheSameBounded [] (mended mend) instruction.now) }
    ensures told { refusal result ≡ obstacles.of_write instruction.now }
{
    if address_of(instruction).is_some() {
        return confined(profile, instruction);
    }
    if is_of_place(instruction) {
        return Err(Reason::Place);
    }
    computed_elsewhere(instruction)
}

/// What stands in the place of an instruction that breaks a rule by itself.
fn alone(profile: Profile, rule: Rule, instruction: &Instruction) -> Result<Mend, Reason>
    requires has { IsTrue (is_of profile instruction.now) }
    requires legal { IsLegal instruction.now }
    requires fits { AllFit (fields instruction.now) }
    ensures keeps { IfOk result (λ mend. KeepsRules profile (mended mend)) }
    ensures count { IfOk result (λ mend. mend.count ≤ 7) }
    ensures does { IfOk result (λ mend. IsTrue (moves_plainly instruction.now) → DoesTheSame [] (mended mend) instruction.now) }
    ensures bounded { IfOk result (λ mend. IsTrue (moves_bounded instruction.now) → DoesTheSameBounded [] (mended mend) instruction.now) }
    ensures told { refusal result ≡ obstacles.obstacle rule instruction.now }
{
    match rule {
        Rule::AccessConfined => confined(profile, instruction),
        Rule::BaseKept => Err(Reason::Base),
        Rule::AddressGuarded | Rule::LinkGuarded | Rule::OffsetNarrow | Rule::StackBounded => {
            written(profile, instruction)
        }
        Rule::TargetInside => Err(Reason::Target),
        Rule::BranchBounded => match instruction {
            Instruction::BranchRegister(i) => Ok(bounded(i)),
            _ => Err(Reason::Kept),
        },
        Rule::Spelled | Rule::NeedMet => Err(Reason::Kept),
    }
}

/// What stands in the place of a word that breaks a rule by itself.
fn of_word(
    profile: Profile,
    rule: Rule,
    word: u32,
    next: &Option<Instruction>,
) -> Result<Mend, Reason>
    ensures keeps { IfOk result (λ mend. KeepsRules profile (mended mend)) }
    ensures count { IfOk result (λ mend. mend.count ≤ 7) }
    ensures does { (i : Instruction) → SpellsIn profile i word → IsTrue (moves_plainly i) → IfOk result (λ mend. DoesTheSame [] (mended mend) i) }
    ensures bounded { (i : Instruction) → SpellsIn profile i word → IsTrue (moves_bounded i) → IfOk result (λ mend. DoesTheSameBounded [] (mended mend) i) }
    ensures told { IsReasonOfWord profile rule word next.now (refusal result) }
{
    match decode(word, profile) {
        Some(instruction) => alone(profile, rule, &instruction),
        None => replaced(profile, word, next),
    }
}

/// What stands before a word that doesn't meet a need, or after the last word, which leaves it open.
fn needed(profile: Profile, need: Need) -> Result<Mend, Reason>
    ensures leads { IfOk result (λ mend. Leads profile need (mended mend) Nothing) }
    ensures told { refusal result ≡ obstacles.of_need need }
{
    match meeting(need) {
        Some(instruction) => Ok(Mend::new().behind(instruction, need, profile)),
        None if need == Need::Call => Err(Reason::Call),
        None => Err(Reason::Kept),
    }
}

/// A mend after what meets a need.
fn behind_need(profile: Profile, need: Need, mend: Mend) -> Mend
    requires room { mend.count ≤ 7 }
    requires keeps { KeepsRules profile (mended mend) }
    requires other { need ≢ Call }
    ensures items { mended result ≡ spec.meeting need ++ mended mend }
    ensures leads { Leads profile need (mended result) Nothing }
{
    match meeting(need) {
        Some(first) => mend.behind(first, need, profile),
        None => mend,
    }
}

/// What stands in the place of a word of a profile, by the least rule that it breaks and the need that is open before it.
///
/// For rule 10 it stands before the word, which stays; or, where the module's last word leaves the need open, after that.
/// Else it stands in the word's place, and begins with what meets the need. `next` is the instruction after the word, which
/// tells whether RBIT is there for a count of trailing zeros. The mend keeps the rules wherever it stands: at most
/// eight instructions, which may write w22, x18, x16 and x17 beside what the word writes.
///
/// # Errors
///
/// The reason why there is no mend.
pub fn mend_of(
    profile: Profile,
    rule: Rule,
    word: u32,
    unmet: Need,
    next: &Option<Instruction>,
) -> Result<Mend, Reason>
    ensures leads { IfOk result (λ mend. Leads profile unmet (mended mend) Nothing) }
    ensures does { (i : Instruction) → rule ≢ NeedMet → SpellsIn profile i word → IsTrue (moves_plainly i) → IfOk result (λ mend. DoesTheSame (spec.meeting unmet) (mended mend) i) }
    ensures bounded { (i : Instruction) → rule ≢ NeedMet → SpellsIn profile i word → IsTrue (moves_bounded i) → IfOk result (λ mend. DoesTheSameBounded (spec.meeting unmet) (mended mend) i) }
    ensures told { IsReason profile rule word unmet next.now (refusal result) }
{
    if rule == Rule::NeedMet {
        return needed(profile, unmet);
    }
    if unmet == Need::Call {
        return Err(Reason::Call);
    }
    match of_word(profile, rule, word, next) {
        Ok(mend) => Ok(behind_need(profile, unmet, mend)),
        Err(reason) => Err(reason),
    }
}

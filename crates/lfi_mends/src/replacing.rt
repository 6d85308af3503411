//! What stands in the place of words that the profile leaves out.

ghost use Rattle.std.specs.Prelude.{◌≡◌, ◌<◌, ◌≤◌, ◌+◌, ◌==◌, ◌||◌, not, false, IfOk, IfNone, IsTrue};
ghost use Rattle.a64_effects.specs.Effects.{changes_base, form_of_pair_mode};
ghost use Rattle.a64_word.specs.Operands.{data_size};
ghost use Rattle.lfi_mends.specs.Registers as spec;
ghost use Rattle.lfi_module.specs.declared.profile.Profile.{Profile};
ghost use Rattle.a64_word.specs.Encoding.{IsLegal, fields};
ghost use Rattle.a64_word.specs.Fields.{AllFit};
ghost use Rattle.a64_word.specs.Profiles.{is_of};
ghost use Rattle.a64_word.specs.declared.instruction.Instruction.{Instruction};
ghost use Rattle.lfi_mends.specs.Mends.{KeepsRules, mended};
ghost use Rattle.lfi_mends.specs.Obstacles as obstacles;
ghost use Rattle.lfi_mends.specs.Obstacles.{refusal, IsReasonOfOutside};

use crate::accesses::{FIRST_SCRATCH, SECOND_SCRATCH, confined, with_change};
use crate::builders::{access, is_reserved, sum_with_immediate};
use crate::formulas::{
    Mask, carry, carry_in_offset, chosen, divided, extended, flags_of_sum, flags_of_sum_or, joined,
    masked, multiplied, negated, rotated, shifted, summed, top_bit, with_carry,
};
use crate::mend::Mend;
use crate::outside::{Outside, likened, outside_of};
use crate::pairs::distance;
use crate::reason::Reason;
use a64_word::{
    AddSubShifted, Condition, CountLeadingZeros, Instruction, Logical, LogicalShifted, MultiplyAdd,
    Pair, PairMode, Register, Shift, Size, Transfer, Width, decode,
};
use lfi_module::Profile;
use lfi_rules::registers::{BASE, OFFSET, STACK};

/// The register that a mend computes in.
fn first() -> Register
    ensures { result ≡ 16 }
{
    Register::new(FIRST_SCRATCH)
}

/// Another one.
fn second() -> Register
    ensures { result ≡ 17 }
{
    Register::new(SECOND_SCRATCH)
}

/// Whether a register is x16 or x17.
fn is_scratch(register: Register) -> bool
    ensures { result ≡ obstacles.is_scratch register }
{
    register.number() == FIRST_SCRATCH || register.number() == SECOND_SCRATCH
}

/// Why three operands and a result hinder a mend that computes in x16 and x17.
fn hindered(into: Register, one: Register, two: Register, three: Register) -> Option<Reason>
    ensures told { result ≡ obstacles.of_operands into one two three }
    ensures free { IfNone result (spec.is_reserved into ≡ false) }
{
    if is_reserved(into) {
        return Some(Reason::Reserved);
    }
    if is_scratch(one) || is_scratch(two) || is_scratch(three) {
        return Some(Reason::Scratch);
    }
    None
}

/// The bits of two registers one after another, from a place on.
fn extracted(i: &LogicalShifted) -> Result<Mend, Reason>
    requires legal { IsLegal (Instruction.LogicalShifted i.now) }
    ensures keeps { IfOk result (λ mend. (profile : Profile) → KeepsRules profile (mended mend)) }
    ensures count { IfOk result (λ mend. mend.count ≤ 7) }
    ensures told { refusal result ≡ obstacles.of_operands i.now.rd i.now.rn i.now.rm i.now.rm }
{
    if let Some(reason) = hindered(i.rd, i.rn, i.rm, i.rm) {
        return Err(reason);
    }
    Ok(extracted_into(i.width, i.rd, i.rn, i.rm, i.amount))
}

/// The same into a register that isn't reserved.
fn extracted_into(width: Width, into: Register, high: Register, low: Register, amount: u8) -> Mend
    requires fits { amount < data_size width }
    requires free { spec.is_reserved into ≡ false }
    ensures keeps { (profile : Profile) → KeepsRules profile (mended result) }
    ensures count { result.count ≤ 7 }
{
    if high == low {
        return Mend::new().and(rotated(width, into, low, amount));
    }
    if amount == 0 {
        return Mend::new().and(rotated(width, into, low, 0));
    }
    let rest = width.bits() as u8 - amount;
    Mend::new()
        .and(shifted(
            width,
            first(),
            Register::new(STACK),
            low,
            Shift::Lsr,
            amount,
        ))
        .and(shifted(width, into, first(), high, Shift::Lsl, rest))
}

/// The bytes of each half word in the other order, rotated by 8 places, in x16.
fn halves(width: Width, from: Register) -> Mend
    ensures keeps { (profile : Profile) → KeepsRules profile (mended result) }
    ensures count { result.count ≡ 3 }
{
    Mend::new()
        .and(masked(width, first(), from, Mask::LowBytes))
        .and(masked(width, second(), from, Mask::HighBytes))
        .and(shifted(width, first(), first(), second(), Shift::Ror, 16))
}

/// The half words of each word in the other order, rotated by 16 places more.
fn words(mend: Mend) -> Mend
    requires room { mend.count ≤ 3 }
    requires keeps { (profile : Profile) → KeepsRules profile (mended mend) }
    ensures keeps { (profile : Profile) → KeepsRules profile (mended result) }
    ensures count { result.count ≡ mend.count + 3 }
{
    mend.and(masked(Width::X, second(), first(), Mask::InnerBytes))
        .and(masked(Width::X, first(), first(), Mask::OuterBytes))
        .and(shifted(Width::X, first(), first(), second(), Shift::Ror, 32))
}

/// The bytes of each half word in the other order.
fn reversed_in_halves(width: Width, into: Register, from: Register) -> Mend
    requires { spec.is_reserved into ≡ false }
    ensures keeps { (profile : Profile) → KeepsRules profile (mended result) }
    ensures count { result.count ≤ 7 }
{
    let amount = match width {
        Width::W => 24,
        Width::X => 56,
    };
    halves(width, from).and(rotated(width, into, first(), amount))
}

/// The bytes of each word in the other order.
fn reversed_in_words(width: Width, into: Register, from: Register) -> Mend
    requires { spec.is_reserved into ≡ false }
    ensures keeps { (profile : Profile) → KeepsRules profile (mended result) }
    ensures count { result.count ≤ 7 }
{
    let halves = halves(width, from);
    match width {
        Width::W => halves.and(rotated(Width::W, into, first(), 8)),
        Width::X => words(halves).and(rotated(Width::X, into, first(), 40)),
    }
}

/// All bytes in the other order.
fn reversed(into: Register, from: Register) -> Mend
    requires { spec.is_reserved into ≡ false }
    ensures keeps { (profile : Profile) → KeepsRules profile (mended result) }
    ensures count { result.count ≤ 7 }
{
    words(halves(Width::X, from)).and(rotated(Width::X, into, first(), 8))
}

/// A number with as many leading zeros as another has trailing ones.
fn lowest_bit_reversed(width: Width, into: Register, from: Register) -> Mend
    requires { spec.is_reserved into ≡ false }
    ensures keeps { (profile : Profile) → KeepsRules profile (mended result) }
    ensures count { result.count ≤ 7 }
{
    Mend::new()
        .and(negated(width, first(), from))
        .and(joined(width, Logical::And, false, first(), first(), from))
        .and(top_bit(width, second()))
        .and(divided(width, into, second(), first()))
}

/// Whether an instruction counts the leading zeros of a register, in that register.
fn counts(next: &Option<Instruction>, i: &CountLeadingZeros) -> bool
    ensures { result ≡ obstacles.counts next.now i.now }
{
    match next {
        Some(Instruction::CountLeadingZeros(j)) => {
            j.width == i.width && j.rn == i.rd && j.rd == i.rd
        }
        _ => false,
    }
}

/// What stands in the place of a word that reverses the bits or the bytes of a register.
fn turned(
    outside: Outside,
    i: &CountLeadingZeros,
    next: &Option<Instruction>,
) -> Result<Mend, Reason>
    ensures keeps { IfOk result (λ mend. (profile : Profile) → KeepsRules profile (mended mend)) }
    ensures count { IfOk result (λ mend. mend.count ≤ 7) }
    ensures told { refusal result ≡ obstacles.of_turned outside i.now next.now }
{
    if outside == Outside::ReverseBits && !counts(next, i) {
        return Err(Reason::Bits);
    }
    if let Some(reason) = hindered(i.rd, i.rn, i.rn, i.rn) {
        return Err(reason);
    }
    Ok(match outside {
        Outside::ReverseBits => lowest_bit_reversed(i.width, i.rd, i.rn),
        Outside::ReverseInHalves => reversed_in_halves(i.width, i.rd, i.rn),
        Outside::ReverseInWords => reversed_in_words(i.width, i.rd, i.rn),
        _ => reversed(i.rd, i.rn),
    })
}

/// A product of two W registers, added to an X register or subtracted from it.
fn product(signed: bool, i: &MultiplyAdd) -> Result<Mend, Reason>
    ensures keeps { IfOk result (λ mend. (profile : Profile) → KeepsRules profile (mended mend)) }
    ensures count { IfOk result (λ mend. mend.count ≤ 7) }
    ensures told { refusal result ≡ obstacles.of_operands i.now.rd i.now.rn i.now.rm i.now.ra }
{
    if let Some(reason) = hindered(i.rd, i.rn, i.rm, i.ra) {
        return Err(reason);
    }
    let factors = Mend::new()
        .and(extended(signed, first(), i.rn))
        .and(extended(signed, second(), i.rm));
    Ok(factors.and(multiplied(i.subtract, i.rd, first(), second(), i.ra)))
}

/// A sum of two registers and the flag C.
fn sum_with_carry(i: &AddSubShifted) -> Result<Mend, Reason>
    ensures keeps { IfOk result (λ mend. (profile : Profile) → KeepsRules profile (mended mend)) }
    ensures count { IfOk result (λ mend. mend.count ≤ 7) }
    ensures told { refusal result ≡ obstacles.of_operands i.now.rd i.now.rn i.now.rm i.now.rm }
{
    if let Some(reason) = hindered(i.rd, i.rn, i.rm, i.rm) {
        return Err(reason);
    }
    let condition = if i.subtract {
        Condition::Cs
    } else {
        Condition::Cc
    };
    Ok(
        Mend::new()
            .and(carry(i.width, first(), condition))
            .and(summed(i.width, false, first(), first(), i.rm))
            .and(summed(i.width, i.subtract, i.rd, i.rn, first())),
    )
}

/// After a mend, the bits in x17 that both operands have, and in x16 those that one of them has, or both; of a difference, the
/// second operand is its complement. The sum of these two is that of the operands, and wraps where that does.
fn operands_by_bits(mend: Mend, i: &AddSubShifted) -> Mend
    requires room { mend.count ≤ 5 }
    requires keeps { (profile : Profile) → KeepsRules profile (mended mend) }
    ensures keeps { (profile : Profile) → KeepsRules profile (mended result) }
    ensures count { result.count ≡ mend.count + 2 }
{
    mend.and(joined(i.width, Logical::And, i.subtract, second(), i.rn, i.rm))
        .and(joined(i.width, Logical::Orr, i.subtract, first(), i.rn, i.rm))
}

/// A sum of two registers and the flag C, with its flags. The result's register holds x17 and C before it holds the sum. That
/// wraps for itself only where both operands have all bits but the highest; the flags are then those of the sum without C.
fn sum_with_flags(i: &AddSubShifted) -> Mend
    requires free { spec.is_reserved i.now.rd ≡ false }
    ensures keeps { (profile : Profile) → KeepsRules profile (mended result) }
    ensures count { result.count ≤ 7 }
{
    let zero = Register::new(STACK);
    operands_by_bits(Mend::new(), i)
        .and(with_carry(i.width, i.rd, second()))
        .and(flags_of_sum(i.width, zero, i.rd, 1))
        .and(chosen(i.width, second(), second(), i.rd))
        .and(summed(i.width, false, i.rd, first(), i.rd))
        .and(flags_of_sum(i.width, first(), second(), 0))
}

/// The flags alone of such a sum. C goes to the bit 0 of x17. Where that was 1, both operands are odd and the sum with C isn't 0:
/// it has the flags of the sum without C, but for that of 0, which is 1 with a carry. C comes into w22 once the operands were
/// read, of which that may be one.
fn flags_with_carry(i: &AddSubShifted) -> Mend
    ensures keeps { (profile : Profile) → KeepsRules profile (mended result) }
    ensures count { result.count ≤ 7 }
{
    let zero = Register::new(STACK);
    let carry = Register::new(OFFSET);
    operands_by_bits(Mend::new(), i)
        .and(carry_in_offset())
        .and(joined(i.width, Logical::Ands, false, zero, carry, second()))
        .and(joined(i.width, Logical::Orr, false, second(), second(), carry))
        .and(flags_of_sum_or(i.width, first(), second(), 0))
        .and(flags_of_sum_or(i.width, first(), second(), 2))
}

/// What stands in the place of ADCS and SBCS.
fn flagged(i: &AddSubShifted) -> Result<Mend, Reason>
    ensures keeps { IfOk result (λ mend. (profile : Profile) → KeepsRules profile (mended mend)) }
    ensures count { IfOk result (λ mend. mend.count ≤ 7) }
    ensures told { refusal result ≡ obstacles.of_operands i.now.rd i.now.rn i.now.rm i.now.rd }
{
    if let Some(reason) = hindered(i.rd, i.rn, i.rm, i.rd) {
        return Err(reason);
    }
    if i.rd.number() == STACK {
        return Ok(flags_with_carry(i));
    }
    Ok(sum_with_flags(i))
}

/// What stands in the place of ADC, SBC, ADCS and SBCS.
fn carried(i: &AddSubShifted) -> Result<Mend, Reason>
    ensures keeps { IfOk result (λ mend. (profile : Profile) → KeepsRules profile (mended mend)) }
    ensures count { IfOk result (λ mend. mend.count ≤ 7) }
    ensures told { refusal result ≡ obstacles.of_carry i.now }
{
    if i.set_flags {
        flagged(i)
    } else {
        sum_with_carry(i)
    }
}

/// Two loads of words whose signs are extended, from a base and a distance.
fn signed_loads(mend: Mend, i: &Pair, below: bool, bytes: u16) -> Mend
    requires room { mend.count ≤ 2 }
    requires keeps { (profile : Profile) → KeepsRules profile (mended mend) }
    requires near { bytes < 4096 }
    requires first { spec.is_reserved i.now.rt ≡ false }
    requires second { spec.is_reserved i.now.rt2 ≡ false }
    ensures keeps { (profile : Profile) → KeepsRules profile (mended result) }
    ensures count { result.count ≡ mend.count + 4 }
{
    let sum = Register::new(OFFSET);
    mend.and(sum_with_immediate(sum, i.rn, below, false, bytes))
        .and(access(Size::Word, Transfer::LoadSignedX, i.rt, sum))
        .and(sum_with_immediate(sum, sum, false, false, 4))
        .and(access(Size::Word, Transfer::LoadSignedX, i.rt2, sum))
}

/// Where the base is w22, which held the address of the second word last, it holds that of the first again.
fn with_first_address(mend: Mend, base: Register) -> Mend
    requires room { mend.count ≤ 7 }
    requires keeps { (profile : Profile) → KeepsRules profile (mended mend) }
    ensures keeps { (profile : Profile) → KeepsRules profile (mended result) }
    ensures count { result.count ≤ mend.count + 1 }
{
    if base.number() == OFFSET {
        return mend.and(sum_with_immediate(base, base, true, false, 4));
    }
    mend
}

/// Why there is no mend of LDPSW.
fn signed_pair_hindered(i: &Pair) -> Option<Reason>
    ensures told { result ≡ obstacles.of_signed_pair i.now }
    ensures first { IfNone result (spec.is_reserved i.now.rt ≡ false) }
    ensures second { IfNone result (spec.is_reserved i.now.rt2 ≡ false) }
    ensures base { IfNone result (IsTrue (not (changes_base (form_of_pair_mode i.now.mode)) || not (i.now.rn == 21))) }
{
    if i.mode != PairMode::Offset && i.rn.number() == BASE {
        return Some(Reason::Base);
    }
    if is_reserved(i.rt) || is_reserved(i.rt2) {
        return Some(Reason::Reserved);
    }
    None
}

/// What stands in the place of LDPSW.
fn signed_pair(i: &Pair) -> Result<Mend, Reason>
    requires legal { IsLegal (Instruction.Pair i.now) }
    ensures keeps { IfOk result (λ mend. (profile : Profile) → KeepsRules profile (mended mend)) }
    ensures count { IfOk result (λ mend. mend.count ≤ 7) }
    ensures told { refusal result ≡ obstacles.of_signed_pair i.now }
{
    if let Some(reason) = signed_pair_hindered(i) {
        return Err(reason);
    }
    let distance = distance(i);
    let sum = Register::new(OFFSET);
    Ok(match i.mode {
        PairMode::Offset => signed_loads(Mend::new(), i, distance.below, distance.bytes),
        PairMode::PreIndex => {
            let mend = with_change(Mend::new(), i.rn, distance, sum);
            with_first_address(signed_loads(mend, i, false, 0), i.rn)
        }
        PairMode::PostIndex => {
            let mend = with_first_address(signed_loads(Mend::new(), i, false, 0), i.rn);
            with_change(mend, i.rn, distance, sum)
        }
    })
}

/// What stands in the place of an instruction that the profile leaves out, by one of the profile with the same operands.
fn by_likeness(
    profile: Profile,
    outside: Outside,
    like: &Instruction,
    next: &Option<Instruction>,
) -> Result<Mend, Reason>
    requires has { IsTrue (is_of profile like.now) }
    requires legal { IsLegal like.now }
    requires fits { AllFit (fields like.now) }
    ensures keeps { IfOk result (λ mend. KeepsRules profile (mended mend)) }
    ensures count { IfOk result (λ mend. mend.count ≤ 7) }
    ensures told { refusal result ≡ obstacles.of_outside outside like.now next.now }
{
    match (outside, like) {
        (Outside::Extract, Instruction::LogicalShifted(i)) => extracted(i),
        (
            Outside::ReverseBits
            | Outside::ReverseInHalves
            | Outside::ReverseInWords
            | Outside::ReverseAll,
            Instruction::CountLeadingZeros(i),
        ) => turned(outside, i, next),
        (Outside::SignedProduct, Instruction::MultiplyAdd(i)) => product(true, i),
        (Outside::UnsignedProduct, Instruction::MultiplyAdd(i)) => product(false, i),
        (Outside::Carry, Instruction::AddSubShifted(i)) => carried(i),
        (Outside::SignedPair, Instruction::Pair(i)) => signed_pair(i),
        (Outside::Unprivileged | Outside::NonTemporal, _) => confined(profile, like),
        (Outside::Prefetch, _) => Ok(Mend::new()),
        _ => Err(Reason::Outside),
    }
}

/// What stands in the place of a word that no instruction of a profile spells.
pub(crate) fn replaced(
    profile: Profile,
    word: u32,
    next: &Option<Instruction>,
) -> Result<Mend, Reason>
    ensures keeps { IfOk result (λ mend. KeepsRules profile (mended mend)) }
    ensures count { IfOk result (λ mend. mend.count ≤ 7) }
    ensures told { IsReasonOfOutside profile word next.now (refusal result) }
{
    let Some(outside) = outside_of(word) else {
        return Err(Reason::Outside);
    };
    match decode(likened(outside, word), profile) {
        Some(like) => by_likeness(profile, outside, &like, next),
        None => Err(Reason::Outside),
    }
}

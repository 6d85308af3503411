//! What stands in the place of single accesses.

ghost use Rattle.std.specs.Prelude.{◌≡◌, ◌<◌, ◌≤◌, ◌+◌, IfOk, IsTrue, true, false, ◌==◌, ◌&&◌, not, ◌++◌, ◌∷◌, [], ◌^◌};
ghost use Rattle.lfi_module.specs.declared.profile.Profile.{Profile};
ghost use Rattle.lfi_module.specs.declared.profile.Profile.TheVariants.{Two};
ghost use Rattle.a64_word.specs.Encoding.{IsAccess, IsLegal, fields};
ghost use Rattle.a64_word.specs.Fields.{AllFit};
ghost use Rattle.a64_word.specs.declared.instruction.Instruction.{Instruction};
ghost use Rattle.lfi_mends.specs.Mends.{KeepsRules, mended};
ghost use Rattle.lfi_mends.specs.Outcomes.{DoesTheSame, DoesTheSameBounded, moves_itself, moves_bounded, moves_plainly, probe};
ghost use Rattle.lfi_mends.specs.Obstacles.{refusal, of_access, of_single, is_double};
ghost use Rattle.lfi_mends.specs.Registers as spec;
ghost use Rattle.lfi_mends.specs.inner.Rows as rows;
ghost use Rattle.std.specs.Prelude.{None, is_some};
ghost use Rattle.a64_word.specs.Operands.{IsSigned, size_code};
ghost use Rattle.a64_word.specs.Profiles.{is_of};

use crate::builders::{
    access, address_guard, changed, copied, copied_to_offset, guard, is_reserved, link_access,
    link_ordered, may_move, ordered, stack_moved, sum_with_immediate, sum_with_index,
};
use crate::mend::Mend;
use crate::pairs::paired;
use crate::reason::Reason;
use a64_word::{
    IndexMode, Instruction, Ordered, Register, RegisterOffset, SignedOffset, Size, Transfer,
    UnsignedOffset,
};
use lfi_module::Profile;
use lfi_rules::registers::{BASE, LINK, OFFSET, STACK};

/// A register that a mend may write where w22 and x18 don't suffice.
pub(crate) const FIRST_SCRATCH: u8 = 16;

/// Another one.
pub(crate) const SECOND_SCRATCH: u8 = 17;

/// How far an access is from its base, and in which direction.
#[derive(Clone, Copy)]
pub(crate) struct Distance {
    pub(crate) below: bool,
    pub(crate) bytes: u16,
}

/// No distance.
const NONE: Distance = Distance {
    below: false,
    bytes: 0,
};

/// A single access, by all but its address.
#[derive(Clone, Copy)]
pub(crate) struct Single {
    pub(crate) size: Size,
    pub(crate) transfer: Transfer,
    pub(crate) moved: Register,
}

/// X16; or x17, where the other register is x16.
pub(crate) fn scratch_beside(register: Register) -> Register
    ensures free { IsTrue (spec.is_free result) }
    ensures is { result ≡ rows.scratch_of register }
{
    if register.number() == FIRST_SCRATCH {
        Register::new(SECOND_SCRATCH)
    } else {
        Register::new(FIRST_SCRATCH)
    }
}

/// The register that holds the sum for an access: w22, or w16 where x22 is stored.
fn sum_register(transfer: Transfer, moved: Register) -> Register
    ensures holds { IsTrue (spec.may_hold result) }
    ensures offset { IsTrue (moves_itself transfer moved) → result ≡ 22 }
    ensures is { result ≡ rows.sum_for transfer moved }
{
    if moved.number() == OFFSET && transfer == Transfer::Store {
        Register::new(FIRST_SCRATCH)
    } else {
        Register::new(OFFSET)
    }
}

/// The register that holds the sum for a base that is changed: w22, or w16 where the access moves x22.
fn sum_beside(moved: Register) -> Register
    ensures holds { IsTrue (spec.may_hold result) }
    ensures is { result ≡ rows.sum_beside moved }
{
    if moved.number() == OFFSET {
        Register::new(FIRST_SCRATCH)
    } else {
        Register::new(OFFSET)
    }
}

/// Whether a base alone is the address: not sp, which is no W register of an access.
fn is_bare(base: Register, bytes: u16) -> bool
    ensures { result ≡ rows.is_bare base bytes }
{
    bytes == 0 && base.number() != STACK
}

/// The register that holds the address of a base and a distance: the base, or else the sum's.
pub(crate) fn index_of(base: Register, bytes: u16, sum: Register) -> Register
    ensures { result ≡ rows.index_of sum base bytes }
{
    if is_bare(base, bytes) { base } else { sum }
}

/// The sum of a base and a distance, where that isn't the base alone.
pub(crate) fn with_sum(mend: Mend, base: Register, distance: Distance, sum: Register) -> Mend
    requires room { mend.count ≤ 6 }
    requires keeps { (profile : Profile) → KeepsRules profile (mended mend) }
    requires near { distance.bytes < 32768 }
    requires holds { IsTrue (spec.may_hold sum) }
    ensures keeps { (profile : Profile) → KeepsRules profile (mended result) }
    ensures items { mended result ≡ mended mend ++ rows.sums sum base distance.below distance.bytes }
    ensures count { result.count ≤ mend.count + 2 }
{
    if is_bare(base, distance.bytes) {
        return mend;
    }
    let low = distance.bytes % 4096;
    let high = distance.bytes / 4096;
    if high == 0 {
        return mend.and(sum_with_immediate(sum, base, distance.below, false, low));
    }
    let first = mend.and(sum_with_immediate(sum, base, distance.below, true, high));
    if low == 0 {
        return first;
    }
    first.and(sum_with_immediate(sum, sum, distance.below, false, low))
}

/// A register that is written from a W register: as w22, or by the guard.
pub(crate) fn put(mend: Mend, into: Register, from: Register) -> Mend
    requires room { mend.count ≤ 7 }
    requires keeps { (profile : Profile) → KeepsRules profile (mended mend) }
    requires base { (into == 21) ≡ false }
    ensures keeps { (profile : Profile) → KeepsRules profile (mended result) }
    ensures items { mended result ≡ mended mend ++ rows.put_of into from ∷ [] }
    ensures count { result.count ≡ mend.count + 1 }
{
    if into.number() == OFFSET {
        return mend.and(copied_to_offset(from));
    }
    mend.and(guard(into, from))
}

/// Whether an access loads 64 bits into x30.
fn loads_link(size: Size, transfer: Transfer, moved: Register) -> bool
    ensures moves { IsTrue result → spec.may_move transfer moved ≡ false }
    ensures is { result ≡ rows.loads_link size transfer moved }
{
    size == Size::Double && transfer == Transfer::Load && moved.number() == LINK
}

/// An access at x21 and a W register. What only few instructions may write is loaded into another register first.
fn with_access(mend: Mend, single: Single, index: Register, scratch: Register) -> Mend
    requires room { mend.count ≤ 5 }
    requires keeps { (profile : Profile) → KeepsRules profile (mended mend) }
    requires legal { IsAccess single.size single.transfer }
    requires free { IsTrue (spec.is_free scratch) }
    requires base { of_single single.transfer single.moved ≡ None }
    ensures keeps { (profile : Profile) → KeepsRules profile (mended result) }
    ensures items { IsTrue (moves_itself single.transfer single.moved) → mended result ≡ mended mend ++ rows.access_of single.size single.transfer index single.moved ∷ [] }
    ensures all { mended result ≡ mended mend ++ rows.access_with single.size single.transfer index single.moved scratch }
    ensures count { result.count ≤ mend.count + 2 }
{
    if loads_link(single.size, single.transfer, single.moved) {
        return mend.and_guarded(link_access(index));
    }
    if may_move(single.transfer, single.moved) {
        return mend.and(access(single.size, single.transfer, single.moved, index));
    }
    let loaded = mend.and(access(single.size, single.transfer, scratch, index));
    put(loaded, single.moved, scratch)
}

/// A base that is changed.
pub(crate) fn with_change(mend: Mend, base: Register, distance: Distance, sum: Register) -> Mend
    requires room { mend.count ≤ 5 }
    requires keeps { (profile : Profile) → KeepsRules profile (mended mend) }
    requires near { distance.bytes < 4096 }
    requires holds { IsTrue (spec.may_hold sum) }
    requires base { (base == 21) ≡ false }
    ensures keeps { (profile : Profile) → KeepsRules profile (mended result) }
    ensures items { IsTrue (spec.is_free base) → mended result ≡ mended mend ++ rows.changed_of distance.below distance.bytes base ∷ [] }
    ensures all { (base == 31) ≡ false → mended result ≡ mended mend ++ rows.change_of sum base distance.below distance.bytes }
    ensures stack { base ≡ 31 → mended result ≡ mended mend ++ rows.changed_of distance.below distance.bytes 31 ∷ probe ∷ [] }
    ensures count { result.count ≤ mend.count + 2 }
{
    let number = base.number();
    if number == STACK {
        return mend.and_probed(stack_moved(distance.below, distance.bytes));
    }
    if number == OFFSET {
        return mend.and(sum_with_immediate(base, base, distance.below, false, distance.bytes));
    }
    if is_reserved(base) {
        return mend
            .and(sum_with_immediate(sum, base, distance.below, false, distance.bytes))
            .and(guard(base, sum));
    }
    mend.and(changed(base, distance.below, distance.bytes))
}

/// An access at a base and a distance.
fn plain(mend: Mend, single: Single, base: Register, distance: Distance) -> Mend
    requires room { mend.count ≤ 2 }
    requires keeps { (profile : Profile) → KeepsRules profile (mended mend) }
    requires near { distance.bytes < 32768 }
    requires legal { IsAccess single.size single.transfer }
    requires base { of_single single.transfer single.moved ≡ None }
    ensures keeps { (profile : Profile) → KeepsRules profile (mended result) }
    ensures items { IsTrue (moves_itself single.transfer single.moved) → mended result ≡ mended mend ++ rows.accessed single.size single.transfer single.moved base distance.below distance.bytes }
    ensures all { mended result ≡ mended mend ++ rows.any_accessed single.size single.transfer single.moved base distance.below distance.bytes }
    ensures count { result.count ≤ mend.count + 4 }
{
    let sum = sum_register(single.transfer, single.moved);
    let index = index_of(base, distance.bytes, sum);
    let mend = with_sum(mend, base, distance, sum);
    with_access(mend, single, index, scratch_beside(base))
}

/// By how many places an index is shifted: as many as the number of bytes has as a power of two, where it is scaled.
fn amount(size: Size, scaled: bool) -> u8
    ensures few { result ≤ 3 }
    ensures is { result ≡ rows.amount_of size scaled }
{
    if !scaled {
        return 0;
    }
    match size {
        Size::Byte => 0,
        Size::Half => 1,
        Size::Word => 2,
        Size::Double => 3,
    }
}

/// How many bytes an access has.
fn bytes(size: Size) -> u16
    ensures few { result ≤ 8 }
    ensures is { result ≡ 2 ^ size_code size }
{
    match size {
        Size::Byte => 1,
        Size::Half => 2,
        Size::Word => 4,
        Size::Double => 8,
    }
}

/// Whether an access loads x21.
fn loads_base(transfer: Transfer, moved: Register) -> bool
    ensures { result ≡ is_some (of_single transfer moved) }
{
    transfer != Transfer::Store && moved.number() == BASE
}

/// What stands in the place of an access at an unsigned offset.
fn unsigned(i: &UnsignedOffset) -> Result<Mend, Reason>
    requires legal { IsLegal (Instruction.UnsignedOffset i.now) }
    requires fits { AllFit (fields (Instruction.UnsignedOffset i.now)) }
    ensures keeps { IfOk result (λ mend. (profile : Profile) → KeepsRules profile (mended mend)) }
    ensures count { IfOk result (λ mend. mend.count ≤ 7) }
    ensures does { IfOk result (λ mend. IsTrue (moves_itself i.now.transfer i.now.rt) → DoesTheSame [] (mended mend) (Instruction.UnsignedOffset i.now)) }
    ensures bounded { IfOk result (λ mend. DoesTheSameBounded [] (mended mend) (Instruction.UnsignedOffset i.now)) }
    ensures told { refusal result ≡ of_access (Instruction.UnsignedOffset i.now) }
{
    if loads_base(i.transfer, i.rt) {
        return Err(Reason::Base);
    }
    let single = Single {
        size: i.size,
        transfer: i.transfer,
        moved: i.rt,
    };
    let distance = Distance {
        below: false,
        bytes: i.imm12 * bytes(i.size),
    };
    Ok(plain(Mend::new(), single, i.rn, distance))
}

/// A signed offset as a distance.
pub(crate) fn distance_of(offset: i32) -> Distance
    requires { IsSigned 11 offset }
    ensures near { result.bytes < 4096 }
    ensures is { rows.offset_of result.below result.bytes ≡ offset }
    ensures some { result.below ≡ true → 1 ≤ result.bytes }
{
    if offset < 0 {
        Distance {
            below: true,
            bytes: (-offset) as u16,
        }
    } else {
        Distance {
            below: false,
            bytes: offset as u16,
        }
    }
}

/// An access at a base, which is changed before it or after it.
fn changing(single: Single, base: Register, distance: Distance, before: bool) -> Mend
    requires near { distance.bytes < 4096 }
    requires legal { IsAccess single.size single.transfer }
    requires free { of_single single.transfer single.moved ≡ None }
    requires base { (base == 21) ≡ false }
    ensures keeps { (profile : Profile) → KeepsRules profile (mended result) }
    ensures items { IsTrue (moves_itself single.transfer single.moved) → IsTrue (spec.is_free base) → mended result ≡ rows.changing before single.size single.transfer single.moved base distance.below distance.bytes }
    ensures all { (base == 31) ≡ false → mended result ≡ rows.any_changing before single.size single.transfer single.moved base distance.below distance.bytes }
    ensures stack { base ≡ 31 → mended result ≡ rows.stack_changing before single.size single.transfer single.moved base distance.below distance.bytes }
    ensures count { result.count ≤ 7 }
{
    let sum = sum_beside(single.moved);
    if before {
        let mend = with_change(Mend::new(), base, distance, sum);
        return plain(mend, single, base, NONE);
    }
    let mend = plain(Mend::new(), single, base, NONE);
    with_change(mend, base, distance, sum)
}

/// What stands in the place of an access at a signed offset.
fn signed(i: &SignedOffset) -> Result<Mend, Reason>
    requires legal { IsLegal (Instruction.SignedOffset i.now) }
    ensures keeps { IfOk result (λ mend. (profile : Profile) → KeepsRules profile (mended mend)) }
    ensures count { IfOk result (λ mend. mend.count ≤ 7) }
    ensures does { IfOk result (λ mend. IsTrue (moves_plainly (Instruction.SignedOffset i.now)) → DoesTheSame [] (mended mend) (Instruction.SignedOffset i.now)) }
    ensures bounded { IfOk result (λ mend. DoesTheSameBounded [] (mended mend) (Instruction.SignedOffset i.now)) }
    ensures told { refusal result ≡ of_access (Instruction.SignedOffset i.now) }
{
    if i.mode != IndexMode::Unscaled && i.rn.number() == BASE {
        return Err(Reason::Base);
    }
    if loads_base(i.transfer, i.rt) {
        return Err(Reason::Base);
    }
    let distance = distance_of(i.imm9);
    let single = Single {
        size: i.size,
        transfer: i.transfer,
        moved: i.rt,
    };
    match i.mode {
        IndexMode::Unscaled => Ok(plain(Mend::new(), single, i.rn, distance)),
        IndexMode::PreIndex => Ok(changing(single, i.rn, distance, true)),
        IndexMode::PostIndex => Ok(changing(single, i.rn, distance, false)),
    }
}

/// What stands in the place of an access at an index.
fn indexed(i: &RegisterOffset) -> Result<Mend, Reason>
    requires legal { IsLegal (Instruction.RegisterOffset i.now) }
    ensures keeps { IfOk result (λ mend. (profile : Profile) → KeepsRules profile (mended mend)) }
    ensures count { IfOk result (λ mend. mend.count ≤ 7) }
    ensures does { IfOk result (λ mend. IsTrue (moves_itself i.now.transfer i.now.rt) → DoesTheSame [] (mended mend) (Instruction.RegisterOffset i.now)) }
    ensures bounded { IfOk result (λ mend. DoesTheSameBounded [] (mended mend) (Instruction.RegisterOffset i.now)) }
    ensures told { refusal result ≡ of_access (Instruction.RegisterOffset i.now) }
{
    if loads_base(i.transfer, i.rt) {
        return Err(Reason::Base);
    }
    let single = Single {
        size: i.size,
        transfer: i.transfer,
        moved: i.rt,
    };
    let sum = sum_register(i.transfer, i.rt);
    let mend = Mend::new().and(sum_with_index(sum, i.rn, i.rm, amount(i.size, i.scaled)));
    Ok(with_access(mend, single, sum, scratch_beside(i.rn)))
}

/// Whether an ordered access loads a register that is reserved, but for x30 as X.
fn loads_reserved(size: Size, load: bool, moved: Register) -> bool
    ensures { result ≡ (load && spec.is_reserved moved && not (moved == 30 && is_double size)) }
{
    load && is_reserved(moved) && !(moved.number() == LINK && size == Size::Double)
}

/// The address of a base, in x18.
fn with_address(mend: Mend, base: Register) -> Mend
    requires room { mend.count ≤ 4 }
    requires keeps { (profile : Profile) → KeepsRules profile (mended mend) }
    ensures keeps { (profile : Profile) → KeepsRules profile (mended result) }
    ensures items { mended result ≡ mended mend ++ rows.sums 22 base false 0 ++ rows.guard_of 18 (rows.index_of 22 base 0) ∷ [] }
    ensures count { result.count ≤ mend.count + 3 }
{
    let sum = Register::new(OFFSET);
    let index = index_of(base, 0, sum);
    with_sum(mend, base, NONE, sum).and(address_guard(index))
}

/// What stands in the place of LDAR or STLR, of the second profile.
fn in_order(i: &Ordered) -> Result<Mend, Reason>
    ensures keeps { IfOk result (λ mend. KeepsRules Two (mended mend)) }
    ensures free { IfOk result (λ mend. spec.is_reserved i.now.rt ≡ false → mended mend ≡ rows.in_order i.now.size i.now.load i.now.rt i.now.rn) }
    ensures link { IfOk result (λ mend. (i.now.load && spec.is_reserved i.now.rt && not (i.now.rt == 30 && is_double i.now.size)) ≡ false) }
    ensures reserved { IfOk result (λ mend. spec.is_reserved i.now.rt ≡ true → mended mend ≡ rows.in_order_reserved i.now.size i.now.load i.now.rt i.now.rn) }
    ensures count { IfOk result (λ mend. mend.count ≤ 7) }
    ensures told { refusal result ≡ of_access (Instruction.Ordered i.now) }
{
    if loads_reserved(i.size, i.load, i.rt) {
        return Err(Reason::Reserved);
    }
    if !is_reserved(i.rt) {
        let mend = with_address(Mend::new(), i.rn);
        return Ok(mend.and_ordered(ordered(i.size, i.load, i.rt)));
    }
    if i.load {
        return Ok(with_address(Mend::new(), i.rn).and_ordered_guarded(link_ordered()));
    }
    let scratch = scratch_beside(i.rn);
    let copy = Mend::new().and(copied(scratch, i.rt));
    Ok(with_address(copy, i.rn).and_ordered(ordered(i.size, false, scratch)))
}

/// The same, by what it does.
fn ordered_access(i: &Ordered) -> Result<Mend, Reason>
    ensures keeps { IfOk result (λ mend. KeepsRules Two (mended mend)) }
    ensures does { IfOk result (λ mend. IsTrue (moves_plainly (Instruction.Ordered i.now)) → DoesTheSame [] (mended mend) (Instruction.Ordered i.now)) }
    ensures bounded { IfOk result (λ mend. DoesTheSameBounded [] (mended mend) (Instruction.Ordered i.now)) }
    ensures count { IfOk result (λ mend. mend.count ≤ 7) }
    ensures told { refusal result ≡ of_access (Instruction.Ordered i.now) }
{
    in_order(i)
}

/// What stands in the place of an access that isn't confined.
pub(crate) fn confined(profile: Profile, instruction: &Instruction) -> Result<Mend, Reason>
    requires has { IsTrue (is_of profile instruction.now) }
    requires legal { IsLegal instruction.now }
    requires fits { AllFit (fields instruction.now) }
    ensures keeps { IfOk result (λ mend. KeepsRules profile (mended mend)) }
    ensures count { IfOk result (λ mend. mend.count ≤ 7) }
    ensures does { IfOk result (λ mend. IsTrue (moves_plainly instruction.now) → DoesTheSame [] (mended mend) instruction.now) }
    ensures bounded { IfOk result (λ mend. IsTrue (moves_bounded instruction.now) → DoesTheSameBounded [] (mended mend) instruction.now) }
    ensures told { refusal result ≡ of_access instruction.now }
{
    match instruction {
        Instruction::UnsignedOffset(i) => unsigned(i),
        Instruction::SignedOffset(i) => signed(i),
        Instruction::RegisterOffset(i) => indexed(i),
        Instruction::Pair(i) => paired(i),
        Instruction::Ordered(i) => ordered_access(i),
        _ => Err(Reason::Kept),
    }
}

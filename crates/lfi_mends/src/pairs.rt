//! What stands in the place of pairs.

ghost use Rattle.std.specs.Prelude.{◌≡◌, ◌≢◌, ◌<◌, ◌≤◌, ◌+◌, IfOk, IfSome, IsTrue, true, false, not, ◌||◌, is_some, ◌==◌, ◌++◌, ◌∷◌, []};
ghost use Rattle.a64_semantics.specs.Accesses.{register_bytes};
ghost use Rattle.a64_effects.specs.Effects.{changes_base, form_of_pair_mode, pair_offset};
ghost use Rattle.a64_word.specs.declared.operands.PairMode.TheVariants.{Offset, PreIndex, PostIndex};
ghost use Rattle.lfi_mends.specs.Outcomes.{DoesTheSame, DoesTheSameBounded, moves_both, moves_bounded, moves_plainly};
ghost use Rattle.lfi_mends.specs.inner.Rows as rows;
ghost use Rattle.lfi_module.specs.declared.profile.Profile.{Profile};
ghost use Rattle.a64_word.specs.Encoding.{IsLegal};
ghost use Rattle.a64_word.specs.Operands.{IsSigned};
ghost use Rattle.a64_word.specs.declared.instruction.Instruction.{Instruction};
ghost use Rattle.lfi_mends.specs.Mends.{KeepsRules, mended};
ghost use Rattle.lfi_mends.specs.Obstacles.{refusal, of_access};
ghost use Rattle.lfi_mends.specs.Registers as spec;

use crate::accesses::{
    Distance, FIRST_SCRATCH, SECOND_SCRATCH, distance_of, index_of, with_change, with_sum,
};
use crate::builders::{
    access, address_guard, holds_link, link_pair, may_move_two, pair, sum_with_immediate,
};
use crate::mend::Mend;
use crate::reason::Reason;
use a64_word::{Pair, PairMode, Register, Size, Transfer, Width};
use lfi_rules::registers::{BASE, FIRST_ADDRESS, OFFSET};

/// No distance.
const NONE: Distance = Distance {
    below: false,
    bytes: 0,
};

/// A pair, by all but its address.
#[derive(Clone, Copy)]
struct Two {
    width: Width,
    load: bool,
    second: Register,
    first: Register,
}

/// Whether a register is none of three.
fn is_apart(register: u8, one: Register, two: Register, three: Register) -> bool
    ensures { result ≡ spec.is_apart register one two three }
{
    register != one.number() && register != two.number() && register != three.number()
}

/// The first of w22, w16 and w17 that is none of three registers, if any is.
fn spare(one: Register, two: Register, three: Register) -> Option<Register>
    ensures found { result ≡ spec.spare one two three }
    ensures holds { IfSome result (λ register. IsTrue (spec.may_hold register)) }
{
    if is_apart(OFFSET, one, two, three) {
        Some(Register::new(OFFSET))
    } else if is_apart(FIRST_SCRATCH, one, two, three) {
        Some(Register::new(FIRST_SCRATCH))
    } else if is_apart(SECOND_SCRATCH, one, two, three) {
        Some(Register::new(SECOND_SCRATCH))
    } else {
        None
    }
}

/// How many bytes each register of a pair has.
fn bytes(width: Width) -> u16
    ensures is { result ≡ register_bytes width }
    ensures few { result ≤ 8 }
{
    match width {
        Width::W => 4,
        Width::X => 8,
    }
}

/// How many bytes a single access has that moves one register of a pair.
fn size(width: Width) -> Size
    ensures { result ≡ rows.size_of width }
{
    match width {
        Width::W => Size::Word,
        Width::X => Size::Double,
    }
}

/// Two stores one after another, where x18 is stored.
fn with_singles(mend: Mend, two: &Two, index: Register, sum: Register) -> Mend
    requires room { mend.count ≤ 4 }
    requires keeps { (profile : Profile) → KeepsRules profile (mended mend) }
    requires holds { IsTrue (spec.may_hold sum) }
    ensures keeps { (profile : Profile) → KeepsRules profile (mended result) }
    ensures items { mended result ≡ mended mend ++ rows.two_stores two.now.width two.now.second two.now.first index sum }
    ensures count { result.count ≤ mend.count + 3 }
{
    let size = size(two.width);
    mend.and(access(size, Transfer::Store, two.first, index))
        .and(sum_with_immediate(sum, index, false, false, bytes(two.width)))
        .and(access(size, Transfer::Store, two.second, sum))
}

/// Whether a pair stores x18.
fn stores_first_address(two: &Two) -> bool
    ensures load { two.now.load ≡ true → result ≡ false }
    ensures free { IsTrue (moves_both two.now.second two.now.first) → result ≡ false }
    ensures is { result ≡ rows.stores_first two.now.load two.now.second two.now.first }
{
    !two.load && (two.first.number() == FIRST_ADDRESS || two.second.number() == FIRST_ADDRESS)
}

/// A pair at the address in the slot that a W register gives.
fn with_pair(mend: Mend, two: &Two, index: Register, sum: Register) -> Mend
    requires room { mend.count ≤ 4 }
    requires keeps { (profile : Profile) → KeepsRules profile (mended mend) }
    requires free { IsTrue (not two.now.load || spec.may_move_two two.now.load two.now.second two.now.first || spec.holds_link two.now.width two.now.second two.now.first) }
    requires apart { two.now.load ≡ true → two.now.first ≢ two.now.second }
    requires holds { IsTrue (spec.may_hold sum) }
    ensures keeps { (profile : Profile) → KeepsRules profile (mended result) }
    ensures items { IsTrue (moves_both two.now.second two.now.first) → mended result ≡ mended mend ++ rows.guard_of 18 index ∷ rows.pair_of two.now.width two.now.load two.now.second two.now.first ∷ [] }
    ensures all { rows.stores_first two.now.load two.now.second two.now.first ≡ false → mended result ≡ mended mend ++ rows.guard_of 18 index ∷ rows.pair_with two.now.width two.now.load two.now.second two.now.first }
    ensures stored { rows.stores_first two.now.load two.now.second two.now.first ≡ true → mended result ≡ mended mend ++ rows.two_stores two.now.width two.now.second two.now.first index sum }
    ensures count { result.count ≤ mend.count + 3 }
{
    if stores_first_address(two) {
        return with_singles(mend, two, index, sum);
    }
    let mend = mend.and(address_guard(index));
    if may_move_two(two.load, two.second, two.first) {
        return mend.and(pair(two.width, two.load, two.second, two.first));
    }
    mend.and_guarded(link_pair(two.second, two.first))
}

/// A pair at a base and a distance.
fn plain(mend: Mend, two: &Two, base: Register, distance: Distance, sum: Register) -> Mend
    requires room { mend.count ≤ 2 }
    requires keeps { (profile : Profile) → KeepsRules profile (mended mend) }
    requires near { distance.bytes < 4096 }
    requires free { IsTrue (not two.now.load || spec.may_move_two two.now.load two.now.second two.now.first || spec.holds_link two.now.width two.now.second two.now.first) }
    requires apart { two.now.load ≡ true → two.now.first ≢ two.now.second }
    requires holds { IsTrue (spec.may_hold sum) }
    ensures keeps { (profile : Profile) → KeepsRules profile (mended result) }
    ensures items { IsTrue (moves_both two.now.second two.now.first) → mended result ≡ mended mend ++ rows.paired sum two.now.width two.now.load two.now.second two.now.first base distance.below distance.bytes }
    ensures all { rows.stores_first two.now.load two.now.second two.now.first ≡ false → mended result ≡ mended mend ++ rows.any_paired sum two.now.width two.now.load two.now.second two.now.first base distance.below distance.bytes }
    ensures stored { rows.stores_first two.now.load two.now.second two.now.first ≡ true → mended result ≡ mended mend ++ rows.stored_at sum two.now.width two.now.second two.now.first base distance.below distance.bytes }
    ensures count { result.count ≤ mend.count + 5 }
{
    let index = index_of(base, distance.bytes, sum);
    with_pair(with_sum(mend, base, distance, sum), two, index, sum)
}

/// A pair, by how it uses its offset.
fn placed(two: &Two, base: Register, distance: Distance, mode: PairMode, sum: Register) -> Mend
    requires near { distance.bytes < 4096 }
    requires free { IsTrue (not two.now.load || spec.may_move_two two.now.load two.now.second two.now.first || spec.holds_link two.now.width two.now.second two.now.first) }
    requires apart { two.now.load ≡ true → two.now.first ≢ two.now.second }
    requires holds { IsTrue (spec.may_hold sum) }
    requires base { IsTrue (not (changes_base (form_of_pair_mode mode)) || not (base == 21)) }
    ensures keeps { (profile : Profile) → KeepsRules profile (mended result) }
    ensures before { mode ≡ PreIndex → IsTrue (spec.is_free base) → IsTrue (moves_both two.now.second two.now.first) → mended result ≡ rows.changing_pair true two.now.width two.now.load two.now.second two.now.first base distance.below distance.bytes }
    ensures after { mode ≡ PostIndex → IsTrue (spec.is_free base) → IsTrue (moves_both two.now.second two.now.first) → mended result ≡ rows.changing_pair false two.now.width two.now.load two.now.second two.now.first base distance.below distance.bytes }
    ensures before_all { mode ≡ PreIndex → (base == 31) ≡ false → rows.stores_first two.now.load two.now.second two.now.first ≡ false → mended result ≡ rows.any_changing_pair true sum two.now.width two.now.load two.now.second two.now.first base distance.below distance.bytes }
    ensures after_all { mode ≡ PostIndex → (base == 31) ≡ false → rows.stores_first two.now.load two.now.second two.now.first ≡ false → mended result ≡ rows.any_changing_pair false sum two.now.width two.now.load two.now.second two.now.first base distance.below distance.bytes }
    ensures all { mode ≡ Offset → rows.stores_first two.now.load two.now.second two.now.first ≡ false → mended result ≡ rows.any_paired sum two.now.width two.now.load two.now.second two.now.first base distance.below distance.bytes }
    ensures stored { mode ≡ Offset → rows.stores_first two.now.load two.now.second two.now.first ≡ true → mended result ≡ rows.stored_at sum two.now.width two.now.second two.now.first base distance.below distance.bytes }
    ensures before_stored { mode ≡ PreIndex → (base == 31) ≡ false → rows.stores_first two.now.load two.now.second two.now.first ≡ true → mended result ≡ rows.changing_stored true sum two.now.width two.now.second two.now.first base distance.below distance.bytes }
    ensures after_stored { mode ≡ PostIndex → (base == 31) ≡ false → rows.stores_first two.now.load two.now.second two.now.first ≡ true → mended result ≡ rows.changing_stored false sum two.now.width two.now.second two.now.first base distance.below distance.bytes }
    ensures items { mode ≡ Offset → IsTrue (moves_both two.now.second two.now.first) → mended result ≡ rows.paired sum two.now.width two.now.load two.now.second two.now.first base distance.below distance.bytes }
    ensures count { result.count ≤ 7 }
{
    match mode {
        PairMode::Offset => plain(Mend::new(), two, base, distance, sum),
        PairMode::PreIndex => {
            let mend = with_change(Mend::new(), base, distance, sum);
            plain(mend, two, base, NONE, sum)
        }
        PairMode::PostIndex => {
            let mend = plain(Mend::new(), two, base, NONE, sum);
            with_change(mend, base, distance, sum)
        }
    }
}

/// The register that holds sums for a pair: w22 for a load; for a store one that it doesn't read.
fn sum_register(i: &Pair) -> Option<Register>
    ensures some { is_some result ≡ (i.now.load || is_some (spec.spare i.now.rt i.now.rt2 i.now.rn)) }
    ensures holds { IfSome result (λ register. IsTrue (spec.may_hold register)) }
    ensures is { result ≡ rows.pair_sum i.now.load i.now.rt2 i.now.rt i.now.rn }
    ensures offset { IsTrue (moves_both i.now.rt2 i.now.rt) → (i.now.rn == 22) ≡ false → IfSome result (λ register. register ≡ 22) }
{
    if i.load {
        return Some(Register::new(OFFSET));
    }
    spare(i.rt, i.rt2, i.rn)
}

/// Whether a pair loads no register that is reserved, but for x30.
fn may_load(i: &Pair) -> bool
    ensures { result ≡ (not i.now.load || spec.may_move_two true i.now.rt2 i.now.rt || spec.holds_link i.now.width i.now.rt2 i.now.rt) }
{
    !i.load || may_move_two(true, i.rt2, i.rt) || holds_link(i.width, i.rt2, i.rt)
}

/// The distance of a pair from its base.
pub(crate) fn distance(i: &Pair) -> Distance
    requires { IsSigned 7 i.now.imm7 }
    ensures near { result.bytes < 4096 }
    ensures is { rows.offset_of result.below result.bytes ≡ pair_offset i.now.width i.now.imm7 }
    ensures some { result.below ≡ true → 1 ≤ result.bytes }
{
    match i.width {
        Width::W => distance_of(i.imm7 * 4),
        Width::X => distance_of(i.imm7 * 8),
    }
}

/// What stands in the place of a pair.
pub(crate) fn paired(i: &Pair) -> Result<Mend, Reason>
    requires legal { IsLegal (Instruction.Pair i.now) }
    ensures keeps { IfOk result (λ mend. (profile : Profile) → KeepsRules profile (mended mend)) }
    ensures count { IfOk result (λ mend. mend.count ≤ 7) }
    ensures does { IfOk result (λ mend. IsTrue (moves_plainly (Instruction.Pair i.now)) → DoesTheSame [] (mended mend) (Instruction.Pair i.now)) }
    ensures bounded { IfOk result (λ mend. IsTrue (moves_bounded (Instruction.Pair i.now)) → DoesTheSameBounded [] (mended mend) (Instruction.Pair i.now)) }
    ensures told { refusal result ≡ of_access (Instruction.Pair i.now) }
{
    if i.mode != PairMode::Offset && i.rn.number() == BASE {
        return Err(Reason::Base);
    }
    if !may_load(i) {
        return Err(Reason::Reserved);
    }
    let Some(sum) = sum_register(i) else {
        return Err(Reason::Scratch);
    };
    let two = Two {
        width: i.width,
        load: i.load,
        second: i.rt2,
        first: i.rt,
    };
    Ok(placed(&two, i.rn, distance(i), i.mode, sum))
}

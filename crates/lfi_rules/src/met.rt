//! Words that surely meet a need: told by a look at the fields that matter.

ghost use Rattle.std.specs.Prelude.{◌≡◌, ◌<◌, IsTrue, false};
ghost use Rattle.lfi_classes.specs.Sets as sets;
ghost use Rattle.lfi_module.specs.declared.profile.Profile.{Profile};
ghost use Rattle.lfi_rules.specs.declared.needs.Need.TheVariants.{Call, Guard, Probe};
ghost use Rattle.lfi_rules.specs.Faults.{Meets};
ghost use Rattle.lfi_rules.specs.inner.Quiet.{IsMet};

use crate::needs::Need;

/// BLR X30.
const CALL: u32 = 0xD63F03C0;

/// ADD X30, X21, W30, UXTW #0.
const GUARD: u32 = 0x8B3E42BE;

/// Whether a word surely meets a need.
#[inline(always)]
pub fn is_met(word: u32, need: Need) -> bool
    ensures met { (profile : Profile) → IsTrue result → Meets profile word need }
    ensures call { (profile : Profile) → need ≡ Call → result ≡ false → Meets profile word Call → ⊥ }
    ensures guard { (profile : Profile) → need ≡ Guard → result ≡ false → Meets profile word Guard → ⊥ }
{
    match need {
        Need::Nothing => true,
        Need::Call => word == CALL,
        Need::Guard => word == GUARD,
        Need::Probe(_) => probes_by_one(word) | probes_by_two(word),
    }
}

/// Whether the size and opc of a single access go together.
#[inline(always)]
fn is_access(size: u32, transfer: u32) -> bool
    requires size { size < 4 }
    requires transfer { transfer < 4 }
    ensures { result ≡ sets.is_access size transfer }
{
    size + transfer <= 4
}

/// Whether a word is a load or store of one register at sp.
#[inline(always)]
fn probes_by_one(word: u32) -> bool
    ensures { IsTrue result → IsMet word (Probe 1) }
{
    (word >> 24 & 0b111111 == 0b111001)
        & (word >> 5 & 0x1FFFF == 31)
        & is_access(word >> 30, word >> 22 & 3)
}

/// Whether a word is a load or store of two registers at sp.
#[inline(always)]
fn probes_by_two(word: u32) -> bool
    ensures { IsTrue result → IsMet word (Probe 1) }
{
    let stores = word >> 22 & 1 == 0;
    let apart = word & 31 != word >> 10 & 31;
    (word >> 23 & 0xFF == 0b01010010)
        & (word >> 15 & 0x7F == 0)
        & (word >> 5 & 31 == 31)
        & (stores | apart)
}

/// Whether a word is a load or store of one register at sp that extends no sign.
#[inline(always)]
fn probes_plainly_by_one(word: u32) -> bool
    ensures { IsTrue result → IsMet word (Probe 1) }
{
    (word >> 24 & 0b111111 == 0b111001) & (word >> 23 & 1 == 0) & (word >> 5 & 0x1FFFF == 31)
}

/// Whether a word is a store of two registers at sp.
#[inline(always)]
fn probes_plainly_by_two(word: u32) -> bool
    ensures { IsTrue result → IsMet word (Probe 1) }
{
    (word >> 22 & 0x1FF == 0b010100100) & (word >> 15 & 0x7F == 0) & (word >> 5 & 31 == 31)
}

/// Whether a word is one of those that nearly all probes are: told by two masked comparisons.
#[inline(always)]
pub fn is_plain_probe(word: u32) -> bool
    ensures { (profile : Profile) → IsTrue result → Meets profile word (Probe 1) }
{
    probes_plainly_by_one(word) | probes_plainly_by_two(word)
}

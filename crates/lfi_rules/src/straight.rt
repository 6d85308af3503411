//! Words that are calm by their class and a few of their bits.

ghost use Rattle.std.specs.Prelude.{◌≡◌, ℕ, IsTrue, true};
ghost use Rattle.lfi_module.specs.declared.profile.Profile.{Profile};
ghost use Rattle.a64_word.specs.declared.instruction.Instruction.{Instruction};
ghost use Rattle.a64_word.specs.Encoding.{Spells};
ghost use Rattle.lfi_rules.specs.declared.needs.Need.TheVariants.{Nothing};
ghost use Rattle.lfi_rules.specs.Needs.{opens_of};
ghost use Rattle.lfi_rules.specs.Calm.{is_calm, IsCalm};
ghost use Rattle.lfi_rules.specs.inner.Quiet.{IsQuietWord};

use lfi_classes::{Reach, classes_of};

/// Whether an instruction that a word spells, if it opens nothing, is surely calm: the word is no branch's, its base isn't 31, if it
/// is an access's, and nor are its low five bits, but where bit 29 is set, as of a sum that sets flags or of an access, and it
/// isn't ORR of an immediate. Each part is one masked comparison.
#[inline(always)]
fn is_straight(word: u32) -> bool
    ensures { (profile : Profile) (i : Instruction) → IsTrue result → Spells i word → opens_of profile i ≡ Nothing → is_calm profile i ≡ true }
{
    let sums = (word & 31 == 31) & (word >> 29 & 1 == 0);
    let masks = (word & 31 == 31) & (word >> 23 & 255 == 0b01100100);
    let accesses = (word >> 27 & 1 == 1) & (word >> 25 & 1 == 0) & (word >> 5 & 31 == 31);
    (word >> 26 & 7 != 5) & !sums & !masks & !accesses
}

/// NOP, which has the bits of a branch.
const NOP: u32 = 0xD503201F;

/// Whether a word is surely calm, and keeps the rules wherever it stands.
#[inline(always)]
pub fn is_surely_calm(word: u32) -> bool
    ensures quiet { IsTrue result → (k n : ℕ) → IsQuietWord word k n Nothing }
    ensures calm { (profile : Profile) → IsTrue result → IsCalm profile word }
{
    classes_of(word).is_quiet(Reach::Quiet) & (is_straight(word) | (word == NOP))
}

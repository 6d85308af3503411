ghost use Rattle.std.specs.Prelude.{◌≡◌, ◌<◌, IfSome, IfNone, ℕ, ◌^◌};
ghost use Rattle.a64_word.specs.Operands.{IsSigned};
ghost use Rattle.a64_word.specs.Operands as operands;
ghost use Rattle.a64_word.specs.Fields.{total_width, IsWordOf};
ghost use Rattle.a64_word.specs.Fields as spec;

use a64_word::Field;

/// A field of `width` bits, with its value.
pub(crate) fn field(width: u32, value: u32) -> Field
    ensures { result ≡ spec.bits width value }
{
    Field { width, value }
}

/// The word of these fields, from bit 31 down, where each of them is in its range.
pub(crate) fn word_of(fields: &[Field]) -> Option<u32>
    requires { total_width fields.now ≡ 32 }
    ensures found { IfSome result (λ word. IsWordOf fields.now word) }
    ensures none { IfNone result ((word : ℕ) → IsWordOf fields.now word → ⊥) }
{
    let mut word: u64 = 0;
    for field in fields {
        if u64::from(field.value) >= 1 << field.width {
            return None;
        }
        word = (word << field.width) + u64::from(field.value);
    }
    Some(word as u32)
}

/// A signed number in two's complement.
pub(crate) fn twos_complement(number: i32, width: u32) -> u32
    requires some { 0 < width }
    requires narrow { width < 31 }
    requires fits { IsSigned width number }
    ensures value { result ≡ operands.twos_complement width number }
    ensures below { result < 2 ^ width }
{
    if number < 0 {
        (1 << width) - 1 - (-(number + 1)) as u32
    } else {
        number as u32
    }
}

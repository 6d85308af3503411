ghost use Rattle.std.specs.Prelude.{◌≡◌};
ghost use Rattle.a64_semantics.specs.Sums.{flags_of_bits};
ghost use Rattle.a64_semantics.specs.Results.{bitwise, logical};

use crate::computed::Computed;
use crate::flags::Flags;
use a64_word::{Logical, Width};

/// The flags of a result that is made bit by bit.
#[inline(always)]
fn flags_of_bits(width: Width, x: u64) -> Flags
    ensures { result ≡ flags_of_bits width x }
{
    let negative = match width {
        Width::W => x >= 1 << 31,
        Width::X => x >= 1 << 63,
    };
    Flags {
        negative,
        zero: x == 0,
        carry: false,
        overflow: false,
    }
}

/// AND, ORR or EOR of two numbers.
#[inline(always)]
fn bitwise(operation: Logical, x: u64, y: u64) -> u64
    ensures { result ≡ bitwise operation x y }
{
    match operation {
        Logical::And | Logical::Ands => x & y,
        Logical::Orr => x | y,
        Logical::Eor => x ^ y,
    }
}

/// A logical operation, and its flags where they are set.
#[inline(always)]
pub(crate) fn logical(width: Width, operation: Logical, x: u64, y: u64) -> Computed
    ensures { result ≡ logical width operation x y }
{
    let value = bitwise(operation, x, y);
    let flags = match operation {
        Logical::Ands => Some(flags_of_bits(width, value)),
        Logical::And | Logical::Orr | Logical::Eor => None,
    };
    Computed { value, flags }
}

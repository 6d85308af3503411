ghost use Rattle.std.specs.Prelude.{◌≡◌, ◌^◌, ◌<◌};
ghost use Rattle.a64_word.specs.declared.operands.Width.TheVariants.{W, X};
ghost use Rattle.a64_word.specs.Operands.{bit, data_size};
ghost use Rattle.a64_semantics.specs.Sums.{sum_of, flags_of_sum, add_sub};

use crate::computed::Computed;
use crate::flags::Flags;
use crate::numbers::complement;
use a64_word::Width;

/// x + y + carry, modulo 2^d.
#[inline(always)]
fn sum_of(width: Width, x: u64, y: u64, carry: bool) -> u64
    requires x { x < 2 ^ data_size width }
    requires y { y < 2 ^ data_size width }
    ensures { result ≡ sum_of width x y (bit carry) }
{
    let sum = x.wrapping_add(y).wrapping_add(u64::from(carry));
    match width {
        Width::W => sum % (1 << 32),
        Width::X => sum,
    }
}

/// The flags of x + y + carry in 64 bits. No test branches, since operands are hard to predict.
#[inline(always)]
fn flags_of_sum_x(x: u64, y: u64, carry: bool, sum: u64) -> Flags
    requires { sum ≡ sum_of X x y (bit carry) }
    ensures { result ≡ flags_of_sum X x y (bit carry) }
{
    let negative = sum >= 1 << 63;
    let (x_negative, y_negative) = (x >= 1 << 63, y >= 1 << 63);
    Flags {
        negative,
        zero: sum == 0,
        carry: (sum < x) | (carry & (sum == x)),
        overflow: (x_negative == y_negative) & (x_negative != negative),
    }
}

/// The flags of x + y + carry in 32 bits.
#[inline(always)]
fn flags_of_sum_w(x: u32, y: u32, carry: bool, sum: u32) -> Flags
    requires { sum ≡ sum_of W x y (bit carry) }
    ensures { result ≡ flags_of_sum W x y (bit carry) }
{
    let negative = sum >= 1 << 31;
    let (x_negative, y_negative) = (x >= 1 << 31, y >= 1 << 31);
    Flags {
        negative,
        zero: sum == 0,
        carry: (sum < x) | (carry & (sum == x)),
        overflow: (x_negative == y_negative) & (x_negative != negative),
    }
}

/// The flags of x + y + carry: "AddWithCarry" of the Arm manual.
#[inline(always)]
pub(crate) fn flags_of_sum(width: Width, x: u64, y: u64, carry: bool) -> Flags
    requires x { x < 2 ^ data_size width }
    requires y { y < 2 ^ data_size width }
    ensures { result ≡ flags_of_sum width x y (bit carry) }
{
    let sum = sum_of(width, x, y, carry);
    match width {
        Width::W => flags_of_sum_w(x as u32, y as u32, carry, sum as u32),
        Width::X => flags_of_sum_x(x, y, carry, sum),
    }
}

/// x + y or x - y, and its flags where they are set.
#[inline(always)]
pub(crate) fn add_sub(width: Width, subtract: bool, set_flags: bool, x: u64, y: u64) -> Computed
    requires x { x < 2 ^ data_size width }
    requires y { y < 2 ^ data_size width }
    ensures { result ≡ add_sub width subtract set_flags x y }
{
    let addend = if subtract { complement(width, y) } else { y };
    let value = sum_of(width, x, addend, subtract);
    let flags = if set_flags {
        Some(flags_of_sum(width, x, addend, subtract))
    } else {
        None
    };
    Computed { value, flags }
}

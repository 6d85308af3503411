ghost use Rattle.std.specs.Prelude.{◌≡◌, ◌<◌, ◌≤◌, ◌-◌, ◌*◌, ◌/◌, ◌%◌, ◌^◌};
ghost use Rattle.a64_word.specs.Operands.{data_size};
ghost use Rattle.a64_semantics.specs.Numbers.{operand, complement};

use a64_word::Width;

/// An operand, of what its register holds.
#[inline(always)]
pub(crate) fn operand(width: Width, held: u64) -> u64
    ensures value { result ≡ operand width held }
    ensures below { result < 2 ^ data_size width }
{
    match width {
        Width::W => held % (1 << 32),
        Width::X => held,
    }
}

/// Each bit the other way round.
#[inline(always)]
pub(crate) fn complement(width: Width, x: u64) -> u64
    requires { x < 2 ^ data_size width }
    ensures value { result ≡ complement width x }
    ensures below { result < 2 ^ data_size width }
{
    match width {
        Width::W => u64::from(u32::MAX) - x,
        Width::X => u64::MAX - x,
    }
}

/// `count` ones.
#[inline(always)]
pub(crate) fn ones(count: u32) -> u64
    requires some { 1 ≤ count }
    requires most { count ≤ 64 }
    ensures { result ≡ 2 ^ count - 1 }
{
    u64::MAX >> (64 - count)
}

/// The lowest bits of a number.
#[inline(always)]
pub(crate) fn low_bits(x: u64, count: u32) -> u64
    requires { count ≤ 64 }
    ensures { result ≡ x % 2 ^ count }
{
    if count == 0 {
        return 0;
    }
    x & ones(count)
}

/// A number without its lowest bits.
#[inline(always)]
pub(crate) fn high_bits(x: u64, count: u32) -> u64
    requires { count ≤ 64 }
    ensures { result ≡ x / 2 ^ count * 2 ^ count }
{
    if count == 64 {
        return 0;
    }
    (x >> count) << count
}

ghost use Rattle.std.specs.Prelude.{◌≡◌, ◌<◌, ◌%◌, ◌^◌};
ghost use Rattle.std.specs.Int.{cast_unsigned, cast_signed, w8, w16, w32, w64};
ghost use Rattle.a64_word.specs.declared.operands.Width.TheVariants.{W, X};
ghost use Rattle.a64_word.specs.Operands.{data_size};
ghost use Rattle.a64_semantics.specs.Shifts.{shifted, extended, extended_operand};

use crate::numbers::operand;
use a64_word::{Extend, Shift, Width};

/// A number of 64 bits, shifted or rotated.
#[inline(always)]
fn shifted_x(shift: Shift, x: u64, by: u32) -> u64
    requires { by < 64 }
    ensures { result ≡ shifted X shift x by }
{
    match shift {
        Shift::Lsl => x << by,
        Shift::Lsr => x >> by,
        Shift::Asr => (x.cast_signed() >> by).cast_unsigned(),
        Shift::Ror => x.rotate_right(by),
    }
}

/// A number of 32 bits, shifted or rotated.
#[inline(always)]
fn shifted_w(shift: Shift, x: u32, by: u32) -> u32
    requires { by < 32 }
    ensures { result ≡ shifted W shift x by }
{
    match shift {
        Shift::Lsl => x << by,
        Shift::Lsr => x >> by,
        Shift::Asr => (x.cast_signed() >> by).cast_unsigned(),
        Shift::Ror => x.rotate_right(by),
    }
}

/// An operand, shifted or rotated.
#[inline(always)]
pub(crate) fn shifted(width: Width, shift: Shift, x: u64, by: u32) -> u64
    requires x { x < 2 ^ data_size width }
    requires by { by < data_size width }
    ensures value { result ≡ shifted width shift x by }
    ensures below { result < 2 ^ data_size width }
{
    // Most operands aren't shifted, and this test is told more easily than the kind of shift.
    if by == 0 {
        return x;
    }
    match width {
        Width::W => u64::from(shifted_w(shift, x as u32, by)),
        Width::X => shifted_x(shift, x, by),
    }
}

/// The low 8 bits, sign-extended.
#[inline(always)]
pub(crate) fn sign_extended_8(held: u64) -> u64
    ensures { result ≡ cast_unsigned w64 (cast_signed w8 (held % 2 ^ 8)) }
{
    i64::from(((held % (1 << 8)) as u8).cast_signed()).cast_unsigned()
}

/// The low 16 bits, sign-extended.
#[inline(always)]
pub(crate) fn sign_extended_16(held: u64) -> u64
    ensures { result ≡ cast_unsigned w64 (cast_signed w16 (held % 2 ^ 16)) }
{
    i64::from(((held % (1 << 16)) as u16).cast_signed()).cast_unsigned()
}

/// The low 32 bits, sign-extended.
#[inline(always)]
pub(crate) fn sign_extended_32(held: u64) -> u64
    ensures { result ≡ cast_unsigned w64 (cast_signed w32 (held % 2 ^ 32)) }
{
    i64::from(((held % (1 << 32)) as u32).cast_signed()).cast_unsigned()
}

/// What a register holds, extended to 64 bits.
#[inline(always)]
fn extended_x(extend: Extend, held: u64) -> u64
    ensures { result ≡ extended X extend held }
{
    match extend {
        Extend::Uxtb => held % (1 << 8),
        Extend::Uxth => held % (1 << 16),
        Extend::Uxtw => held % (1 << 32),
        Extend::Uxtx | Extend::Sxtx => held,
        Extend::Sxtb => sign_extended_8(held),
        Extend::Sxth => sign_extended_16(held),
        Extend::Sxtw => sign_extended_32(held),
    }
}

/// What a register holds, extended and then shifted left.
#[inline(always)]
pub(crate) fn extended_operand(width: Width, extend: Extend, held: u64, by: u32) -> u64
    requires { by < 64 }
    ensures value { result ≡ extended_operand width extend held by }
    ensures below { result < 2 ^ data_size width }
{
    operand(width, extended_x(extend, held) << by)
}

ghost use Rattle.std.specs.Prelude.{◌≡◌, ◌+◌, ◌-◌, ◌*◌, ◌%◌, ◌^◌, ◌<◌, ◌≤◌};
ghost use Rattle.a64_word.specs.Operands.{data_size};
ghost use Rattle.a64_semantics.specs.Bitfields.{moved, field_end, field_place, inserted, bitfield_move};

use crate::numbers::{high_bits, low_bits, ones};
use a64_word::{BitfieldKind, Width};

/// Where the field goes.
#[inline(always)]
fn field_place(width: Width, immr: u32, imms: u32) -> u32
    requires immr { immr < data_size width }
    ensures value { result ≡ field_place width immr imms }
    ensures below { result < 64 }
{
    if immr <= imms { 0 } else { width.bits() - immr }
}

/// The place after the field's highest bit.
#[inline(always)]
fn field_end(width: Width, immr: u32, imms: u32) -> u32
    requires immr { immr < data_size width }
    requires imms { imms < data_size width }
    ensures value { result ≡ field_end width immr imms }
    ensures some { 1 ≤ result }
    ensures most { result ≤ data_size width }
{
    if immr <= imms {
        imms - immr + 1
    } else {
        width.bits() - immr + imms + 1
    }
}

/// The field at its place, and all other bits 0.
#[inline(always)]
fn moved(width: Width, immr: u32, imms: u32, x: u64) -> u64
    requires immr { immr < data_size width }
    requires imms { imms < data_size width }
    ensures value { result ≡ moved width immr imms x }
    ensures below { result < 2 ^ field_end width immr imms }
    ensures place { result % 2 ^ field_place width immr imms ≡ 0 }
{
    if immr <= imms {
        low_bits(x >> immr, imms - immr + 1)
    } else {
        low_bits(x, imms + 1) << (width.bits() - immr)
    }
}

/// Ones from a place up to the top of the width.
#[inline(always)]
fn ones_above(width: Width, end: u32) -> u64
    requires some { 1 ≤ end }
    requires most { end ≤ data_size width }
    ensures { result ≡ 2 ^ data_size width - 2 ^ end }
{
    ones(width.bits()) - ones(end)
}

/// A number at the bits from `low` up to `high`, and the other bits of the old number.
#[inline(always)]
pub(crate) fn inserted(low: u32, high: u32, field: u64, old: u64) -> u64
    requires low { low < 64 }
    requires order { low ≤ high }
    requires high { high ≤ 64 }
    requires place { field % 2 ^ low ≡ 0 }
    requires below { field < 2 ^ high }
    ensures { result ≡ inserted low high field old }
{
    (high_bits(old, high) | field) | low_bits(old, low)
}

/// UBFM, SBFM and BFM.
#[inline(always)]
pub(crate) fn bitfield_move(
    width: Width,
    kind: BitfieldKind,
    immr: u32,
    imms: u32,
    x: u64,
    old: u64,
) -> u64
    requires immr { immr < data_size width }
    requires imms { imms < data_size width }
    ensures { result ≡ bitfield_move width kind immr imms x old }
{
    let field = moved(width, immr, imms, x);
    let end = field_end(width, immr, imms);
    match kind {
        BitfieldKind::Ubfm => field,
        BitfieldKind::Sbfm if (x >> imms) % 2 == 1 => field + ones_above(width, end),
        BitfieldKind::Sbfm => field,
        BitfieldKind::Bfm => {
            let low = field_place(width, immr, imms);
            inserted(low, end, field, old)
        }
    }
}

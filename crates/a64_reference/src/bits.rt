//! Bits, the lowest first, and arithmetic on them.
ghost use Rattle.std.specs.Prelude.{◌<◌, ◌≤◌, ◌+◌};

use a64_word::{Extend, Shift, Width};

/// Bits, the lowest first; those past the width are clear.
pub(crate) type Bits = [bool; 64];

/// How many bits a width has.
pub(crate) fn size_of(width: Width) -> usize
    ensures some { 0 < result }
    ensures most { result ≤ 64 }
{
    match width {
        Width::W => 32,
        Width::X => 64,
    }
}

/// The lowest bits of a number.
pub(crate) fn bits_of(size: usize, number: u64) -> Bits
    requires { size ≤ 64 }
{
    let mut bits = [false; 64];
    let mut rest = number;
    for i in 0..size {
        bits[i] = rest % 2 == 1;
        rest /= 2;
    }
    bits
}

/// The number of bits.
pub(crate) fn number_of(bits: &Bits) -> u64 {
    let mut number = 0u64;
    for bit in bits.iter().rev() {
        number = number.wrapping_mul(2).wrapping_add(u64::from(*bit));
    }
    number
}

/// Each bit the other way round.
pub(crate) fn inverted(size: usize, bits: &Bits) -> Bits
    requires { size ≤ 64 }
{
    let mut other = [false; 64];
    for i in 0..size {
        other[i] = !bits[i];
    }
    other
}

fn number_of_flags(n: bool, z: bool, c: bool, v: bool) -> u8 {
    8 * u8::from(n) + 4 * u8::from(z) + 2 * u8::from(c) + u8::from(v)
}

/// A sum by full adders, and its flags: it overflows where the carries into and out of the top bit differ.
pub(crate) fn sum(size: usize, x: &Bits, y: &Bits, carry: bool) -> (Bits, u8)
    requires some { 0 < size }
    requires most { size ≤ 64 }
{
    let mut bits = [false; 64];
    let mut carry = carry;
    let mut into_top = false;
    for i in 0..size {
        into_top = carry;
        bits[i] = x[i] != (y[i] != carry);
        carry = (x[i] && y[i]) || (carry && (x[i] || y[i]));
    }
    let zero = number_of(&bits) == 0;
    let flags = number_of_flags(bits[size - 1], zero, carry, into_top != carry);
    (bits, flags)
}

/// x + y or x - y.
pub(crate) fn sum_or_difference(size: usize, subtract: bool, x: &Bits, y: &Bits) -> (Bits, u8)
    requires some { 0 < size }
    requires most { size ≤ 64 }
{
    if subtract {
        sum(size, x, &inverted(size, y), true)
    } else {
        sum(size, x, y, false)
    }
}

/// The flags of bits that a logical operation gave.
pub(crate) fn flags_of(size: usize, bits: &Bits) -> u8
    requires some { 0 < size }
    requires most { size ≤ 64 }
{
    let zero = number_of(bits) == 0;
    number_of_flags(bits[size - 1], zero, false, false)
}

/// Bits shifted or rotated.
pub(crate) fn shifted(size: usize, shift: Shift, x: &Bits, by: usize) -> Bits
    requires some { 0 < size }
    requires most { size ≤ 64 }
    requires by { by < 64 }
{
    let mut bits = [false; 64];
    for i in 0..size {
        bits[i] = match shift {
            Shift::Lsl => i >= by && x[i - by],
            Shift::Lsr => i + by < size && x[i + by],
            Shift::Asr => x[(i + by).min(size - 1)],
            Shift::Ror => x[(i + by) % size],
        };
    }
    bits
}

/// Bits extended from 8, 16, 32 or 64, and then shifted left.
pub(crate) fn extended(size: usize, extend: Extend, x: &Bits, by: usize) -> Bits
    requires most { size ≤ 64 }
    requires by { by < 64 }
{
    let (from, signed) = match extend {
        Extend::Uxtb => (8usize, false),
        Extend::Uxth => (16, false),
        Extend::Uxtw => (32, false),
        Extend::Uxtx => (64, false),
        Extend::Sxtb => (8, true),
        Extend::Sxth => (16, true),
        Extend::Sxtw => (32, true),
        Extend::Sxtx => (64, true),
    };
    let mut bits = [false; 64];
    for i in 0..size {
        bits[i] = if i < by {
            false
        } else if i - by < from {
            x[i - by]
        } else {
            signed && x[(from - 1).min(63)]
        };
    }
    bits
}

/// The field's bits at their place, over what the rest is.
pub(crate) fn field_moved(size: usize, immr: usize, imms: usize, x: &Bits, rest: &Bits) -> Bits
    requires size { size ≤ 64 }
    requires immr { immr < size }
    requires imms { imms < size }
{
    let mut bits = *rest;
    if immr <= imms {
        for k in immr..=imms {
            bits[k - immr] = x[k];
        }
    } else {
        for k in 0..=imms {
            bits[(size - immr + k).min(63)] = x[k];
        }
    }
    bits
}

/// Bits whose sign goes on above the field.
pub(crate) fn sign_above(size: usize, immr: usize, imms: usize, x: &Bits) -> Bits
    requires size { size ≤ 64 }
    requires immr { immr < size }
    requires imms { imms < size }
{
    let from = if immr <= imms {
        imms - immr
    } else {
        size - immr + imms
    };
    let mut rest = [false; 64];
    for i in 0..size {
        rest[i] = i > from && x[imms];
    }
    field_moved(size, immr, imms, x, &rest)
}

/// How many bits a bitmask's element has, by the beginning of imms.
fn element_size(n: bool, imms: usize) -> usize
    ensures { 0 < result }
{
    match imms {
        _ if n => 64,
        0..=31 => 32,
        32..=47 => 16,
        48..=55 => 8,
        56..=59 => 4,
        _ => 2,
    }
}

/// The bitmask: bit i is set where its place in the element, turned back, is at most imms.
pub(crate) fn bitmask(size: usize, n: bool, immr: usize, imms: usize) -> Bits
    requires size { size ≤ 64 }
    requires immr { immr < 64 }
{
    let element = element_size(n, imms);
    let mut bits = [false; 64];
    for i in 0..size {
        bits[i] = (i % element + immr % element) % element <= imms % element;
    }
    bits
}

/// The number of clear bits above the highest that is set.
pub(crate) fn zeros_above(size: usize, x: &Bits) -> u64
    requires { size ≤ 64 }
{
    let mut count = 0u64;
    for i in 0..size {
        count = if x[i] { 0 } else { count.wrapping_add(1) };
    }
    count
}

/// a + x * y or a - x * y, a bit of y at a time.
pub(crate) fn product_sum(size: usize, subtract: bool, x: &Bits, y: &Bits, a: &Bits) -> Bits
    requires some { 0 < size }
    requires most { size ≤ 64 }
{
    let mut total = *a;
    for i in 0..size {
        if y[i] {
            let part = shifted(size, Shift::Lsl, x, i);
            total = sum_or_difference(size, subtract, &total, &part).0;
        }
    }
    total
}

/// The upper 64 bits of the product: after each bit of y the sum so far is halved, from the lowest bit on.
pub(crate) fn high_product(x: &Bits, y: &Bits) -> Bits {
    let mut total = [false; 64];
    for i in 0..64 {
        let mut carry = false;
        if y[i] {
            let (next, flags) = sum(64, &total, x, false);
            total = next;
            carry = flags / 2 % 2 == 1;
        }
        total = shifted(64, Shift::Lsr, &total, 1);
        total[63] = carry;
    }
    total
}

/// The upper 64 bits of the signed product: each negative factor takes the other away from them.
pub(crate) fn signed_high_product(x: &Bits, y: &Bits) -> Bits {
    let mut total = high_product(x, y);
    if x[63] {
        total = sum_or_difference(64, true, &total, y).0;
    }
    if y[63] {
        total = sum_or_difference(64, true, &total, x).0;
    }
    total
}

/// The quotient by long division; a remainder has one bit more.
pub(crate) fn quotient(size: usize, x: &Bits, y: &Bits) -> Bits
    requires { size ≤ 64 }
{
    let mut bits = [false; 64];
    let divisor = u128::from(number_of(y));
    if divisor == 0 {
        return bits;
    }
    let mut rest = 0u128;
    for i in (0..size).rev() {
        rest = rest.wrapping_mul(2).wrapping_add(u128::from(x[i]));
        if rest >= divisor {
            rest = rest.wrapping_sub(divisor);
            bits[i] = true;
        }
    }
    bits
}

fn negated(size: usize, x: &Bits) -> Bits
    requires some { 0 < size }
    requires most { size ≤ 64 }
{
    sum(size, &[false; 64], &inverted(size, x), true).0
}

/// The quotient of the absolute values, negated where the signs differ.
pub(crate) fn signed_quotient(size: usize, x: &Bits, y: &Bits) -> Bits
    requires some { 0 < size }
    requires most { size ≤ 64 }
{
    let (x_negative, y_negative) = (x[size - 1], y[size - 1]);
    let x = if x_negative { negated(size, x) } else { *x };
    let y = if y_negative { negated(size, y) } else { *y };
    let bits = quotient(size, &x, &y);
    if x_negative != y_negative {
        negated(size, &bits)
    } else {
        bits
    }
}

/// Whether a condition of this number holds: bits 1 to 3 choose a test, and bit 0 turns it round, but for 15.
pub(crate) fn holds(code: u32, nzcv: u8) -> bool {
    let (n, z, c, v) = (
        nzcv / 8 % 2 == 1,
        nzcv / 4 % 2 == 1,
        nzcv / 2 % 2 == 1,
        nzcv % 2 == 1,
    );
    let test = match code / 2 {
        0 => z,
        1 => c,
        2 => n,
        3 => v,
        4 => c && !z,
        5 => n == v,
        6 => n == v && !z,
        _ => true,
    };
    test != (code % 2 == 1 && code != 15)
}

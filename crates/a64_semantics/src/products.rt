ghost use Rattle.std.specs.Prelude.{◌≡◌, ◌+◌, ◌*◌, ◌%◌, ◌^◌, ◌<◌, if◌then◌else◌};
ghost use Rattle.a64_word.specs.declared.operands.Width.TheVariants.{W, X};
ghost use Rattle.a64_word.specs.Operands.{data_size};
ghost use Rattle.a64_semantics.specs.Numbers.{difference};
ghost use Rattle.a64_semantics.specs.Products.{high_product, signed_high_product, quotient, signed_quotient};

use a64_word::Width;

/// a + x * y, or a - x * y, modulo 2^64.
#[inline(always)]
fn product_sum_x(subtract: bool, x: u64, y: u64, a: u64) -> u64
    ensures { result ≡ (if subtract then difference X a (x * y) else (a + x * y) % 2 ^ 64) }
{
    let product = x.wrapping_mul(y);
    if subtract {
        a.wrapping_sub(product)
    } else {
        a.wrapping_add(product)
    }
}

/// a + x * y, or a - x * y, modulo 2^32.
#[inline(always)]
fn product_sum_w(subtract: bool, x: u32, y: u32, a: u32) -> u32
    ensures { result ≡ (if subtract then difference W a (x * y) else (a + x * y) % 2 ^ 32) }
{
    let product = x.wrapping_mul(y);
    if subtract {
        a.wrapping_sub(product)
    } else {
        a.wrapping_add(product)
    }
}

/// a + x * y, or a - x * y.
#[inline(always)]
pub(crate) fn product_sum(width: Width, subtract: bool, x: u64, y: u64, a: u64) -> u64
    requires x { x < 2 ^ data_size width }
    requires y { y < 2 ^ data_size width }
    requires a { a < 2 ^ data_size width }
    ensures { result ≡ (if subtract then difference width a (x * y) else (a + x * y) % 2 ^ data_size width) }
{
    match width {
        Width::W => u64::from(product_sum_w(subtract, x as u32, y as u32, a as u32)),
        Width::X => product_sum_x(subtract, x, y, a),
    }
}

/// The upper 64 bits of the product.
#[inline(always)]
pub(crate) fn high_product(x: u64, y: u64) -> u64
    ensures { result ≡ high_product x y }
{
    ((x as u128 * y as u128) >> 64) as u64
}

/// The upper 64 bits of the product of the signed values.
#[inline(always)]
pub(crate) fn signed_high_product(x: u64, y: u64) -> u64
    ensures { result ≡ signed_high_product x y }
{
    let product = x.cast_signed() as i128 * y.cast_signed() as i128;
    (product.cast_unsigned() >> 64) as u64
}

/// The quotient, 0 for a divisor of 0.
#[inline(always)]
pub(crate) fn quotient(x: u64, y: u64) -> u64
    ensures { result ≡ quotient x y }
{
    if y == 0 { 0 } else { x / y }
}

/// The quotient of the signed values of 64 bits, 0 for a divisor of 0.
#[inline(always)]
fn signed_quotient_x(x: u64, y: u64) -> u64
    ensures { result ≡ signed_quotient X x y }
{
    if y == 0 {
        return 0;
    }
    let quotient = x.cast_signed().wrapping_div(y.cast_signed());
    quotient.cast_unsigned()
}

/// The quotient of the signed values of 32 bits, 0 for a divisor of 0.
#[inline(always)]
fn signed_quotient_w(x: u32, y: u32) -> u32
    ensures { result ≡ signed_quotient W x y }
{
    if y == 0 {
        return 0;
    }
    let quotient = x.cast_signed().wrapping_div(y.cast_signed());
    quotient.cast_unsigned()
}

/// The quotient of the signed values, 0 for a divisor of 0.
#[inline(always)]
pub(crate) fn signed_quotient(width: Width, x: u64, y: u64) -> u64
    requires x { x < 2 ^ data_size width }
    requires y { y < 2 ^ data_size width }
    ensures { result ≡ signed_quotient width x y }
{
    match width {
        Width::W => u64::from(signed_quotient_w(x as u32, y as u32)),
        Width::X => signed_quotient_x(x, y),
    }
}

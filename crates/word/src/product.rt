//! Products and quotients.
ghost use Rattle.std.specs.Prelude.{◌≡◌};
ghost use Rattle.word.specs.ProductsExact.{ProductExact, OverflowExact, QuotientExact};
ghost use Rattle.word.specs.Products.{product_low, product_high, product_high_signed, product_overflows, quotient, quotient_signed};

use crate::sign::is_negative;

/// The low word of a product.
pub fn multiply(a: u32, b: u32) -> u32
    ensures { result ≡ product_low a b }
{
    a.wrapping_mul(b)
}

/// The high word of a product of unsigned words.
pub fn multiply_high(a: u32, b: u32) -> u32
    ensures { result ≡ product_high a b }
{
    (u64::from(a) * u64::from(b) / 0x1_0000_0000) as u32
}

/// The high word of a product of signed words.
#[tactic(auto, using(crate::proofs::Products::product_exact))]
pub fn multiply_high_signed(a: u32, b: u32) -> u32
    ensures is { result ≡ product_high_signed a b }
    ensures exact { ProductExact }
{
    let less_b = if is_negative(a) { b } else { 0 };
    let less_a = if is_negative(b) { a } else { 0 };
    multiply_high(a, b)
        .wrapping_sub(less_b)
        .wrapping_sub(less_a)
}

/// Whether a product of signed words does not fit a word.
#[tactic(auto, using(crate::proofs::Products::overflow_exact))]
pub fn multiply_overflows(a: u32, b: u32) -> bool
    ensures is { result ≡ product_overflows a b }
    ensures exact { OverflowExact }
{
    let fill = if is_negative(multiply(a, b)) {
        0xFFFF_FFFF
    } else {
        0
    };
    multiply_high_signed(a, b) != fill
}

/// The quotient of unsigned words; none for a divisor of zero.
pub fn divide(a: u32, b: u32) -> Option<u32>
    ensures { result ≡ quotient a b }
{
    a.checked_div(b)
}

/// The quotient of signed words, rounded toward zero; none for a divisor of zero, and for the least word by -1.
#[tactic(auto, using(crate::proofs::Quotients::quotient_exact, crate::proofs::Quotients::divided))]
pub fn divide_signed(a: u32, b: u32) -> Option<u32>
    ensures is { result ≡ quotient_signed a b }
    ensures exact { QuotientExact }
{
    a.cast_signed()
        .checked_div(b.cast_signed())
        .map(i32::cast_unsigned)
}

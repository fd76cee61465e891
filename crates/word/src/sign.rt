//! Words as signed numbers, and narrow fields extended by their sign.
ghost use Rattle.std.specs.Prelude.{◌≡◌, ℕ, ◌%◌, ◌^◌};
ghost use Rattle.word.specs.Words.{negative, biased, inverted, extended, reversed, reversed_half};

/// Whether a word's sign bit, bit 0, is set.
pub fn is_negative(x: u32) -> bool
    ensures { result ≡ negative x }
{
    x >= 0x8000_0000
}

/// A word's signed value and 2^31 more.
pub fn bias(x: u32) -> u32
    ensures { result ≡ biased x }
{
    x.wrapping_add(0x8000_0000)
}

/// Every bit of a word inverted.
pub fn invert(x: u32) -> u32
    ensures { result ≡ inverted x }
{
    !x
}

/// The low bits of a word, as many as `BITS`, extended by their sign: 0 where that is none, and the word itself where it
/// is 32 or more.
#[tactic(auto, using(crate::proofs::Extensions::extended_by_shifts, crate::proofs::Extensions::extended_whole))]
pub fn extend<const BITS: u32>(x: u32) -> u32
    ensures { result ≡ extended BITS (x % 2 ^ BITS) }
{
    if BITS == 0 {
        return 0;
    }
    if BITS >= 32 {
        return x;
    }
    let spare = 32 - BITS;
    ((x << spare).cast_signed() >> spare).cast_unsigned()
}

/// The four bytes in the other order.
pub fn reverse(x: u32) -> u32
    ensures { result ≡ reversed x }
{
    x.swap_bytes()
}

/// The two low bytes in the other order, above them zero.
pub fn reverse_half(x: u32) -> u32
    ensures { result ≡ reversed_half x }
{
    u32::from(((x % 0x1_0000) as u16).swap_bytes())
}

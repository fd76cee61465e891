//! Comparisons, and the condition register with its eight fields of four bits.
ghost use Rattle.std.specs.Prelude.{◌≡◌, ℕ, ◌%◌};
ghost use Rattle.word.specs.Conditions.{relation, relation_signed, traps, field_at, with_field, bit_at, with_bit, field_mask, merged};

use crate::sign::bias;
use std::cmp::Ordering;

// A number and no enum of orders: it is the field's bits as the condition register holds them.
/// How two words compare, as a condition field without its last bit: 8 for less, 4 for greater, 2 for equal.
pub fn compare(a: u32, b: u32) -> u32
    ensures { result ≡ relation a b }
{
    match a.cmp(&b) {
        Ordering::Less => 8,
        Ordering::Greater => 4,
        Ordering::Equal => 2,
    }
}

/// How two signed words compare, as a condition field without its last bit.
pub fn compare_signed(a: u32, b: u32) -> u32
    ensures { result ≡ relation_signed a b }
{
    compare(bias(a), bias(b))
}

/// Whether one of five conditions holds of two words: from the left, signed less and greater, equal, unsigned less and
/// greater.
pub fn traps(conditions: u32, a: u32, b: u32) -> bool
    ensures { result ≡ traps conditions a b }
{
    let signed = match bias(a).cmp(&bias(b)) {
        Ordering::Less => conditions / 16 % 2 == 1,
        Ordering::Greater => conditions / 8 % 2 == 1,
        Ordering::Equal => conditions / 4 % 2 == 1,
    };
    let unsigned = match a.cmp(&b) {
        Ordering::Less => conditions / 2 % 2 == 1,
        Ordering::Greater => conditions % 2 == 1,
        Ordering::Equal => conditions / 4 % 2 == 1,
    };
    signed || unsigned
}

/// A field of the condition register, by the low three bits of its number.
pub fn field(cr: u32, number: u32) -> u32
    ensures { result ≡ field_at cr number }
{
    (cr >> (28 - 4 * (number % 8))) % 16
}

/// The condition register with one field set to the low four bits of a value.
pub fn with_field(cr: u32, number: u32, value: u32) -> u32
    ensures { result ≡ with_field cr number value }
{
    let place = 28 - 4 * (number % 8);
    cr & !(15 << place) | ((value % 16) << place)
}

/// A bit of the condition register, by the low five bits of its number.
pub fn bit(cr: u32, number: u32) -> bool
    ensures { result ≡ bit_at cr number }
{
    (cr >> (31 - number % 32)) % 2 == 1
}

/// The condition register with one bit set to a value.
pub fn with_bit(cr: u32, number: u32, value: bool) -> u32
    ensures { result ≡ with_bit cr number value }
{
    let place = 31 - number % 32;
    cr & !(1 << place) | (u32::from(value) << place)
}

/// The bits of the fields that a mask of eight bits names, the leftmost the first field.
pub fn field_mask(mask: u32) -> u32
    ensures { result ≡ field_mask mask }
{
    // One term for each field: the prover does not follow a sum over an iterator of the fields.
    mask / 128 % 2 * 0xF000_0000
        + mask / 64 % 2 * 0x0F00_0000
        + mask / 32 % 2 * 0x00F0_0000
        + mask / 16 % 2 * 0x000F_0000
        + mask / 8 % 2 * 0x0000_F000
        + mask / 4 % 2 * 0x0000_0F00
        + mask / 2 % 2 * 0x0000_00F0
        + mask % 2 * 0x0000_000F
}

/// A word with the bits of a mask from another.
pub fn merge(old: u32, new: u32, mask: u32) -> u32
    ensures { result ≡ merged old new mask }
{
    new & mask | old & !mask
}

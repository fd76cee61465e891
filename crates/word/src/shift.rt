//! Rotations, masks and shifts.
ghost use Rattle.std.specs.Prelude.{◌≡◌, ℕ, ◌%◌};
ghost use Rattle.std.specs.Int.Count.{count_leading_zeros};
ghost use Rattle.word.specs.Shifts.{rotated, mask, shifted_left, shifted_right, shifted_algebraic};

use crate::arithmetic::Outcome;
use crate::sign::is_negative;

/// A word rotated left, by the low five bits of an amount.
#[tactic(auto, using(crate::proofs::Rotations::rotated_by_shifts), unfolding(crate::specs::Shifts::rotated))]
pub fn rotate(x: u32, amount: u32) -> u32
    ensures { result ≡ rotated x amount }
{
    x.rotate_left(amount)
}

/// Ones from one bit to another, round the end where the first is the greater; bits by their low five bits.
#[tactic(auto, using(crate::proofs::Masks::mask_in_order, crate::proofs::Masks::mask_round_the_end), unfolding(crate::specs::Shifts::mask))]
pub fn mask_between(begin: u32, end: u32) -> u32
    ensures { result ≡ mask begin end }
{
    let from = u32::MAX >> (begin % 32);
    let to = u32::MAX << (31 - end % 32);
    if begin % 32 <= end % 32 {
        from & to
    } else {
        from | to
    }
}

/// A word shifted left, by the low six bits of an amount.
pub fn shift_left(x: u32, amount: u32) -> u32
    ensures { result ≡ shifted_left x amount }
{
    x.checked_shl(amount % 64).unwrap_or(0)
}

/// A word shifted right with zeros, by the low six bits of an amount.
pub fn shift_right(x: u32, amount: u32) -> u32
    ensures { result ≡ shifted_right x amount }
{
    x.checked_shr(amount % 64).unwrap_or(0)
}

/// A word shifted right with its sign, by the low six bits of an amount; the carry tells whether a one was shifted out of
/// a negative word.
pub fn shift_algebraic(x: u32, amount: u32) -> Outcome
    ensures { result ≡ shifted_algebraic x amount }
{
    let by = amount % 64;
    Outcome {
        value: (x.cast_signed() >> by.min(31)).cast_unsigned(),
        carry: is_negative(x) && (by >= 32 || x % (1 << by) != 0),
        overflow: false,
    }
}

/// The number of zeros on the left of a word.
pub fn leading_zeros(x: u32) -> u32
    ensures { result ≡ count_leading_zeros 32 x }
{
    x.leading_zeros()
}

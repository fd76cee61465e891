//! What an operation gives, and sums.
ghost use Rattle.std.specs.Prelude.{◌≡◌};
ghost use Rattle.word.specs.Exact.{SumExact};
ghost use Rattle.word.specs.Sums.{added};

use crate::sign::bias;

/// What an operation gives: a word, a carry, and whether the signed result does not fit a word.
#[derive(Clone, Copy, PartialEq, Eq, Debug)]
pub struct Outcome {
    pub value: u32,
    pub carry: bool,
    pub overflow: bool,
}

/// The sum of two words and a carry.
pub fn add(a: u32, b: u32, carry: bool) -> Outcome
    ensures is { result ≡ added a b carry }
    ensures exact { SumExact }
{
    let (value, carried) = a.carrying_add(b, carry);
    let biased = u64::from(bias(a)) + u64::from(bias(b)) + u64::from(carry);
    Outcome {
        value,
        carry: carried,
        overflow: biased < 0x8000_0000 || biased >= 0x1_8000_0000,
    }
}

//! Words of 32 bits: the arithmetic of the instructions, as pure functions.
#![tactic(auto)]

pub mod arithmetic;
pub mod condition;
pub mod product;
pub mod shift;
pub mod sign;

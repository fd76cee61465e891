//! The assembler text of instructions.
#![tactic(auto)]

mod mnemonic;
mod operand;
mod text;

pub use text::{Text, Word};

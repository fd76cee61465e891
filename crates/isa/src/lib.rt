//! The instruction set of the readout core: words read as instructions, and instructions written as words.
#![tactic(auto)]

mod decoding;
mod encoding;
mod fields;
pub mod instruction;
mod opcodes;
mod table;
mod valid;

pub use decoding::decode;
pub use encoding::encode;
pub use opcodes::Access;

//! The assembler text of an instruction and of a word.
use crate::mnemonic::Mnemonic;
use crate::operand::operands;
use isa::instruction::Instruction;
use std::fmt;

/// An instruction, whose text is its mnemonic and its operands: `add. r3,r4,r5`.
#[derive(Clone, Copy)]
pub struct Text(pub Instruction);

impl fmt::Display for Text {
    fn fmt<W: fmt::Write>(&self, f: &mut fmt::Formatter<W>) -> fmt::Result {
        write!(f, "{}", Mnemonic::of(self.0))?;
        operands(f, self.0)
    }
}

/// A word, whose text is its instruction's, or `illegal`.
#[derive(Clone, Copy)]
pub struct Word(pub u32);

impl fmt::Display for Word {
    fn fmt<W: fmt::Write>(&self, f: &mut fmt::Formatter<W>) -> fmt::Result {
        match isa::decode(self.0) {
            Some(instruction) => write!(f, "{}", Text(instruction)),
            None => write!(f, "illegal"),
        }
    }
}

//! Data in words: instructions where whole words stand, and single bytes elsewhere.
use crate::count::Count;
use assembly::Word;
use std::fmt;

/// A word of memory: its real address, its value, and its instruction or `illegal`.
#[derive(Clone, Copy)]
pub struct WordLine {
    pub address: u64,
    pub word: u32,
}

impl fmt::Display for WordLine {
    fn fmt<W: fmt::Write>(&self, f: &mut fmt::Formatter<W>) -> fmt::Result {
        let WordLine { address, word } = *self;
        let text = Word(word);
        write!(f, "  0x{address:09X}  {word:08X}  {text}")
    }
}

/// Bytes from a real address on: a line that says where and how many, then a line for each word that lies whole in
/// them, and one for each byte that does not.
#[derive(Clone, Copy)]
pub struct Data<'a>(pub image::Data<'a>);

impl fmt::Display for Data<'_> {
    fn fmt<W: fmt::Write>(&self, f: &mut fmt::Formatter<W>) -> fmt::Result {
        let bytes = self.0.bytes;
        let address = self.0.real_address();
        let count = Count {
            number: bytes.len(),
            noun: "byte",
        };
        write!(f, "data at 0x{address:09X}, {count}")?;
        let unaligned = (address.wrapping_neg() % 4) as usize;
        let (before, rest) = bytes.split_at(unaligned.min(bytes.len()));
        let (words, after) = rest.as_chunks::<4>();
        write_bytes(f, address, before)?;
        write_words(f, address + before.len() as u64, words)?;
        write_bytes(f, address + (bytes.len() - after.len()) as u64, after)
    }
}

// A line for each word, from an address on.
fn write_words<W: fmt::Write>(
    f: &mut fmt::Formatter<W>,
    address: u64,
    words: &[[u8; 4]],
) -> fmt::Result {
    for (address, bytes) in (address..).step_by(4).zip(words) {
        let word = u32::from_be_bytes(*bytes);
        write!(f, "\n{}", WordLine { address, word })?;
    }
    Ok(())
}

// A line for each byte, from an address on.
fn write_bytes<W: fmt::Write>(
    f: &mut fmt::Formatter<W>,
    address: u64,
    bytes: &[u8],
) -> fmt::Result {
    for (address, byte) in (address..).zip(bytes) {
        write!(f, "\n  0x{address:09X}  {byte:02X}")?;
    }
    Ok(())
}

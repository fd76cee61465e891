//! Bytes written as hexadecimal text.
#![tactic(auto)]

ghost use Rattle.std.specs.Prelude.{◌≡◌, ◌≤◌, length, IfOk};
ghost use Rattle.hexadecimal.specs.Text.{symbol_of, digit_of, unknown, digits, pairs, unless, Small, Told};
ghost use Rattle.hexadecimal.specs.declared.Fault.TheVariants.{NoMemory};

use std::alloc::{AllocError, Global};
use std::error::Error;
use std::fmt;

/// Why a text gives no bytes.
#[derive(Clone, Copy, PartialEq, Eq, Debug)]
pub enum Fault {
    /// A character is neither a hexadecimal digit nor white space: the first such one has this offset.
    NoDigit { offset: usize },
    /// The number of digits is odd, so that half a byte is left at the end.
    HalfByte,
    /// There is no memory for the bytes.
    NoMemory,
}

impl fmt::Display for Fault {
    fn fmt<W: fmt::Write>(&self, f: &mut fmt::Formatter<W>) -> fmt::Result {
        match self {
            Fault::NoDigit { offset } => write!(f, "no hexadecimal digit at offset {offset}"),
            Fault::HalfByte => write!(f, "half a byte at the end"),
            Fault::NoMemory => write!(f, "no memory"),
        }
    }
}

impl Error for Fault {}

impl From<AllocError> for Fault {
    ghost from_gives = { λ _ fault. fault ≡ NoMemory };

    fn from(_error: AllocError) -> Self {
        Self::NoMemory
    }
}

// What a character of the text is.
#[derive(Clone, Copy)]
enum Symbol {
    // A digit, by its value.
    Digit(u8),
    Space,
    Other,
}

impl Symbol {
    fn digit(self) -> Option<u8>
        ensures { result ≡ digit_of self }
    {
        match self {
            Symbol::Digit(value) => Some(value),
            Symbol::Space | Symbol::Other => None,
        }
    }
}

fn classify(character: u8) -> Symbol
    ensures value { result ≡ symbol_of character }
    ensures small { Small result }
{
    match character {
        // Ahead of the digits, since a text may have more spaces than anything else.
        b' ' => Symbol::Space,
        b'0'..=b'9' => Symbol::Digit(character - b'0'),
        b'A'..=b'F' => Symbol::Digit(character - b'A' + 10),
        b'a'..=b'f' => Symbol::Digit(character - b'a' + 10),
        space if space.is_ascii_whitespace() => Symbol::Space,
        _ => Symbol::Other,
    }
}

// The number of digits in a text that has digits and white space alone.
fn count(text: &[u8]) -> Result<usize, Fault>
    ensures { result ≡ unless (unknown text.now) (Ok (length (digits text.now))) }
{
    let mut number = 0;
    for (offset, character) in text.iter().enumerate() {
        match classify(*character) {
            Symbol::Digit(_) => number += 1,
            Symbol::Space => {}
            Symbol::Other => return Err(Fault::NoDigit { offset }),
        }
    }
    Ok(number)
}

// The bytes that the digits of a text are in pairs, where it has at most so many digits. Half a byte at the end is dropped.
fn gather(heap: Global, text: &[u8], number: usize) -> Result<Vec<u8>, AllocError>
    requires { length (digits text.now) ≤ number }
    ensures { IfOk result (λ v. v.items ≡ pairs (digits text.now)) }
{
    let mut bytes = Vec::new(heap);
    let mut first = None;
    // No more than the digits are asked for, so that what stands behind the last is not gone over again.
    for digit in text
        .iter()
        .filter_map(|character| classify(*character).digit())
        .take(number)
    {
        first = match first {
            None => Some(digit),
            Some(high) => {
                bytes.push(high * 16 + digit)?;
                None
            }
        };
    }
    Ok(bytes)
}

/// The bytes that a text of hexadecimal digits, upper or lower case, stands for, two digits to a byte. White space
/// (space, tab, line feed, form feed, carriage return) is free, also between the two digits of a byte.
pub fn parse(heap: Global, text: &[u8]) -> Result<Vec<u8>, Fault>
    ensures { Told result text.now }
{
    // Counted before they are kept, so that no memory is taken for a text that is refused.
    let number = count(text)?;
    if number % 2 == 1 {
        return Err(Fault::HalfByte);
    }
    Ok(gather(heap, text, number)?)
}

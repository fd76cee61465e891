//! Why an image is refused, and where.
ghost use Rattle.std.specs.Prelude.{◌≡◌};
ghost use Rattle.image.specs.Reasons.{number_of, refusal_at};

use std::error::Error;
use std::fmt;

/// Why an image is refused.
#[derive(Clone, Copy, PartialEq, Eq, Debug)]
pub enum Reason {
    /// The image has no byte, or more than 65,535.
    Size = 1,
    /// The version byte is not 1.
    Version = 2,
    /// Fewer bytes are left than the two of a length, or than the length says.
    Truncated = 3,
    /// The kind is unknown, or the length is none that its kind has.
    Form = 4,
    /// A value is out of its range.
    Range = 5,
    /// The bus denies the write of a byte of data. The reader has no bus and never gives it: it is for what loads an image.
    Denied = 6,
    /// Something stands after the start, or the image ends without a start.
    Order = 7,
}

impl Reason {
    /// The number by which the reason is known.
    pub fn number(self) -> u8
        ensures { result ≡ number_of self }
    {
        self as u8
    }

    /// The refusal for this reason at an offset.
    pub fn at(self, offset: usize) -> Refusal
        ensures { result ≡ refusal_at self offset }
    {
        Refusal {
            reason: self,
            offset,
        }
    }
}

/// Why an image is refused, and where: at the first byte of the length of the record that is at fault, at the image's
/// length where the fault is its end, or at 0 where the whole image is at fault.
#[derive(Clone, Copy, PartialEq, Eq, Debug)]
pub struct Refusal {
    pub reason: Reason,
    pub offset: usize,
}

impl fmt::Display for Reason {
    fn fmt<W: fmt::Write>(&self, f: &mut fmt::Formatter<W>) -> fmt::Result {
        f.write_str(match self {
            Reason::Size => "image empty or longer than 65535 bytes",
            Reason::Version => "version other than 1",
            Reason::Truncated => "record longer than the image",
            Reason::Form => "unknown kind or wrong length of a record",
            Reason::Range => "value out of range",
            Reason::Denied => "byte of data that the bus denies",
            Reason::Order => "start missing or not last",
        })
    }
}

impl fmt::Display for Refusal {
    fn fmt<W: fmt::Write>(&self, f: &mut fmt::Formatter<W>) -> fmt::Result {
        let number = self.reason.number();
        let offset = self.offset;
        let reason = self.reason;
        write!(f, "refusal {number} at offset {offset}: {reason}")
    }
}

impl Error for Refusal {}

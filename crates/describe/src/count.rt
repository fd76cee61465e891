//! How many there are of something.
use std::fmt;

/// A number of things, which have a name: `1 byte`, `8 bytes`.
#[derive(Clone, Copy)]
pub struct Count {
    pub number: usize,
    pub noun: &'static str,
}

impl fmt::Display for Count {
    fn fmt<W: fmt::Write>(&self, f: &mut fmt::Formatter<W>) -> fmt::Result {
        let Count { number, noun } = *self;
        let plural = if number == 1 { "" } else { "s" };
        write!(f, "{number} {noun}{plural}")
    }
}

//! A record of an image in words.
use crate::data::Data;
use crate::entry::Entry;
use crate::start::Start;
use image::Record;
use std::fmt;

/// A record, whose text is that of what it holds.
#[derive(Clone, Copy)]
pub struct Described<'a>(pub Record<'a>);

impl fmt::Display for Described<'_> {
    fn fmt<W: fmt::Write>(&self, f: &mut fmt::Formatter<W>) -> fmt::Result {
        match self.0 {
            Record::Entry(entry) => write!(f, "{}", Entry(entry)),
            Record::Data(data) => write!(f, "{}", Data(data)),
            Record::Start(start) => write!(f, "{}", Start(start)),
        }
    }
}

//! The records of an image in a loop.
ghost use Rattle.std.specs.Prelude.{◌≡◌, Some};
ghost use Rattle.std.specs.Iterator.{at_most};
ghost use Rattle.image.specs.Readers.{Turn, turns_left};

use crate::reader::Reader;
use crate::record::Record;
use crate::refusal::Refusal;

/// The records that a reader has yet to hand out, one after the other, and last the refusal where there is one.
#[derive(Drop)]
pub struct Records<'a> {
    // None once the end or a refusal has come.
    reader: Option<Reader<'a>>,
}

impl<'a> IntoIterator for Reader<'a> {
    type Item = Result<Record<'a>, Refusal>;

    type IntoIter = Records<'a>;

    ghost into_iter_gives = { λ reader records. records.reader ≡ Some reader };

    fn into_iter(self) -> Records<'a> {
        Records { reader: Some(self) }
    }
}

impl<'a> Iterator for Records<'a> {
    type Item = Result<Record<'a>, Refusal>;

    ghost next_gives = { Turn };

    ghost remaining = { λ records. at_most (turns_left records) };

    fn next(&mut self) -> Option<Result<Record<'a>, Refusal>> {
        let seen = self.reader.as_mut()?.next().transpose();
        if !matches!(seen, Some(Ok(_))) {
            self.reader = None;
        }
        seen
    }
}

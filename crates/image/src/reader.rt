//! The records of an image, one by one.
ghost use Rattle.std.specs.Prelude.{◌≡◌};
ghost use Rattle.image.specs.Reading.{begin, offset_of, step, records, counted};
ghost use Rattle.image.specs.Format.{Law};
ghost use Rattle.image.specs.Readers.{place, remaining, opened, fresh, seen, answered, told, Falls, Ranges};

use crate::parse::parsed;
use crate::record::Record;
use crate::refusal::{Reason, Refusal};

/// A place in an image, from which its records are handed out one by one.
#[derive(Drop)]
pub struct Reader<'a> {
    rest: &'a [u8],
    // the length of the whole image
    size: usize,
    // whether the last record was the start
    started: bool,
}

// A record and the bytes after it.
#[derive(Clone, Copy)]
struct Found<'a> {
    record: Record<'a>,
    after: &'a [u8],
}

impl<'a> Reader<'a> {
    /// A reader at the first record of an image.
    pub fn open(image: &'a [u8]) -> Result<Reader<'a>, Refusal>
        ensures begins { opened result ≡ begin image.now }
        ensures whole { fresh result ≡ records image.now }
    {
        match image {
            [version, rest @ ..] if image.len() <= 65535 => {
                if *version != 1 {
                    return Err(Reason::Version.at(0));
                }
                Ok(Reader {
                    rest,
                    size: image.len(),
                    started: false,
                })
            }
            _ => Err(Reason::Size.at(0)),
        }
    }

    /// Where the next record begins in the image.
    pub fn offset(&self) -> usize
        ensures { result ≡ offset_of (place self.now) }
    {
        self.size.saturating_sub(self.rest.len())
    }

    /// The next record, or `None` at the end of the image. After a refusal the reader stands where it stood.
    pub fn next(&mut self) -> Result<Option<Record<'a>>, Refusal>
        ensures steps { answered result self.new ≡ step (place self.old) }
        ensures whole { told result (remaining self.new) ≡ remaining self.old }
        ensures falls { Falls result self.old self.new }
        ensures ranges { Ranges result }
    {
        let offset = self.offset();
        let found = self.peek().map_err(|reason| reason.at(offset))?;
        let Some(Found { record, after }) = found else {
            return Ok(None);
        };
        self.rest = after;
        self.started = record.is_start();
        Ok(Some(record))
    }

    // The next record and the bytes after it, or `None` at the end of the image.
    fn peek(&self) -> Result<Option<Found<'a>>, Reason>
        ensures { seen result self.now ≡ step (place self.now) }
    {
        let bytes = self.rest;
        match bytes {
            [] if self.started => Ok(None),
            [] => Err(Reason::Order),
            _ if self.started => Err(Reason::Order),
            [_] => Err(Reason::Truncated),
            [high, low, rest @ ..] => {
                let length = usize::from(u16::from_be_bytes([*high, *low]));
                let (front, after) = rest.split_at_checked(length).ok_or(Reason::Truncated)?;
                let record = parsed(front)?;
                Ok(Some(Found { record, after }))
            }
        }
    }
}

/// Reads a whole image: the number of its records, or the first refusal.
#[tactic(auto, using(crate::proofs::Law::law))]
pub fn check(image: &[u8]) -> Result<usize, Refusal>
    ensures counts { result ≡ counted (records image.now) }
    ensures lawful { Law }
{
    // Counted by hand: the iterator's `count` would count a refusal too, and the closure of a fold knows no bound of the count.
    let mut count = 0;
    for record in Reader::open(image)? {
        record?;
        count += 1;
    }
    Ok(count)
}

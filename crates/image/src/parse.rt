//! One record, from the bytes that its length counts.
ghost use Rattle.std.specs.Prelude.{◌≡◌};
ghost use Rattle.image.specs.Records.{entry_of, data_of, start_of, record_of};
ghost use Rattle.image.specs.Values.{meaning};

use crate::record::{Data, PageEntry, Record, Start};
use crate::refusal::Reason;

// An image is read without a core, a bus or a page table: the reader stands on no other crate, so that the bits and the
// size below stand here too.

// The bits of its three words that a page entry keeps.
const WORD_0: u32 = 0xFFFF_FFF0;

const WORD_1: u32 = 0xFFFF_FC0F;

const WORD_2: u32 = 0xFFBF;

// The bits that the MSR has.
const MSR: u32 = 0x0002_D230;

// The bytes of a frame.
const FRAME: usize = 1024;

fn entry(body: &[u8]) -> Result<Record<'_>, Reason>
    ensures { meaning result ≡ entry_of body.now }
{
    let [number, tid, words @ ..] = body else {
        return Err(Reason::Form);
    };
    let ([word0, word1, word2], []) = words.as_chunks::<4>() else {
        return Err(Reason::Form);
    };
    if *number > 63 {
        return Err(Reason::Range);
    }
    Ok(Record::Entry(PageEntry {
        number: *number,
        tid: *tid,
        word0: u32::from_be_bytes(*word0) & WORD_0,
        word1: u32::from_be_bytes(*word1) & WORD_1,
        word2: u32::from_be_bytes(*word2) & WORD_2,
    }))
}

fn data(body: &[u8]) -> Result<Record<'_>, Reason>
    ensures { meaning result ≡ data_of body.now }
{
    match body {
        [erpn, a, b, c, d, bytes @ ..] if (1..=FRAME).contains(&bytes.len()) => {
            let address = u32::from_be_bytes([*a, *b, *c, *d]);
            if *erpn > 15 || address as usize % FRAME + bytes.len() > FRAME {
                return Err(Reason::Range);
            }
            Ok(Record::Data(Data {
                erpn: *erpn,
                address,
                bytes,
            }))
        }
        _ => Err(Reason::Form),
    }
}

fn start(body: &[u8]) -> Result<Record<'_>, Reason>
    ensures { meaning result ≡ start_of body.now }
{
    let ([counter, msr], []) = body.as_chunks::<4>() else {
        return Err(Reason::Form);
    };
    let counter = u32::from_be_bytes(*counter);
    let msr = u32::from_be_bytes(*msr);
    if counter % 4 != 0 || msr & MSR != msr {
        return Err(Reason::Range);
    }
    Ok(Record::Start(Start { counter, msr }))
}

/// The record whose kind and body these bytes are.
pub(crate) fn parsed(bytes: &[u8]) -> Result<Record<'_>, Reason>
    ensures { meaning result ≡ record_of bytes.now }
{
    match bytes {
        [1, body @ ..] => entry(body),
        [2, body @ ..] => data(body),
        [3, body @ ..] => start(body),
        _ => Err(Reason::Form),
    }
}

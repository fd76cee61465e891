//! The data of an image, written to a bus and read back.
use bus::Bus;
use console::Verdict;
use describe::{Count, WordLine};
use image::{Data, Reader, Record};
use placing::{Denied, place};
use std::io;

/// What came of writing data to a bus: how many bytes it took, and whether it took them all.
#[derive(Clone, Copy, Default)]
pub(crate) struct Loaded {
    pub bytes: usize,
    pub verdict: Verdict,
}

impl Loaded {
    // What came of this and then of more.
    fn and(self, more: Loaded) -> Loaded {
        Loaded {
            bytes: self.bytes.saturating_add(more.bytes),
            verdict: self.verdict.max(more.verdict),
        }
    }
}

/// Writes the data of an image to a bus, record by record, and prints what the bus then holds there, up to the first
/// fault of the image.
pub(crate) fn load<B: Bus>(rt: &impl Print, bus: &mut B, reader: Reader) -> io::Result<Loaded> {
    let mut loaded = Loaded::default();
    for found in reader {
        let more = match found {
            Ok(record) => show_record(rt, bus, record)?,
            Err(refusal) => Loaded {
                bytes: 0,
                verdict: console::refuse(rt, refusal)?,
            },
        };
        loaded = loaded.and(more);
    }
    Ok(loaded)
}

// Writes the bytes of a record of data. The other records are for a core, and a board has none.
fn show_record<B: Bus>(rt: &impl Print, bus: &mut B, record: Record) -> io::Result<Loaded> {
    match record {
        Record::Data(data) => show_data(rt, bus, data),
        Record::Entry(_) | Record::Start(_) => Ok(Loaded::default()),
    }
}

fn show_data<B: Bus>(rt: &impl Print, bus: &mut B, data: Data) -> io::Result<Loaded> {
    let address = data.real_address();
    let count = Count {
        number: data.bytes.len(),
        noun: "byte",
    };
    println!(rt; "data at 0x{address:09X}, {count}")?;
    let loaded = match place(bus, address, data.bytes) {
        Ok(()) => Loaded {
            bytes: data.bytes.len(),
            verdict: Verdict::Sound,
        },
        Err(denied) => {
            println!(rt; "  write at {denied}")?;
            Loaded {
                bytes: (denied.address - address) as usize,
                verdict: Verdict::Faulty,
            }
        }
    };
    read_back(rt, bus, data)?;
    Ok(loaded)
}

// Reads each word that has one of the bytes, and prints it with its instruction.
fn read_back<B: Bus>(rt: &impl Print, bus: &B, data: Data) -> io::Result<()> {
    let begin = data.real_address();
    let end = begin + data.bytes.len() as u64;
    for address in (begin - begin % 4..end).step_by(4) {
        match read_word(bus, address) {
            Ok(word) => println!(rt; "{}", WordLine { address, word })?,
            Err(denied) => println!(rt; "  read at {denied}")?,
        }
    }
    Ok(())
}

/// The word at an address of a bus.
pub(crate) fn read_word<B: Bus>(bus: &B, address: u64) -> Result<u32, Denied> {
    bus.read(address, 4)
        .map_err(|code| Denied { address, code })
}

//! A firmware image, loaded into a core and its bus.
#![tactic(auto)]

ghost use Rattle.std.specs.Prelude.{◌≡◌, ℕ, ◌+◌, ◌*◌, ◌%◌, ◌^◌, ◌<◌, true, length, is_ok};
ghost use Rattle.image.specs.Readers.{remaining};
ghost use Rattle.image.specs.Records.{InRange};
ghost use Rattle.image.specs.Values.{item};
ghost use Rattle.core465.specs.Machine.{MachineKept};
ghost use Rattle.step.specs.Steps.{state_of};
ghost use Rattle.loader.specs.Law.{LoadingLaw};
ghost use Rattle.loader.specs.Loading.{serves, accepts, screened, checked, entry_of, applied, Loaded, loaded_by, loaded};

use bus::{Bus, Direction};
use core465::Core;
use image::{Data, PageEntry, Reader, Reason, Record, Refusal, Start};
use pages::Entry;
use placing::place;

/// Whether the bus serves the write of each byte of some data.
fn serves<B: Bus>(bus: &B, data: Data) -> bool
    ensures { result ≡ serves (B.Bus.model bus.now) («data».entry.erpn * 2 ^ 32 + «data».entry.address) «data».entry.bytes.now }
{
    let begin = data.real_address();
    let end = begin + data.bytes.len() as u64;
    (begin..end).all(|address| bus.denial(Direction::Write, address, 1).is_none())
}

/// Whether the bus takes the data of a part of an image, a record, if it has data.
fn accepts<B: Bus>(bus: &B, part: Record) -> bool
    ensures { result ≡ accepts (B.Bus.model bus.now) (item part.entry) }
{
    match part {
        Record::Data(data) => serves(bus, data),
        Record::Entry(_) | Record::Start(_) => true,
    }
}

/// Checks an image against a bus: the first refusal, record by record.
fn screen<B: Bus>(bus: &B, image: &[u8]) -> Result<(), Refusal>
    ensures { result ≡ checked (screened (B.Bus.model bus.now) image.now) }
{
    let mut reader = Reader::open(image)?;
    // No `for`: a record that is denied is told by its offset, which the reader knows before it hands the record out.
    loop {
        let offset = reader.offset();
        let Some(part) = reader.next()? else {
            return Ok(());
        };
        if !accepts(bus, part) {
            return Err(Reason::Denied.at(offset));
        }
    }
}

/// A page entry of an image, as the table holds it.
// A function and no `From`: an impl must stand with one of the two types, and neither crate knows the other.
fn entry_of(page: PageEntry) -> Entry
    ensures { result ≡ entry_of page }
{
    Entry {
        tid: u32::from(page.tid),
        word0: page.word0,
        word1: page.word1,
        word2: page.word2,
    }
}

/// Loads a record.
fn apply<B: Bus>(core: &mut Core, bus: &mut B, part: Record)
    requires { InRange (item part) }
    ensures does { state_of core.new (B.Bus.model bus.new) ≡ applied (item part.entry) (state_of core.old (B.Bus.model bus.old)) }
    ensures keeps { MachineKept core.old → MachineKept core.new }
{
    match part {
        Record::Entry(page) => core.set_entry(u32::from(page.number), entry_of(page)),
        Record::Data(data) => {
            // The image was checked against the bus, so that no denial can come.
            let _ = place(bus, data.real_address(), data.bytes);
        }
        Record::Start(Start { counter, msr }) => {
            core.set_counter(counter);
            core.set_msr_word(msr);
        }
    }
}

/// Loads the records that a reader has yet to hand out, of an image that was checked.
fn apply_all<B: Bus>(core: &mut Core, bus: &mut B, mut reader: Reader)
    requires { is_ok (remaining reader) ≡ true }
    ensures does { state_of core.new (B.Bus.model bus.new) ≡ (loaded_by (remaining reader.entry) (state_of core.old (B.Bus.model bus.old))).state }
    ensures keeps { MachineKept core.old → MachineKept core.new }
{
    // No `for`: it would have to say what comes of a refusal, and none is left in an image that was checked.
    while let Ok(Some(part)) = reader.next() {
        apply(core, bus, part);
    }
}

/// Loads an image: it is checked whole, and where it is refused nothing changes. Else its entries and bytes, its counter and
/// its MSR are set, and nothing else.
// A core and a bus are lent apart, and not as one value: a hold lends its core and not its bus.
pub fn load<B: Bus>(core: &mut Core, bus: &mut B, image: &[u8]) -> Result<(), Refusal>
    ensures does { ◌≡◌ {A = Loaded} (record { answer = result; state = state_of core.new (B.Bus.model bus.new) }) (loaded image.now (state_of core.old (B.Bus.model bus.old))) }
    ensures keeps { MachineKept core.new }
    ensures lawful { LoadingLaw }
{
    // Looked at, so that what every core keeps is known of this one, refused or not.
    let _ = core.counter();
    screen(bus, image)?;
    apply_all(core, bus, Reader::open(image)?);
    Ok(())
}

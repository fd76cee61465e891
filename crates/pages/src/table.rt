// The table of the 64 page entries.
ghost use Rattle.std.specs.Prelude.{◌≡◌, ℕ, ◌<◌, length, replicate, IfSome, is_ok, nat_lt};
ghost use Rattle.pages.specs.Entries.{blank, Kept, AllKept};
ghost use Rattle.pages.specs.Matching.{found, Lowest};
ghost use Rattle.pages.specs.Translating.{translate, InReal};
ghost use Rattle.pages.specs.Tables.{with_entry, selected, written};

use crate::entry::{Entry, Word};
use crate::matching::VirtualAddress;
use crate::translation::{PageFault, Right};
use std::error::Error;
use std::fmt;

/// There are only 64 entries.
#[derive(Clone, Copy, PartialEq, Eq, Debug)]
pub struct NoSuchEntry;

impl fmt::Display for NoSuchEntry {
    fn fmt<W: fmt::Write>(&self, f: &mut fmt::Formatter<W>) -> fmt::Result {
        write!(f, "there are only the page entries 0 to 63")
    }
}

impl Error for NoSuchEntry {}

/// The page entries, by number.
#[derive(Drop)]
pub struct Pages {
    // Anyone may build a table of any entries; so the methods say that all are kept, and no ghost field does.
    pub entries: [Entry; 64],
}

impl Pages {
    /// A table of entries that are zero, so that no address matches any.
    pub fn empty() -> Pages
        ensures value { result.entries ≡ replicate 64 blank }
        ensures kept { AllKept result.entries }
    {
        // Written out: of a derived `Default` the proof that its 64 entries are zero does not close.
        Pages {
            entries: [Entry::default(); 64],
        }
    }

    /// The number of the first entry that the address matches.
    pub fn search(&self, address: VirtualAddress) -> Option<u32>
        ensures value { result ≡ found self.now.entries address }
        ensures lowest { Lowest self.now.entries address result }
        ensures number { IfSome result (λ n. n < 64) }
    {
        let number = self
            .entries
            .iter()
            .position(|entry| entry.matches(&address))?;
        Some(number as u32)
    }

    /// The real address of an access to the address, which needs the right.
    #[tactic(auto, unfolding(crate::specs::Translating::translate))]
    pub fn translate(&self, address: VirtualAddress, right: Right) -> Result<u64, PageFault>
        ensures value { result ≡ translate self.now.entries address right }
        ensures real { InReal result }
    {
        let number = self.search(address).ok_or(PageFault::Miss)?;
        self.entries[number as usize].through(address.effective, right)
    }

    /// The entry that the low six bits of `selector` name, as tlbre reads it.
    pub fn entry(&self, selector: u32) -> Entry
        ensures value { result ≡ selected self.now.entries selector }
        ensures kept { AllKept self.now.entries → Kept result }
    {
        self.entries[(selector % 64) as usize]
    }

    /// Replaces the entry of that number, less the bits that entries do not keep. Refuses 64 and above.
    #[tactic(auto, unfolding(crate::specs::Tables::with_entry))]
    pub fn put(&mut self, number: u32, entry: Entry) -> Result<(), NoSuchEntry>
        ensures answer { is_ok result ≡ nat_lt number 64 }
        ensures value { self.new.entries ≡ with_entry self.old.entries number entry }
        ensures kept { AllKept self.old.entries → AllKept self.new.entries }
        ensures count { length self.new.entries ≡ 64 }
    {
        if number >= 64 {
            return Err(NoSuchEntry);
        }
        self.entries[number as usize] = entry.kept();
        Ok(())
    }

    /// Rewrites a word of the entry that the low six bits of `selector` name, and with its first word its TID, as tlbwe
    /// does. Bits that entries do not keep are dropped.
    #[tactic(auto, unfolding(crate::specs::Tables::written))]
    pub fn write(&mut self, selector: u32, word: Word, value: u32, tid: u32)
        ensures value { self.new.entries ≡ written self.old.entries selector word value tid }
        ensures kept { AllKept self.old.entries → AllKept self.new.entries }
        ensures count { length self.new.entries ≡ 64 }
    {
        let number = (selector % 64) as usize;
        self.entries[number].rewrite(word, value, tid);
    }
}

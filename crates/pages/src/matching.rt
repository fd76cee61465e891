// Which entry an address matches.
ghost use Rattle.std.specs.Prelude.{◌≡◌, ℕ, ◌*◌, ◌^◌, ◌<◌, true};
ghost use Rattle.pages.specs.Matching.{has, size_of, is_page, page_bytes, agrees, matches};

use crate::entry::Entry;

/// What the search for an entry is asked: an effective address, in the address space and the process that it is used in.
#[derive(Clone, Copy, PartialEq, Eq, Debug)]
pub struct VirtualAddress {
    /// The address space, 0 or 1.
    pub space: bool,
    /// The process.
    pub pid: u32,
    /// The effective address.
    pub effective: u32,
}

impl Entry {
    /// The SIZE field.
    fn size(&self) -> u32
        ensures { (result ≡ size_of self.now) × (result < 16) }
    {
        self.word0 / 16 % 16
    }

    /// The number of bytes in the entry's page.
    #[tactic(auto, using(crate::proofs::Sizes::page_shifted, crate::proofs::Sizes::page_positive))]
    pub(crate) fn page_bytes(&self) -> u64
        ensures { (result ≡ page_bytes self.now) × (0 < result) }
    {
        1024 << (2 * self.size())
    }

    /// Whether SIZE is that of a page.
    fn is_page(&self) -> bool
        ensures { result ≡ is_page self.now }
    {
        matches!(self.size(), 0..=5 | 7 | 9)
    }

    /// Whether the address lies in the entry's page.
    fn agrees(&self, effective: u32) -> bool
        ensures { result ≡ agrees self.now effective }
    {
        let bytes = self.page_bytes();
        u64::from(effective) / bytes == u64::from(self.word0) / bytes
    }

    /// Whether the address matches the entry.
    pub(crate) fn matches(&self, address: &VirtualAddress) -> bool
        ensures { result ≡ matches self.now address.now }
    {
        self.word0 & 0x200 != 0
            && self.is_page()
            && (self.word0 & 0x100 != 0) == address.space
            && (self.tid == 0 || self.tid == address.pid)
            && self.agrees(address.effective)
    }
}

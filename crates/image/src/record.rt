//! What the records of an image hold.
ghost use Rattle.std.specs.Prelude.{◌≡◌, ◌+◌, ◌*◌, ◌^◌, ◌<◌};
ghost use Rattle.image.specs.Records.{is_start};
ghost use Rattle.image.specs.Values.{item};

/// A page entry as an image gives it. The words hold only bits that an entry keeps.
#[derive(Clone, Copy, PartialEq, Eq, Debug)]
pub struct PageEntry {
    /// Which of the 64 entries it is.
    pub number: u8,
    /// The identifier of the process that the page belongs to, or 0.
    pub tid: u8,
    pub word0: u32,
    pub word1: u32,
    pub word2: u32,
}

/// Bytes, a part of the image, that go into the memory from a real address on.
#[derive(Clone, Copy, PartialEq, Eq, Debug)]
pub struct Data<'a> {
    /// The upper four bits of the real address.
    pub erpn: u8,
    /// The lower 32 bits of the real address.
    pub address: u32,
    pub bytes: &'a [u8],
}

impl Data<'_> {
    /// The real address of the first byte.
    pub fn real_address(&self) -> u64
        ensures value { result ≡ self.now.erpn * 2 ^ 32 + self.now.address }
        ensures below { result < 2 ^ 40 }
    {
        real_address(self.erpn, self.address)
    }
}

/// Where the core starts, and in which state.
#[derive(Clone, Copy, PartialEq, Eq, Debug)]
pub struct Start {
    pub counter: u32,
    pub msr: u32,
}

/// A record of an image.
#[derive(Clone, Copy, PartialEq, Eq, Debug)]
pub enum Record<'a> {
    /// Sets a page entry.
    Entry(PageEntry),
    /// Puts bytes into the memory.
    Data(Data<'a>),
    /// Starts the core.
    Start(Start),
}

impl Record<'_> {
    /// Whether the record starts the core.
    pub fn is_start(&self) -> bool
        ensures { result ≡ is_start (item self.now) }
    {
        matches!(self, Record::Start(_))
    }
}

/// The real address whose upper bits are `erpn` and whose lower 32 bits are `address`.
pub fn real_address(erpn: u8, address: u32) -> u64
    ensures value { result ≡ erpn * 2 ^ 32 + address }
    ensures below { result < 2 ^ 40 }
{
    u64::from(erpn) * 0x1_0000_0000 + u64::from(address)
}

// What an entry makes of an address.
ghost use Rattle.std.specs.Prelude.{◌≡◌, ℕ, ◌*◌, ◌^◌, ◌<◌, true};
ghost use Rattle.pages.specs.Matching.{is_page};
ghost use Rattle.pages.specs.Translating.{right, grants, real_of, through, InReal};

use crate::entry::Entry;
use std::error::Error;
use std::fmt;

/// What an address is used for.
#[derive(Clone, Copy, PartialEq, Eq, Debug)]
pub enum Access {
    Fetch,
    Load,
    Store,
}

/// The right that an access needs of the entry that it matches.
#[derive(Clone, Copy, PartialEq, Eq, Debug)]
pub struct Right {
    /// Whether the access is made in user state.
    pub user: bool,
    pub access: Access,
}

/// Why an access gets no real address.
#[derive(Clone, Copy, PartialEq, Eq, Debug)]
pub enum PageFault {
    /// No entry matches.
    Miss,
    /// The entry that matches does not grant the access.
    Denied,
}

impl fmt::Display for PageFault {
    fn fmt<W: fmt::Write>(&self, f: &mut fmt::Formatter<W>) -> fmt::Result {
        match self {
            PageFault::Miss => write!(f, "no page entry matches"),
            PageFault::Denied => write!(f, "the page does not grant the access"),
        }
    }
}

impl Error for PageFault {}

impl Right {
    /// The bit of an entry's third word that grants it.
    fn bit(self) -> u32
        ensures { result ≡ right self }
    {
        match self.access {
            Access::Fetch => if self.user { 0x20 } else { 0x04 },
            Access::Load => if self.user { 0x08 } else { 0x01 },
            Access::Store => if self.user { 0x10 } else { 0x02 },
        }
    }
}

impl Entry {
    /// Whether the entry grants the right.
    fn grants(&self, right: Right) -> bool
        ensures { result ≡ grants self.now right }
    {
        self.word2 & right.bit() != 0
    }

    /// The real address of an address in the entry's page.
    #[tactic(auto, using(crate::proofs::Sizes::real_bound))]
    fn real(&self, effective: u32) -> u64
        requires { is_page self.now ≡ true }
        ensures { (result ≡ real_of self.now effective) × (result < 2 ^ 36) }
    {
        let bytes = self.page_bytes();
        let word1 = u64::from(self.word1);
        let page = word1 / bytes * bytes;
        word1 % 16 * 0x1_0000_0000 + (page + u64::from(effective) % bytes)
    }

    /// What the entry makes of an address that matches it.
    pub(crate) fn through(&self, effective: u32, right: Right) -> Result<u64, PageFault>
        requires { is_page self.now ≡ true }
        ensures value { result ≡ through self.now effective right }
        ensures real { InReal result }
    {
        if !self.grants(right) {
            return Err(PageFault::Denied);
        }
        Ok(self.real(effective))
    }
}

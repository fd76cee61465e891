//! The special purpose registers that only supervisor state knows.
ghost use Rattle.std.specs.Prelude.{◌≡◌, ℕ, ◌<◌};
ghost use Rattle.core465.specs.Hidden.{mmucr_word, mmucr_from, HiddenKept};
ghost use Rattle.core465.specs.Specials.{special_named, hidden_word, with_hidden};

use crate::hidden::{Hidden, Mmucr};
use cpu::registers::Msr;
use cpu::special::NoSuchRegister;

/// A special purpose register that only supervisor state knows.
#[derive(Clone, Copy, PartialEq, Eq, Debug)]
pub enum Special {
    Srr0,
    Srr1,
    Pid,
    Dear,
    Esr,
    Ivpr,
    Mmucr,
    /// SPRG0 to SPRG7.
    Sprg(u32),
    /// IVOR0 to IVOR15.
    Ivor(u32),
}

impl TryFrom<u32> for Special {
    type Error = NoSuchRegister;

    ghost try_from_gives = { λ number r. r ≡ special_named number };

    /// The register of a number.
    fn try_from(number: u32) -> Result<Special, NoSuchRegister> {
        match number {
            26 => Ok(Special::Srr0),
            27 => Ok(Special::Srr1),
            48 => Ok(Special::Pid),
            61 => Ok(Special::Dear),
            62 => Ok(Special::Esr),
            63 => Ok(Special::Ivpr),
            272..=279 => Ok(Special::Sprg(number - 272)),
            400..=415 => Ok(Special::Ivor(number - 400)),
            946 => Ok(Special::Mmucr),
            _ => Err(NoSuchRegister),
        }
    }
}

impl From<Mmucr> for u32 {
    ghost from_gives = { λ mmucr word. word ≡ mmucr_word mmucr };

    fn from(mmucr: Mmucr) -> u32 {
        u32::from(mmucr.sts) * 0x1_0000 + mmucr.stid % 256
    }
}

/// MMUCR from a word, whose other bits are dropped.
impl From<u32> for Mmucr {
    ghost from_gives = { λ word mmucr. mmucr ≡ mmucr_from word };

    fn from(word: u32) -> Mmucr {
        Mmucr {
            sts: word / 0x1_0000 % 2 == 1,
            stid: word % 256,
        }
    }
}

impl Hidden {
    /// A register's word; SPRG and IVOR by the low two and the low four bits of their number.
    pub(crate) fn word(&self, register: Special) -> u32
        ensures { result ≡ hidden_word register self.now }
    {
        match register {
            Special::Srr0 => self.saved.srr0,
            Special::Srr1 => u32::from(self.saved.srr1),
            Special::Pid => self.pid,
            Special::Dear => self.saved.dear,
            Special::Esr => self.saved.esr,
            Special::Ivpr => self.ivpr,
            Special::Mmucr => u32::from(self.mmucr),
            Special::Sprg(k) => self.sprg[(k % 4) as usize],
            Special::Ivor(k) => self.ivor[(k % 16) as usize],
        }
    }

    /// A word to a register, which keeps what it keeps.
    pub(crate) fn set(&mut self, register: Special, value: u32)
        ensures after { self.new ≡ with_hidden register value self.old }
        ensures kept { HiddenKept self.old → HiddenKept self.new }
    {
        match register {
            Special::Srr0 => self.saved.srr0 = value / 4 * 4,
            Special::Srr1 => self.saved.srr1 = Msr::from(value),
            Special::Pid => self.pid = value % 256,
            Special::Dear => self.saved.dear = value,
            Special::Esr => self.saved.esr = value & 0x0E80_0000,
            Special::Ivpr => self.ivpr = value / 0x1_0000 * 0x1_0000,
            Special::Mmucr => self.mmucr = Mmucr::from(value),
            Special::Sprg(k) => self.sprg[(k % 4) as usize] = value,
            Special::Ivor(k) => self.ivor[(k % 16) as usize] = value / 16 % 4096 * 16,
        }
    }
}

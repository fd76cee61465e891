//! The special purpose registers that both states know.
ghost use Rattle.std.specs.Prelude.{◌≡◌, ℕ, ◌<◌, length, Some, None};
ghost use Rattle.cpu.specs.Registers.{xer_word, xer_from, msr_word, msr_from};
ghost use Rattle.cpu.specs.Specials.{privileged_number, special_word, with_special};
ghost use Rattle.cpu.specs.Known.{Known};

use crate::registers::{Msr, Shown, Working, Xer};
use std::error::Error;
use std::fmt;

/// A number that names no register.
#[derive(Clone, Copy, PartialEq, Eq, Debug)]
pub struct NoSuchRegister;

impl fmt::Display for NoSuchRegister {
    fn fmt<W: fmt::Write>(&self, f: &mut fmt::Formatter<W>) -> fmt::Result {
        write!(f, "no register of this number")
    }
}

impl Error for NoSuchRegister {}

impl From<Xer> for u32 {
    ghost from_gives = { λ xer word. word ≡ xer_word xer };

    fn from(xer: Xer) -> u32 {
        u32::from(xer.so) * 0x8000_0000
            + u32::from(xer.ov) * 0x4000_0000
            + u32::from(xer.ca) * 0x2000_0000
            + xer.count % 128
    }
}

/// XER from a word, whose other bits are dropped.
impl From<u32> for Xer {
    ghost from_gives = { λ word xer. xer ≡ xer_from word };

    fn from(word: u32) -> Xer {
        Xer {
            so: word / 0x8000_0000 % 2 == 1,
            ov: word / 0x4000_0000 % 2 == 1,
            ca: word / 0x2000_0000 % 2 == 1,
            count: word % 128,
        }
    }
}

impl Msr {
    // The reader of images has this mask too: it has no crate of the core below it.
    /// The bits of a word that MSR keeps.
    pub const BITS: u32 = 0x0002_D230;
}

impl From<Msr> for u32 {
    ghost from_gives = { λ msr word. word ≡ msr_word msr };

    fn from(msr: Msr) -> u32 {
        u32::from(msr.ce) * 0x2_0000
            + u32::from(msr.ee) * 0x8000
            + u32::from(msr.pr) * 0x4000
            + u32::from(msr.me) * 0x1000
            + u32::from(msr.de) * 0x200
            + u32::from(msr.is) * 0x20
            + u32::from(msr.ds) * 0x10
    }
}

/// MSR from a word, whose other bits are dropped.
impl From<u32> for Msr {
    ghost from_gives = { λ word msr. msr ≡ msr_from word };

    fn from(word: u32) -> Msr {
        Msr {
            ce: word / 0x2_0000 % 2 == 1,
            ee: word / 0x8000 % 2 == 1,
            pr: word / 0x4000 % 2 == 1,
            me: word / 0x1000 % 2 == 1,
            de: word / 0x200 % 2 == 1,
            is: word / 0x20 % 2 == 1,
            ds: word / 0x10 % 2 == 1,
        }
    }
}

/// Whether user state may not name a special purpose register.
pub fn privileged_number(number: u32) -> bool
    ensures { result ≡ privileged_number number }
{
    number / 16 % 2 == 1
}

impl Working {
    /// A special purpose register that both states can read; none for another number.
    pub fn special(&self, shown: &Shown, number: u32) -> Option<u32>
        ensures { result ≡ special_word number self.now shown.now }
    {
        match number {
            1 => Some(u32::from(self.xer)),
            8 => Some(self.lr),
            9 => Some(self.ctr),
            256 => Some(self.usprg0),
            260..=263 => Some(shown.sprg[(number - 260) as usize]),
            _ => None,
        }
    }

    /// A word to a special purpose register that both states can write, where there is one of that number.
    pub fn set_special(&mut self, number: u32, value: u32) -> Result<(), NoSuchRegister>
        ensures { Known result self.old self.new (with_special number value self.old) }
    {
        match number {
            1 => self.xer = Xer::from(value),
            8 => self.lr = value,
            9 => self.ctr = value,
            256 => self.usprg0 = value,
            _ => return Err(NoSuchRegister),
        }
        Ok(())
    }
}

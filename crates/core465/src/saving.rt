//! What an interrupt saves, and where it goes on.
ghost use Rattle.std.specs.Prelude.{◌≡◌, ℕ, ◌%◌};
ghost use Rattle.core465.specs.Hidden.{SavedKept};
ghost use Rattle.core465.specs.Saving.{saved_by, vector_of};

use crate::hidden::{Hidden, Saved};
use cpu::registers::Msr;
use interrupt::{Cause, Interrupt};

impl Saved {
    /// What an interrupt saves, over what was saved before.
    pub fn save(&mut self, cause: Cause, counter: u32, msr: Msr)
        ensures { self.new ≡ saved_by cause counter msr self.old }
    {
        self.srr0 = cause.interrupt().return_address(counter);
        self.srr1 = msr;
        self.esr = cause.esr().unwrap_or(self.esr);
        self.dear = cause.dear().unwrap_or(self.dear);
    }
}

impl Hidden {
    /// The address of an interrupt's vector.
    pub fn vector(&self, interrupt: Interrupt) -> u32
        ensures value { result ≡ vector_of self.now interrupt }
        ensures aligned { result % 4 ≡ 0 }
    {
        self.ivpr / 0x1_0000 * 0x1_0000 + self.ivor[interrupt.number() as usize] / 16 % 4096 * 16
    }
}

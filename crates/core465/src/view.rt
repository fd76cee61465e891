//! What a core holds, as copies to look at.
ghost use Rattle.std.specs.Prelude.{◌≡◌, length};
ghost use Rattle.cpu.specs.Kept.{Kept};
ghost use Rattle.pages.specs.Entries.{AllKept, Kept as EntryKept};
ghost use Rattle.core465.specs.Machine.{MachineKept};
ghost use Rattle.core465.specs.Hidden.{HiddenKept};
ghost use Rattle.pages.specs.Tables.{selected};

use crate::hidden::Hidden;
use crate::machine::Core;
use cpu::registers::{Shown, Working};
use pages::Entry;

impl Core {
    /// The registers that user state may alter.
    pub fn working(&self) -> Working
        ensures value { result ≡ self.now.working }
        ensures kept { Kept result }
        ensures keeps { MachineKept self.now }
    {
        self.working
    }

    /// The registers that user state sees and does not alter.
    pub fn shown(&self) -> Shown
        ensures is { result ≡ self.now.shown }
        ensures keeps { MachineKept self.now }
    {
        self.shown
    }

    /// The registers that user state does not see.
    pub fn hidden(&self) -> Hidden
        ensures value { result ≡ self.now.hidden }
        ensures kept { HiddenKept result }
        ensures keeps { MachineKept self.now }
    {
        self.hidden
    }

    /// The page entry that the low six bits of a number name.
    pub fn entry(&self, number: u32) -> Entry
        ensures value { result ≡ selected self.now.entries number }
        ensures kept { EntryKept result }
        ensures all { AllKept self.now.entries }
        ensures count { length self.now.entries ≡ 64 }
        ensures keeps { MachineKept self.now }
    {
        self.pages.entry(number)
    }
}

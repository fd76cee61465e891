//! Registers and page entries of a core, set from outside.
ghost use Rattle.std.specs.Prelude.{◌≡◌, ℕ, ◌*◌, ◌/◌, Bool};
ghost use Rattle.cpu.specs.Known.{Known};
ghost use Rattle.cpu.specs.Registers.{msr_from, with_gpr, with_pc};
ghost use Rattle.pages.specs.Tables.{with_entry};
ghost use Rattle.core465.specs.Deeds.{with_working, with_entries, with_msr};
ghost use Rattle.core465.specs.Machine.{new_machine, MachineKept};
ghost use Rattle.core465.specs.Setting.{with_line, with_number};

use crate::machine::Core;
use crate::special::Special;
use cpu::registers::Msr;
use cpu::special::NoSuchRegister;
use isa::instruction::Register;
use pages::Entry;

impl Core {
    /// A word to a general register.
    pub fn set_word(&mut self, number: Register, value: u32)
        ensures is { self.new ≡ with_working self.old (with_gpr self.old.working number value) }
        ensures keeps { MachineKept self.new }
    {
        self.working.set_word(number, value);
    }

    /// The program counter, without its last two bits.
    pub fn set_counter(&mut self, counter: u32)
        ensures is { self.new ≡ with_working self.old (with_pc self.old.working (counter / 4 * 4)) }
        ensures keeps { MachineKept self.new }
    {
        self.working.pc = counter / 4 * 4;
    }

    /// MSR from a word, whose other bits are dropped.
    pub fn set_msr_word(&mut self, word: u32)
        ensures is { self.new ≡ with_msr self.old (msr_from word) }
        ensures keeps { MachineKept self.new }
    {
        self.shown.msr = Msr::from(word);
    }

    /// The external line.
    pub fn set_line(&mut self, up: bool)
        ensures is { self.new ≡ with_line self.old up }
        ensures keeps { MachineKept self.new }
    {
        self.shown.line = up;
    }

    /// A page entry, less the bits that entries do not keep. There is none of number 64 and above, and then nothing changes.
    pub fn set_entry(&mut self, number: u32, entry: Entry)
        ensures is { self.new ≡ with_entries self.old (with_entry self.old.entries number entry) }
        ensures keeps { MachineKept self.new }
    {
        // A refusal is dropped: by its contract `put` changes nothing then, which is what is promised here.
        let _ = self.pages.put(number, entry);
    }

    /// A word to the special purpose register of a number, which keeps what it keeps. Where supervisor state may write none
    /// of that number, nothing changes.
    pub fn set_numbered(&mut self, number: u32, value: u32) -> Result<(), NoSuchRegister>
        ensures is { Known result self.old self.new (with_number number value self.old) }
        ensures keeps { MachineKept self.new }
    {
        if self.working.set_special(number, value).is_err() {
            self.set_special(Special::try_from(number)?, value);
        }
        Ok(())
    }

    /// As new.
    pub fn reset(&mut self)
        ensures is { self.new ≡ new_machine }
        ensures keeps { MachineKept self.new }
    {
        *self = Core::new();
    }
}

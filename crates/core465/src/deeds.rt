//! What supervisor state does with a privileged deed.
ghost use Rattle.std.specs.Prelude.{◌≡◌, Some, None};
ghost use Rattle.cpu.specs.Known.{Known};
ghost use Rattle.core465.specs.Machine.{new_machine, MachineKept};
ghost use Rattle.core465.specs.Deeds.{advanced, giving, with_working, stid_from, with_msr, with_ee, returned, special_of, with_special_of, read_special, write_special, read_entry, write_entry, reported, searched, carried_out};
ghost use Rattle.core465.specs.Specials.{special_named};
ghost use Rattle.pages.specs.Matching.{found};
ghost use Rattle.pages.specs.Words.{word_numbered};
ghost use Rattle.cpu.specs.Registers.{msr_word};

use crate::hidden::{Hidden, Mmucr};
use crate::machine::Core;
use crate::special::Special;
use cpu::deed::Privileged;
use cpu::registers::{Shown, Working};
use cpu::special::NoSuchRegister;
use isa::instruction::Register;
use pages::{NoSuchWord, Pages, VirtualAddress, Word};
use std::error::Error;
use std::fmt;

/// A deed that names a register, or a word of a page entry, that there is not.
#[derive(Clone, Copy, PartialEq, Eq, Debug)]
pub struct IllegalDeed;

impl fmt::Display for IllegalDeed {
    fn fmt<W: fmt::Write>(&self, f: &mut fmt::Formatter<W>) -> fmt::Result {
        write!(f, "no such register or word of a page entry")
    }
}

impl Error for IllegalDeed {}

impl From<NoSuchRegister> for IllegalDeed {
    ghost from_gives = { λ _ e. e ≡ record {} };

    fn from(_error: NoSuchRegister) -> IllegalDeed {
        IllegalDeed
    }
}

impl From<NoSuchWord> for IllegalDeed {
    ghost from_gives = { λ _ e. e ≡ record {} };

    fn from(_error: NoSuchWord) -> IllegalDeed {
        IllegalDeed
    }
}

impl Core {
    /// A new core: zero everywhere, and the line down.
    pub fn new() -> Core
        ensures is { result ≡ new_machine }
        ensures keeps { MachineKept result }
    {
        // Part by part, and not derived: the invariant is proved at this literal.
        Core {
            working: Working::default(),
            shown: Shown::default(),
            hidden: Hidden::default(),
            pages: Pages::empty(),
        }
    }

    /// To the next instruction.
    fn advance(&mut self)
        ensures { self.new ≡ advanced self.old }
    {
        self.working.advance();
    }

    /// A word to a general register, and on.
    fn give(&mut self, rt: Register, value: u32)
        ensures { self.new ≡ giving rt value self.old }
    {
        self.working.set_word(rt, value);
        self.working.advance();
    }

    /// rfi.
    fn return_from_interrupt(&mut self)
        ensures { self.new ≡ returned self.old }
    {
        self.working.pc = self.hidden.saved.srr0;
        self.shown.msr = self.hidden.saved.srr1;
    }

    /// A special purpose register's word.
    pub fn special(&self, register: Special) -> u32
        ensures is { result ≡ special_of register self.now }
        ensures keeps { MachineKept self.now }
    {
        match register {
            Special::Sprg(k) if k >= 4 => self.shown.sprg[(k % 4) as usize],
            other => self.hidden.word(other),
        }
    }

    /// A word to a special purpose register.
    pub fn set_special(&mut self, register: Special, value: u32)
        ensures is { self.new ≡ with_special_of register value self.old }
        ensures keeps { MachineKept self.new }
    {
        match register {
            Special::Sprg(k) if k >= 4 => self.shown.sprg[(k % 4) as usize] = value,
            other => self.hidden.set(other, value),
        }
    }

    /// mfspr of a privileged number, where there is such a register.
    fn read_special(&mut self, rt: Register, number: u32) -> Result<(), NoSuchRegister>
        ensures { Known result self.old self.new (read_special rt (special_named number) self.old) }
    {
        let value = self.special(Special::try_from(number)?);
        self.give(rt, value);
        Ok(())
    }

    /// mtspr of a privileged number, where there is such a register.
    fn write_special(&mut self, number: u32, value: u32) -> Result<(), NoSuchRegister>
        ensures { Known result self.old self.new (write_special (special_named number) value self.old) }
    {
        self.set_special(Special::try_from(number)?, value);
        self.advance();
        Ok(())
    }

    /// The TID of an entry to STID, where its first word is read.
    fn take_stid(&mut self, word: Word, tid: u32)
        ensures { self.new ≡ stid_from word tid self.old }
    {
        if let Word::PageId = word {
            self.hidden.mmucr.stid = tid % 256;
        }
    }

    /// tlbre, where there is such a word.
    fn read_entry(&mut self, rt: Register, number: u32, word: u32) -> Result<(), NoSuchWord>
        ensures { Known result self.old self.new (read_entry rt number (word_numbered word) self.old) }
    {
        let word = Word::try_from(word)?;
        let entry = self.pages.entry(number);
        self.take_stid(word, entry.tid);
        self.give(rt, entry.word(word));
        Ok(())
    }

    /// tlbwe, where there is such a word.
    fn write_entry(&mut self, number: u32, word: u32, value: u32) -> Result<(), NoSuchWord>
        ensures { Known result self.old self.new (write_entry number (word_numbered word) value self.old) }
    {
        let word = Word::try_from(word)?;
        let tid = self.hidden.mmucr.stid;
        self.pages.write(number, word, value, tid);
        self.advance();
        Ok(())
    }

    /// Whether an entry was found, to condition field 0.
    fn report(&mut self, rc: bool, hit: bool)
        ensures { self.new ≡ with_working self.old (reported rc hit self.old.working) }
    {
        if rc {
            self.working.record_answer(hit);
        }
    }

    /// tlbsx, tlbsx.
    fn search_entries(&mut self, rt: Register, effective: u32, rc: bool)
        ensures { self.new ≡ searched rt rc (found self.old.entries (record { space = self.old.hidden.mmucr.sts; pid = self.old.hidden.mmucr.stid; effective = effective })) self.old }
    {
        let Mmucr { sts, stid } = self.hidden.mmucr;
        let hit = self.pages.search(VirtualAddress {
            space: sts,
            pid: stid,
            effective,
        });
        if let Some(number) = hit {
            self.working.set_word(rt, number);
        }
        self.report(rc, hit.is_some());
        self.advance();
    }

    /// A privileged deed in supervisor state. Where it names a register or a word that there is not, nothing changes.
    pub fn carry_out(&mut self, deed: Privileged) -> Result<(), IllegalDeed>
        ensures is { Known result self.old self.new (carried_out deed self.old) }
        ensures keeps { MachineKept self.new }
    {
        let done = self.attempt(deed);
        // Looked into once more, so that what every core keeps is known of it.
        let _ = &self.working;
        done
    }

    /// A privileged deed, or why there is none.
    fn attempt(&mut self, deed: Privileged) -> Result<(), IllegalDeed>
        ensures { Known result self.old self.new (carried_out deed self.old) }
    {
        match deed {
            Privileged::ReadMsr { rt } => self.give(rt, u32::from(self.shown.msr)),
            Privileged::WriteMsr { value } => {
                self.set_msr_word(value);
                self.advance();
            }
            Privileged::WriteExternalEnable { enable } => {
                self.shown.msr.ee = enable;
                self.advance();
            }
            Privileged::Return => self.return_from_interrupt(),
            Privileged::ReadSpecial { rt, number } => self.read_special(rt, number)?,
            Privileged::WriteSpecial { number, value } => self.write_special(number, value)?,
            Privileged::ReadEntry { rt, entry, word } => self.read_entry(rt, entry, word)?,
            Privileged::WriteEntry { entry, word, value } => self.write_entry(entry, word, value)?,
            Privileged::SearchEntries { rt, address, rc } => self.search_entries(rt, address, rc),
            Privileged::Synchronize => self.advance(),
        }
        Ok(())
    }
}

//! The flag page: one frame, zero but for the words FLAGS and ENABLE.
#![tactic(auto)]

ghost use Rattle.std.specs.Prelude.{◌≡◌, ℕ, ◌%◌, ◌<◌, if◌then◌else◌, nat_eq};
ghost use Rattle.std.specs.Int.{bit_at};
ghost use Rattle.bus.specs.Model.{answered};
ghost use Rattle.flags.specs.Flags.{page, page_denial, without, model_of};
ghost use Rattle.flags.specs.Laws.{page_lawful};
ghost use Rattle.flags.specs.declared.Word.{Word};

use bus::{ABSENT, Bus, Code, Direction, FRAME, MALFORMED, well_formed};

/// The offset of the word FLAGS: writing it clears the bits that are one in the value.
pub const FLAGS: u64 = 0;

/// The offset of the word ENABLE: writing it stores the value.
pub const ENABLE: u64 = 4;

/// The code of an access to another word.
pub const NO_SUCH_WORD: Code = 2;

/// The code of an access of another width than 4. It comes before `NO_SUCH_WORD`.
pub const NOT_A_WORD: Code = 3;

// The word that an access names.
#[derive(Clone, Copy)]
enum Word {
    Flags,
    Enable,
}

/// A frame of its own, zero but for the words FLAGS and ENABLE.
#[derive(PartialEq, Eq, Debug, Drop)]
pub struct FlagPage {
    frame: u64,
    flags: u32,
    enable: u32,
}

impl FlagPage {
    /// The page at the frame of that number, or none if it is 2^26 or more, with FLAGS as given and
    /// ENABLE 0.
    pub fn new(frame: u64, flags: u32) -> Self
        ensures { model_of result ≡ page frame flags 0 }
    {
        FlagPage {
            frame,
            flags,
            enable: 0,
        }
    }

    // Clears the bits of FLAGS that are one in `ones`.
    fn clear(&mut self, ones: u32)
        ensures number { self.new.flags ≡ without self.old.flags ones }
        ensures bits { (i : ℕ) → i < 32 → bit_at self.new.flags i ≡ (if nat_eq (bit_at ones i) 1 then 0 else bit_at self.old.flags i) }
        ensures others { (self.new.frame ≡ self.old.frame) × (self.new.enable ≡ self.old.enable) }
    {
        self.flags &= !ones;
    }

    // The word that an access names, or the code of its denial.
    fn word_at(&self, address: u64, width: u32) -> Result<Word, Code>
        ensures { result ≡ answered (page_denial self.now.frame address width) (if nat_eq (address % 1024) 0 then Word.Flags else Word.Enable) }
    {
        if !well_formed(address, width) {
            Err(MALFORMED)
        } else if address / FRAME != self.frame {
            Err(ABSENT)
        } else if width != 4 {
            Err(NOT_A_WORD)
        } else {
            match address % FRAME {
                FLAGS => Ok(Word::Flags),
                ENABLE => Ok(Word::Enable),
                _ => Err(NO_SUCH_WORD),
            }
        }
    }
}

impl Bus for FlagPage {
    ghost model = { model_of };

    ghost Loan = { Unit {0} };

    ghost lent = { λ _. tt };

    fn denial(&self, _direction: Direction, address: u64, width: u32) -> Option<Code> {
        self.word_at(address, width).err()
    }

    fn read(&self, address: u64, width: u32) -> Result<u32, Code> {
        let word = self.word_at(address, width)?;
        // The page is taken apart, since a word that is read through `self` is not known to fit 32 bits.
        let FlagPage { flags, enable, .. } = self;
        Ok(match word {
            Word::Flags => *flags,
            Word::Enable => *enable,
        })
    }

    fn write(&mut self, address: u64, width: u32, value: u32) -> Result<(), Code> {
        match self.word_at(address, width)? {
            Word::Flags => self.clear(value),
            Word::Enable => self.enable = value,
        }
        Ok(())
    }

    ghost lawful = { λ p. page_lawful p.frame p.flags p.enable };
}

//! Registers and page entries, put from outside.
ghost use Rattle.std.specs.Prelude.{◌≡◌, ℕ, ◌<◌, Bool};
ghost use Rattle.std.specs.Option.{unwrap_or};
ghost use Rattle.core465.specs.Machine.{MachineKept};
ghost use Rattle.service.specs.Putting.{fits, mask_of, put_number, put_special, put_answer, put_machine};
ghost use Rattle.service.specs.declared.putting.PutRefusal.TheVariants.{Unfit};

use core465::Core;
use cpu::registers::Msr;
use cpu::special::NoSuchRegister;
use pages::Entry;
use std::error::Error;
use std::fmt;

/// What is put.
#[derive(Clone, Copy, PartialEq, Eq, Debug)]
pub enum Put {
    /// A general register, by its number from 0 to 31.
    Gpr { number: u32, value: u32 },
    /// A special purpose register that supervisor state may write, by its number.
    Special { number: u32, value: u32 },
    Msr(u32),
    /// The program counter.
    Counter(u32),
    /// A page entry, by its number from 0 to 63.
    Entry { number: u32, entry: Entry },
}

/// Why a put is refused.
#[derive(Clone, Copy, PartialEq, Eq, Debug)]
pub enum PutRefusal {
    /// There is none of that number, or the value does not fit: it has bits that are not kept, or is a counter that is no
    /// multiple of four.
    Unfit = 8,
}

impl fmt::Display for PutRefusal {
    fn fmt<W: fmt::Write>(&self, f: &mut fmt::Formatter<W>) -> fmt::Result {
        write!(
            f,
            "no such register or entry, or a value that does not fit it"
        )
    }
}

impl Error for PutRefusal {}

impl From<NoSuchRegister> for PutRefusal {
    ghost from_gives = { λ _ refusal. refusal ≡ Unfit };

    fn from(_error: NoSuchRegister) -> PutRefusal {
        PutRefusal::Unfit
    }
}

impl PutRefusal {
    // Each refusal has its number in its own type: a trait for them would serve one call each.
    /// The number by which the refusal is known.
    pub fn number(self) -> u32
        ensures { result ≡ put_number self }
    {
        self as u32
    }
}

/// Whether a word has no other bits than those of a mask.
fn fits(mask: u32, word: u32) -> bool
    ensures { result ≡ fits mask word }
{
    word & mask == word
}

// The rule of a put, as masks by number; the registers of a core keep by operations of their own, with no mask to take.
/// The bits that the special purpose register of a number keeps, if supervisor state may write it.
fn mask_of(number: u32) -> Option<u32>
    ensures { result ≡ mask_of number }
{
    match number {
        1 => Some(0xE000_007F),
        8 | 9 | 61 | 256 | 272..=279 => Some(0xFFFF_FFFF),
        26 => Some(0xFFFF_FFFC),
        27 => Some(Msr::BITS),
        48 => Some(0x0000_00FF),
        62 => Some(0x0E80_0000),
        63 => Some(0xFFFF_0000),
        400..=415 => Some(0x0000_FFF0),
        946 => Some(0x0001_00FF),
        _ => None,
    }
}

/// Puts a special purpose register.
fn put_special(core: &mut Core, number: u32, value: u32) -> Result<(), PutRefusal>
    ensures answer { result ≡ put_answer (put_special number value core.old) }
    ensures after { core.new ≡ unwrap_or (put_special number value core.old) core.old }
    ensures keeps { MachineKept core.old → MachineKept core.new }
{
    let mask = mask_of(number).ok_or(PutRefusal::Unfit)?;
    if !fits(mask, value) {
        return Err(PutRefusal::Unfit);
    }
    core.set_numbered(number, value)?;
    Ok(())
}

/// Puts a register or a page entry. What does not fit changes nothing.
pub fn put_value(core: &mut Core, what: Put) -> Result<(), PutRefusal>
    ensures answer { result ≡ put_answer (put_machine what core.old) }
    ensures after { core.new ≡ unwrap_or (put_machine what core.old) core.old }
    ensures keeps { MachineKept core.new }
{
    // Looked at, so that what every core keeps is known of this one, refused or not.
    let _ = core.counter();
    match what {
        Put::Gpr { number, value } if number < 32 => core.set_word(number, value),
        Put::Special { number, value } => put_special(core, number, value)?,
        Put::Msr(word) if fits(Msr::BITS, word) => core.set_msr_word(word),
        Put::Counter(counter) if counter % 4 == 0 => core.set_counter(counter),
        Put::Entry { number, entry } if number < 64 && entry.is_kept() => {
            core.set_entry(number, entry)
        }
        _ => return Err(PutRefusal::Unfit),
    }
    Ok(())
}

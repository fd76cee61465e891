//! A look at a real address.
ghost use Rattle.std.specs.Prelude.{◌≡◌};
ghost use Rattle.bus.specs.Model.{read_of};
ghost use Rattle.service.specs.Looking.{look_refusal, look_number, looked};

use bus::{Bus, Code, MALFORMED};
use std::error::Error;
use std::fmt;

/// Why a look is refused.
#[derive(Clone, Copy, PartialEq, Eq, Debug)]
pub enum LookRefusal {
    /// The width is not 1, 2 or 4, or the address no multiple of it below 2^36.
    Malformed,
    /// The bus denies the read with this code.
    Denied(Code),
}

impl LookRefusal {
    /// The number by which the refusal is known.
    // A match, since a case with a code in it has no discriminant to read by `as`. Each refusal has its number in its own
    // type: a trait for them would serve one call each.
    pub fn number(self) -> u32
        ensures { result ≡ look_number self }
    {
        match self {
            LookRefusal::Malformed => 9,
            LookRefusal::Denied(_) => 10,
        }
    }
}

/// The refusal for a code of the bus.
impl From<Code> for LookRefusal {
    ghost from_gives = { λ code refusal. refusal ≡ look_refusal code };

    fn from(code: Code) -> LookRefusal {
        if code == MALFORMED {
            LookRefusal::Malformed
        } else {
            LookRefusal::Denied(code)
        }
    }
}

impl fmt::Display for LookRefusal {
    fn fmt<W: fmt::Write>(&self, f: &mut fmt::Formatter<W>) -> fmt::Result {
        match self {
            LookRefusal::Malformed => write!(f, "no such access"),
            LookRefusal::Denied(code) => write!(f, "denied with code {code}"),
        }
    }
}

impl Error for LookRefusal {}

/// The value of the `width` bytes from a real address on.
pub fn look<B: Bus>(bus: &B, address: u64, width: u32) -> Result<u32, LookRefusal>
    ensures { result ≡ looked (read_of (B.Bus.model bus.now) address width) }
{
    Ok(bus.read(address, width)?)
}

//! Bytes written to any bus, one after the other.
#![tactic(auto)]

ghost use Rattle.std.specs.Prelude.{◌≡◌};
ghost use Rattle.bus.specs.Model.{write_of, after};
ghost use Rattle.placing.specs.Placing.{located, placed, Tells};

use bus::{Bus, Code};
use std::error::Error;
use std::fmt;

/// The address of an access that a bus denies, and the code of the denial.
#[derive(Clone, Copy, PartialEq, Eq, Debug)]
pub struct Denied {
    pub address: u64,
    pub code: Code,
}

impl fmt::Display for Denied {
    fn fmt<W: fmt::Write>(&self, f: &mut fmt::Formatter<W>) -> fmt::Result {
        let address = self.address;
        let code = self.code;
        write!(f, "0x{address:09X} denied with code {code}")
    }
}

impl Error for Denied {}

// Writes one byte.
fn place_byte<B: Bus>(bus: &mut B, address: u64, byte: u8) -> Result<(), Denied>
    ensures answer { result ≡ located address (write_of (B.Bus.model bus.old) address 1) }
    ensures state { B.Bus.model bus.new ≡ after (B.Bus.model bus.old) address 1 byte }
    ensures loan { B.Bus.lent bus.new ≡ B.Bus.lent bus.old }
{
    bus.write(address, 1, u32::from(byte))
        .map_err(|code| Denied { address, code })
}

/// Writes the bytes from the address on, each by an access of its own, in their order, up to the first that the bus
/// denies. Those before it stay written.
pub fn place<B: Bus>(bus: &mut B, address: u64, bytes: &[u8]) -> Result<(), Denied>
    ensures answer { result ≡ (placed (B.Bus.model bus.old) address bytes.now).answer }
    ensures first { Tells (B.Bus.model bus.old) address bytes.now result }
    ensures state { B.Bus.model bus.new ≡ (placed (B.Bus.model bus.old) address bytes.now).model }
    ensures loan { B.Bus.lent bus.new ≡ B.Bus.lent bus.old }
{
    for (i, byte) in bytes.iter().enumerate() {
        place_byte(bus, address + i as u64, *byte)?;
    }
    Ok(())
}

//! A slice that is lent to plain memory, written by code that knows no more than that it has a bus, and had
//! back: what it then holds is proved.
ghost use Rattle.std.specs.Prelude.{◌≡◌};
ghost use Rattle.bus.specs.Model.{write_of, after};
ghost use Rattle.memory.specs.Memory.{memory, outside};

use crate::table::holds;
use bus::{Bus, Code};
use memory::Memory;

// Writes a word to any bus.
fn store<B: Bus>(bus: &mut B, address: u64, value: u32) -> Result<(), Code>
    ensures answer { result ≡ write_of (B.Bus.model bus.old) address 4 }
    ensures state { B.Bus.model bus.new ≡ after (B.Bus.model bus.old) address 4 value }
    ensures loan { B.Bus.lent bus.new ≡ B.Bus.lent bus.old }
{
    bus.write(address, 4, value)
}

// Lends the slice from the frame `first` on, and writes a word. The slice then holds what the model says in the
// frames that are served, and what it held elsewhere.
fn store_in(bytes: &mut [u8], first: u64, address: u64, value: u32) -> Result<(), Code>
    ensures answer { result ≡ write_of (memory first bytes.old) address 4 }
    ensures frames { memory first bytes.new ≡ after (memory first bytes.old) address 4 value }
    ensures rest { outside first bytes.new ≡ outside first bytes.old }
{
    let mut memory = Memory::new(first, bytes);
    store(&mut memory, address, value)
}

#[test]
fn a_lent_slice_comes_back(rt: HostRuntime) {
    let mut bytes = [9; 1100];
    assert_eq!(rt; store_in(&mut bytes, 3, 0xC04, 0x0102_0304), Ok(()));
    assert_eq!(rt; store_in(&mut bytes, 3, 0x1004, 0x0506_0708), Err(1));
    holds(&rt, &bytes, &[(4, 1), (5, 2), (6, 3), (7, 4)], 9);
}

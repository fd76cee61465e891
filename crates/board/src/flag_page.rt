//! The word FLAGS of a flag page, cleared bit by bit.
use crate::data::read_word;
use bus::Bus;
use placing::Denied;
use std::io;

/// Prints the word FLAGS, which stands at the address, writes each of its four lowest bits to it in turn, and prints
/// what it is then.
pub(crate) fn show_flags<B: Bus>(rt: &impl Print, bus: &mut B, address: u64) -> io::Result<()> {
    match read_word(bus, address) {
        Ok(flags) => println!(rt; "FLAGS is 0x{flags:08X}")?,
        Err(denied) => println!(rt; "FLAGS at {denied}")?,
    }
    for bit in 0u32..4 {
        show_clearing(rt, bus, address, 1 << bit)?;
    }
    Ok(())
}

// Writes a value to the word FLAGS, and prints what the word is then.
fn show_clearing<B: Bus>(rt: &impl Print, bus: &mut B, address: u64, value: u32) -> io::Result<()> {
    if let Err(code) = bus.write(address, 4, value) {
        return println!(rt; "  write at {}", Denied { address, code });
    }
    match read_word(bus, address) {
        Ok(flags) => println!(rt; "  after writing 0x{value:08X} it is 0x{flags:08X}"),
        Err(denied) => println!(rt; "  read at {denied}"),
    }
}

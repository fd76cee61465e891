//! The start in words.
use crate::flags::{Flag, write_names};
use std::fmt;

// The bits of the MSR, from the left.
const MSR: [Flag; 7] = [
    Flag(0x0002_0000, "CE"),
    Flag(0x0000_8000, "EE"),
    Flag(0x0000_4000, "PR"),
    Flag(0x0000_1000, "ME"),
    Flag(0x0000_0200, "DE"),
    Flag(0x0000_0020, "IS"),
    Flag(0x0000_0010, "DS"),
];

/// Where the core starts, and in which state: two lines.
#[derive(Clone, Copy)]
pub struct Start(pub image::Start);

impl fmt::Display for Start {
    fn fmt<W: fmt::Write>(&self, f: &mut fmt::Formatter<W>) -> fmt::Result {
        let image::Start { counter, msr } = self.0;
        write!(f, "start at 0x{counter:08X}\n  MSR 0x{msr:08X}: ")?;
        write_names(f, &MSR, msr)
    }
}

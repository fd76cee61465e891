//! A table of accesses, and the loop that goes through one.
use bus::{Bus, Code, Direction};
use std::process::Abort;

/// An access of a width at an address.
#[derive(Clone, Copy)]
enum Access {
    Read,
    Write(u32),
}

impl Access {
    fn direction(self) -> Direction {
        match self {
            Access::Read => Direction::Read,
            Access::Write(_) => Direction::Write,
        }
    }

    /// Makes the access: a read answers its value, and a write nothing.
    fn make<B: Bus>(self, bus: &mut B, address: u64, width: u32) -> Result<Option<u32>, Code> {
        match self {
            Access::Read => bus.read(address, width).map(Some),
            Access::Write(value) => bus.write(address, width, value).map(|()| None),
        }
    }
}

/// An access, what it answers, and the four bytes of the word around its address afterwards.
#[derive(Clone, Copy)]
pub(crate) struct Row {
    access: Access,
    address: u64,
    width: u32,
    answer: Result<Option<u32>, Code>,
    after: [u8; 4],
}

impl Row {
    fn new(
        access: Access,
        address: u64,
        width: u32,
        answer: Result<Option<u32>, Code>,
        after: [u8; 4],
    ) -> Self {
        Row {
            access,
            address,
            width,
            answer,
            after,
        }
    }
}

/// A read that answers `value`.
pub(crate) fn reads(address: u64, width: u32, value: u32, after: [u8; 4]) -> Row {
    Row::new(Access::Read, address, width, Ok(Some(value)), after)
}

/// A write of `value` that is served.
pub(crate) fn writes(address: u64, width: u32, value: u32, after: [u8; 4]) -> Row {
    Row::new(Access::Write(value), address, width, Ok(None), after)
}

/// A read that is denied.
pub(crate) fn no_read(address: u64, width: u32, code: Code, after: [u8; 4]) -> Row {
    Row::new(Access::Read, address, width, Err(code), after)
}

/// A write of all ones that is denied.
pub(crate) fn no_write(address: u64, width: u32, code: Code, after: [u8; 4]) -> Row {
    Row::new(Access::Write(u32::MAX), address, width, Err(code), after)
}

/// The four bytes of the word around an address, where a byte that cannot be read counts as zero.
fn word_around<B: Bus>(bus: &B, address: u64) -> [u8; 4] {
    bus.read(address / 4 * 4, 4)
        .map_or([0; 4], u32::to_be_bytes)
}

/// Goes through the rows: asks, makes the access, and looks at the word around it before and after.
pub(crate) fn play<B: Bus>(rt: &impl Abort, bus: &mut B, rows: &[Row]) {
    for (i, row) in rows.iter().enumerate() {
        let before = word_around(bus, row.address);
        let denial = bus.denial(row.access.direction(), row.address, row.width);
        assert_eq!(rt; denial, row.answer.err(), "row {i}: the question");
        assert_eq!(rt; word_around(bus, row.address), before, "row {i}: asked");
        let answer = row.access.make(bus, row.address, row.width);
        assert_eq!(rt; answer, row.answer, "row {i}: the answer");
        assert_eq!(rt;
            word_around(bus, row.address),
            row.after,
            "row {i}: the bytes"
        );
    }
}

/// Looks at each byte of a slice: those at the places listed are as listed, and all others are `other`.
pub(crate) fn holds(rt: &impl Abort, bytes: &[u8], listed: &[(usize, u8)], other: u8) {
    for (i, byte) in bytes.iter().enumerate() {
        assert_eq!(rt; *byte, listed_at(listed, i, other), "byte {i}");
    }
}

fn listed_at(listed: &[(usize, u8)], place: usize, other: u8) -> u8 {
    listed
        .iter()
        .find(|(at, _)| *at == place)
        .map_or(other, |(_, byte)| *byte)
}

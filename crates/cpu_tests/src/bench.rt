// A row of a table is a line of text in four columns: a word with its instruction, the registers that it finds, what is
// left to do, and the registers that it leaves. Registers that a row does not name are as in `PLAIN`, and stay so, but
// for the program counter, which goes on by four where nothing is left to do or an access is made.
use crate::deeds::described;
use cpu::deed::Deed;
use cpu::registers::{Msr, Shown, Working, Xer};
use isa::decode;
use std::alloc::Global;
use std::process::Abort;
use std::test::Fail;

/// Working registers, no two alike, so that a value from the wrong place is seen.
pub const PLAIN: Working = Working {
    gpr: [
        0xA000_0000,
        0xA000_0001,
        0xA000_0002,
        0xA000_0003,
        0xA000_0004,
        0xA000_0005,
        0xA000_0006,
        0xA000_0007,
        0xA000_0008,
        0xA000_0009,
        0xA000_000A,
        0xA000_000B,
        0xA000_000C,
        0xA000_000D,
        0xA000_000E,
        0xA000_000F,
        0xA000_0010,
        0xA000_0011,
        0xA000_0012,
        0xA000_0013,
        0xA000_0014,
        0xA000_0015,
        0xA000_0016,
        0xA000_0017,
        0xA000_0018,
        0xA000_0019,
        0xA000_001A,
        0xA000_001B,
        0xA000_001C,
        0xA000_001D,
        0xA000_001E,
        0xA000_001F,
    ],
    cr: 0x0123_4567,
    xer: Xer {
        so: false,
        ov: false,
        ca: false,
        count: 0x55,
    },
    lr: 0xB000_0003,
    ctr: 0xC000_0002,
    usprg0: 0xD000_0001,
    pc: 0x1000,
    reserved: false,
};

/// What user state sees: SPRG4 to SPRG7 among it.
pub const SHOWN: Shown = Shown {
    msr: Msr {
        ce: false,
        ee: true,
        pr: true,
        me: false,
        de: false,
        is: false,
        ds: false,
    },
    sprg: [0xE000_0004, 0xE000_0005, 0xE000_0006, 0xE000_0007],
    line: true,
};

#[derive(Clone, Copy)]
struct Row<'a> {
    text: &'a str,
    word: u32,
    given: &'a str,
    deed: &'a str,
    gives: &'a str,
}

/// Runs every row of a table.
pub fn run(rt: &impl Abort, heap: Global, rows: &[&str]) -> Result<(), Fail> {
    for text in rows {
        run_row(rt, heap, split(text)?)?;
    }
    Ok(())
}

fn split<'a>(text: &'a str) -> Result<Row<'a>, Fail> {
    let (code, rest) = text.split_once(" | ").ok_or("no registers")?;
    let (given, rest) = rest.split_once(" | ").ok_or("no deed")?;
    let (deed, gives) = rest.split_once(" | ").ok_or("no result")?;
    let (word, _) = code.split_once(' ').ok_or("no instruction")?;
    Ok(Row {
        text,
        word: u32::from_str_radix(word, 16)?,
        given,
        deed,
        gives,
    })
}

fn run_row(rt: &impl Abort, heap: Global, row: Row<'_>) -> Result<(), Fail> {
    let instruction = decode(row.word).ok_or("illegal")?;
    let mut expected = PLAIN;
    put_all(rt, &mut expected, row.given)?;
    let mut working = expected;
    let deed = working.perform(&SHOWN, instruction);
    if !matches!(deed, Deed::Finished) {
        assert_eq!(rt; working, expected, "{}", row.text);
    }
    if goes_on(deed) {
        expected.pc = expected.pc.wrapping_add(4);
    }
    put_all(rt, &mut expected, row.gives)?;
    let (left, value) = match row.deed.split_once(" = ") {
        Some((left, value)) => (left, u32::from_str_radix(value, 16)?),
        None => (row.deed, 0),
    };
    assert_eq!(rt; described(heap, deed)?.as_str(), left, "{}", row.text);
    end(&mut working, deed, value);
    assert_eq!(rt; working, expected, "{}", row.text);
    Ok(())
}

/// Whether the next instruction follows.
fn goes_on(deed: Deed) -> bool {
    matches!(
        deed,
        Deed::Finished | Deed::Load(_) | Deed::Store(_) | Deed::Probe { .. }
    )
}

/// The end of an access: a load gets a value, a store is made, a conditional store without a reservation is not.
fn end(working: &mut Working, deed: Deed, value: u32) {
    match deed {
        Deed::Load(loading) => working.receive(loading, value),
        Deed::Store(storing) => working.conclude(storing),
        Deed::Probe { .. } => working.settle(false),
        _ => {}
    }
}

fn put_all(rt: &impl Abort, working: &mut Working, text: &str) -> Result<(), Fail> {
    for part in text.split_whitespace() {
        let (name, value) = part.split_once('=').ok_or("no value")?;
        put(rt, working, name, u32::from_str_radix(value, 16)?)?;
    }
    Ok(())
}

/// A value to the register of a name; `reserved` is 1 where the reservation is set.
fn put(rt: &impl Abort, working: &mut Working, name: &str, value: u32) -> Result<(), Fail> {
    match name {
        "cr" => working.cr = value,
        "xer" => working.xer = xer(value),
        "lr" => working.lr = value,
        "ctr" => working.ctr = value,
        "usprg0" => working.usprg0 = value,
        "pc" => working.pc = value,
        "reserved" => working.reserved = value == 1,
        _ => {
            let number = name
                .strip_prefix('r')
                .ok_or("no register")?
                .parse::<usize>()?;
            assert!(rt; number < 32);
            working.gpr[number] = value;
        }
    }
    Ok(())
}

// The tests' own, and not the program's: what the rows expect shall not rest on what they test.
/// XER of a word: SO, OV and CA are its first bits, the count its last seven.
fn xer(word: u32) -> Xer {
    Xer {
        so: word >= 0x8000_0000,
        ov: word / 0x4000_0000 % 2 == 1,
        ca: word / 0x2000_0000 % 2 == 1,
        count: word % 128,
    }
}

//! A page entry in words.
use crate::flags::{Flag, write_names};
use image::{PageEntry, real_address};
use std::fmt;

// What a listing says of an image needs no page table: the bits and the sizes of an entry stand here too.

// Bits of word 0.
const VALID: u32 = 0x200;

const SPACE: u32 = 0x100;

// The rights of supervisor state, in word 2. Those of user state stand three bits further left.
const RIGHTS: [Flag; 3] = [
    Flag(0x04, "execute"),
    Flag(0x02, "write"),
    Flag(0x01, "read"),
];

/// A page entry with its fields: five lines.
#[derive(Clone, Copy)]
pub struct Entry(pub PageEntry);

impl fmt::Display for Entry {
    fn fmt<W: fmt::Write>(&self, f: &mut fmt::Formatter<W>) -> fmt::Result {
        write_words(f, self.0)?;
        write_page(f, self.0)?;
        write_real(f, self.0)?;
        write_rights(f, self.0.word2)
    }
}

// The number of the entry and its words as they stand.
fn write_words<W: fmt::Write>(f: &mut fmt::Formatter<W>, entry: PageEntry) -> fmt::Result {
    let PageEntry {
        number,
        word0,
        word1,
        word2,
        ..
    } = entry;
    write!(
        f,
        "entry {number}\n  words 0x{word0:08X} 0x{word1:08X} 0x{word2:08X}\n"
    )
}

// Which effective addresses the entry is for.
fn write_page<W: fmt::Write>(f: &mut fmt::Formatter<W>, entry: PageEntry) -> fmt::Result {
    let PageSize { name, mask } = page_size(entry.word0);
    let page = entry.word0 & mask;
    let valid = if entry.word0 & VALID != 0 {
        "valid"
    } else {
        "invalid"
    };
    let space = u8::from(entry.word0 & SPACE != 0);
    write!(f, "  page 0x{page:08X}, {name}, {valid}, space {space}, ")?;
    match entry.tid {
        0 => f.write_str("any task\n"),
        task => write!(f, "task {task}\n"),
    }
}

// Which real address the page begins at.
fn write_real<W: fmt::Write>(f: &mut fmt::Formatter<W>, entry: PageEntry) -> fmt::Result {
    let low = entry.word1 & page_size(entry.word0).mask;
    let [_, _, _, upper] = entry.word1.to_be_bytes();
    let real = real_address(upper % 16, low);
    write!(f, "  real 0x{real:09X}\n")
}

fn write_rights<W: fmt::Write>(f: &mut fmt::Formatter<W>, word2: u32) -> fmt::Result {
    f.write_str("  user: ")?;
    write_names(f, &RIGHTS, word2 >> 3)?;
    f.write_str("; supervisor: ")?;
    write_names(f, &RIGHTS, word2)
}

// A size of pages: its name, and the bits by which addresses on different pages differ.
#[derive(Clone, Copy)]
struct PageSize {
    name: &'static str,
    mask: u32,
}

// The page size that a word 0 says.
fn page_size(word0: u32) -> PageSize {
    let (name, mask) = match word0 / 16 % 16 {
        0 => ("1 KiB", 0xFFFF_FC00),
        1 => ("4 KiB", 0xFFFF_F000),
        2 => ("16 KiB", 0xFFFF_C000),
        3 => ("64 KiB", 0xFFFF_0000),
        4 => ("256 KiB", 0xFFFC_0000),
        5 => ("1 MiB", 0xFFF0_0000),
        7 => ("16 MiB", 0xFF00_0000),
        9 => ("256 MiB", 0xF000_0000),
        // Such an entry matches nothing; the addresses stand as they are.
        _ => ("no page size", 0xFFFF_FC00),
    };
    PageSize { name, mask }
}

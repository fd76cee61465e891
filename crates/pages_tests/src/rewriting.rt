//! Entries as they are rewritten, replaced and read.
use crate::setup::*;
use pages::{NoSuchEntry, NoSuchWord, Pages, Word};
use std::process::Abort;
use std::test::Fail;

const FULL: u32 = 0xFFFF_FFFF;

/// Looks at each entry after a write: that of the number is as given, and all others are zero.
fn holds_only(rt: &impl Abort, pages: &Pages, write: usize, number: u32, given: [u32; 4]) {
    for n in 0u32..64 {
        let there = if n == number { given } else { [0; 4] };
        assert_eq!(rt; pages.entry(n), entry(there), "write {write}, entry {n}");
    }
}

/// WS, the value and the TID written, and the entry afterwards, where each write follows the one before.
const WRITES: [(u32, u32, u32, [u32; 4]); 9] = [
    (0, FULL, FULL, [0xFF, 0xFFFF_FFF0, 0, 0]),
    (0, 0x1234_5678, 0x1234_5678, [0x78, 0x1234_5670, 0, 0]),
    (1, FULL, 0x11, [0x78, 0x1234_5670, 0xFFFF_FC0F, 0]),
    (1, 0x89AB_CDEF, 0x11, [0x78, 0x1234_5670, 0x89AB_CC0F, 0]),
    (2, FULL, 0x22, [0x78, 0x1234_5670, 0x89AB_CC0F, 0xFFBF]),
    (
        2,
        0x0001_807F,
        0x22,
        [0x78, 0x1234_5670, 0x89AB_CC0F, 0x803F],
    ),
    (0, 0x0000_000F, 0x100, [0, 0, 0x89AB_CC0F, 0x803F]),
    (1, 0x0000_03F0, 0x33, [0, 0, 0, 0x803F]),
    (2, 0xFFFF_0040, 0x44, [0, 0, 0, 0]),
];

fn write_through(rt: &impl Abort, selector: u32, number: u32) -> Result<(), Fail> {
    let mut pages = Pages::empty();
    for (i, (ws, value, tid, after)) in WRITES.iter().enumerate() {
        let word = Word::try_from(*ws)?;
        pages.write(selector, word, *value, *tid);
        holds_only(rt, &pages, i, number, *after);
        assert_eq!(rt; pages.entry(selector), entry(*after), "read {i}");
    }
    Ok(())
}

#[test]
fn a_write_rewrites_one_word_of_one_entry(rt: HostRuntime) -> Result<(), Fail> {
    write_through(&rt, 0, 0)?;
    write_through(&rt, 63, 63)
}

#[test]
fn only_six_bits_select_an_entry(rt: HostRuntime) -> Result<(), Fail> {
    write_through(&rt, 64, 0)?;
    write_through(&rt, 0x1234_5685, 5)?;
    write_through(&rt, FULL, 63)
}

#[test]
fn a_read_changes_nothing_and_takes_six_bits(rt: HostRuntime) -> Result<(), Fail> {
    let given = [0x5A, 0x1234_5670, 0x89AB_CC0F, 0x803F];
    let pages = only(20, entry(given))?;
    for (selector, gives) in [
        (20, given),
        (84, given),
        (0xFFFF_FFD4, given),
        (19, [0; 4]),
        (21, [0; 4]),
    ] {
        assert_eq!(rt; pages.entry(selector), entry(gives), "selector {selector}");
    }
    holds_only(&rt, &pages, 0, 20, given);
    Ok(())
}

#[test]
fn a_put_replaces_one_entry(rt: HostRuntime) -> Result<(), Fail> {
    let mut pages = Pages::empty();
    pages.put(63, entry([FULL; 4]))?;
    holds_only(&rt, &pages, 0, 63, [0xFF, 0xFFFF_FFF0, 0xFFFF_FC0F, 0xFFBF]);
    pages.put(63, entry([3, 0x210, 0x400, 1]))?;
    holds_only(&rt, &pages, 1, 63, [3, 0x210, 0x400, 1]);
    Ok(())
}

#[test]
fn there_are_64_entries(rt: HostRuntime) -> Result<(), Fail> {
    let mut pages = only(63, entry([3, 0x210, 0x400, 1]))?;
    for number in [64, 65, 127, 128, FULL] {
        assert_eq!(rt; pages.put(number, entry([0; 4])), Err(NoSuchEntry));
    }
    holds_only(&rt, &pages, 0, 63, [3, 0x210, 0x400, 1]);
    Ok(())
}

/// An entry, and what an entry keeps of it.
const KEPT: [([u32; 4], [u32; 4]); 6] = [
    ([0, 0, 0, 0], [0, 0, 0, 0]),
    (
        [0xFF, 0xFFFF_FFF0, 0xFFFF_FC0F, 0xFFBF],
        [0xFF, 0xFFFF_FFF0, 0xFFFF_FC0F, 0xFFBF],
    ),
    ([0x101, 0, 0, 0], [1, 0, 0, 0]),
    ([0, 0x0010_0258, 0, 0], [0, 0x0010_0250, 0, 0]),
    ([0, 0, 0x0030_0211, 0], [0, 0, 0x0030_0001, 0]),
    ([0, 0, 0, 0x1_00C1], [0, 0, 0, 0x81]),
];

#[test]
fn an_entry_keeps_its_bits(rt: HostRuntime) -> Result<(), Fail> {
    for (given, kept) in &KEPT {
        assert_eq!(rt; entry(*given).is_kept(), *given == *kept);
        let pages = only(33, entry(*given))?;
        holds_only(&rt, &pages, 0, 33, *kept);
    }
    Ok(())
}

#[test]
fn bits_are_kept_one_by_one(rt: HostRuntime) {
    for bit in 0u32..32 {
        let set = 1u32 << bit;
        assert_eq!(rt; entry([set, 0, 0, 0]).is_kept(), bit < 8);
        assert_eq!(rt; entry([0, set, 0, 0]).is_kept(), bit > 3);
        assert_eq!(rt; entry([0, 0, set, 0]).is_kept(), bit < 4 || bit > 9);
        assert_eq!(rt; entry([0, 0, 0, set]).is_kept(), bit < 16 && bit != 6);
    }
}

#[test]
fn ws_names_three_words(rt: HostRuntime) -> Result<(), Fail> {
    let given = entry([1, 0x10, 0x20, 0x30]);
    for (ws, value) in [(0u32, 0x10), (1, 0x20), (2, 0x30)] {
        assert_eq!(rt; given.word(Word::try_from(ws)?), value);
    }
    for ws in [3u32, 4, 31, FULL] {
        assert_eq!(rt; Word::try_from(ws), Err(NoSuchWord));
    }
    Ok(())
}

//! Which entry an address matches.
use crate::setup::*;
use pages::{Pages, VirtualAddress};
use std::test::Fail;

/// SIZE, and the first and the last address of the page of that size around 0x12345400.
const SIZES: [(u32, u32, u32); 8] = [
    (0, 0x1234_5400, 0x1234_57FF),
    (1, 0x1234_5000, 0x1234_5FFF),
    (2, 0x1234_4000, 0x1234_7FFF),
    (3, 0x1234_0000, 0x1234_FFFF),
    (4, 0x1234_0000, 0x1237_FFFF),
    (5, 0x1230_0000, 0x123F_FFFF),
    (7, 0x1200_0000, 0x12FF_FFFF),
    (9, 0x1000_0000, 0x1FFF_FFFF),
];

#[test]
fn a_page_has_its_size(rt: HostRuntime) -> Result<(), Fail> {
    for (size, first, last) in &SIZES {
        let pages = only(17, entry([0, 0x1234_5600 | (*size << 4), 0, 0]))?;
        let rows = [
            (*first, Some(17)),
            (*last, Some(17)),
            (first.wrapping_sub(1), None),
            (last.wrapping_add(1), None),
        ];
        for (effective, found) in rows {
            assert_eq!(rt;
                pages.search(plain(effective)),
                found,
                "SIZE {size} at {effective}"
            );
        }
    }
    Ok(())
}

#[test]
fn other_sizes_never_match(rt: HostRuntime) -> Result<(), Fail> {
    for size in [6u32, 8, 10, 11, 12, 13, 14, 15] {
        let pages = only(0, entry([0, 0x1234_5600 | (size << 4), 0, 0x3F]))?;
        for effective in [
            0x1234_5400,
            0x1234_5600,
            0x1234_57FF,
            0,
            0x1200_0000,
            0xFFFF_FFFF,
        ] {
            assert_eq!(rt; pages.search(plain(effective)), None, "SIZE {size}");
        }
    }
    Ok(())
}

/// Word 0 of an entry for the first or the last page of 1 KiB, an address, and whether it matches.
const ENDS: [(u32, u32, bool); 8] = [
    (0x0000_0200, 0, true),
    (0x0000_0200, 0x3FF, true),
    (0x0000_0200, 0x400, false),
    (0x0000_0200, 0xFFFF_FFFF, false),
    (0xFFFF_FE00, 0xFFFF_FBFF, false),
    (0xFFFF_FE00, 0xFFFF_FC00, true),
    (0xFFFF_FE00, 0xFFFF_FFFF, true),
    (0xFFFF_FE00, 0, false),
];

#[test]
fn the_first_and_the_last_page_match(rt: HostRuntime) -> Result<(), Fail> {
    for (word0, effective, matches) in &ENDS {
        let pages = only(63, entry([0, *word0, 0, 0]))?;
        let found = matches.then_some(63);
        assert_eq!(rt; pages.search(plain(*effective)), found, "at {effective}");
    }
    Ok(())
}

/// TID and word 0 of an entry, then space and process of the address 0x00001234, and whether they match.
const CASES: [(u32, u32, bool, u32, bool); 14] = [
    // a page of 4 KiB of all processes
    (0x00, 0x0000_1210, false, 0x01, true),
    (0x00, 0x0000_1210, false, 0xFF, true),
    (0x00, 0x0000_1210, false, 0x00, true),
    // V is 0
    (0x00, 0x0000_1010, false, 0x01, false),
    (0x01, 0x0000_1110, true, 0x01, false),
    // the space
    (0x00, 0x0000_1210, true, 0x01, false),
    (0x00, 0x0000_1310, false, 0x01, false),
    (0x00, 0x0000_1310, true, 0x01, true),
    // the process
    (0x01, 0x0000_1210, false, 0x01, true),
    (0x01, 0x0000_1210, false, 0x02, false),
    (0x01, 0x0000_1210, false, 0x00, false),
    (0xFF, 0x0000_1210, false, 0xFF, true),
    (0xFF, 0x0000_1210, false, 0x1FF, false),
    // another page
    (0x00, 0x0000_2210, false, 0x01, false),
];

#[test]
fn valid_space_and_process_count(rt: HostRuntime) -> Result<(), Fail> {
    for (i, (tid, word0, space, pid, matches)) in CASES.iter().enumerate() {
        let pages = only(9, entry([*tid, *word0, 0, 0]))?;
        let address = VirtualAddress {
            space: *space,
            pid: *pid,
            effective: 0x1234,
        };
        let found = matches.then_some(9);
        assert_eq!(rt; pages.search(address), found, "case {i}");
    }
    Ok(())
}

/// A number and whether a small or a large page is put there, and where 0x00100123, in both, and 0x00101123, in the
/// large one, are then found.
const PUTS: [(u32, bool, Option<u32>, Option<u32>); 6] = [
    (63, true, Some(63), Some(63)),
    (7, false, Some(7), Some(63)),
    (9, false, Some(7), Some(63)),
    (3, true, Some(3), Some(3)),
    (0, false, Some(0), Some(3)),
    (1, true, Some(0), Some(1)),
];

#[test]
fn the_lowest_number_counts(rt: HostRuntime) -> Result<(), Fail> {
    let mut pages = Pages::empty();
    for (number, large, in_both, in_large) in &PUTS {
        let word0 = if *large { 0x0010_0250 } else { 0x0010_0210 };
        pages.put(*number, entry([0, word0, 0, 0]))?;
        assert_eq!(rt; pages.search(plain(0x0010_0123)), *in_both);
        assert_eq!(rt; pages.search(plain(0x0010_1123)), *in_large);
    }
    Ok(())
}

//! What an access to an address gets.
use crate::setup::*;
use pages::{Access, PageFault, Pages, Right, VirtualAddress};
use std::test::Fail;

const USER_FETCH: Right = Right {
    user: true,
    access: Access::Fetch,
};

const USER_LOAD: Right = Right {
    user: true,
    access: Access::Load,
};

const USER_STORE: Right = Right {
    user: true,
    access: Access::Store,
};

const SUPERVISOR_FETCH: Right = Right {
    user: false,
    access: Access::Fetch,
};

const SUPERVISOR_LOAD: Right = Right {
    user: false,
    access: Access::Load,
};

const SUPERVISOR_STORE: Right = Right {
    user: false,
    access: Access::Store,
};

/// SIZE, the first address of the page of that size around 0x12345400 and the real one that it is taken to by an entry
/// with RPN 0xABCDEC00 and ERPN 7, and the last address of the page with its real one.
const REALS: [(u32, u32, u64, u32, u64); 8] = [
    (0, 0x1234_5400, 0x7_ABCD_EC00, 0x1234_57FF, 0x7_ABCD_EFFF),
    (1, 0x1234_5000, 0x7_ABCD_E000, 0x1234_5FFF, 0x7_ABCD_EFFF),
    (2, 0x1234_4000, 0x7_ABCD_C000, 0x1234_7FFF, 0x7_ABCD_FFFF),
    (3, 0x1234_0000, 0x7_ABCD_0000, 0x1234_FFFF, 0x7_ABCD_FFFF),
    (4, 0x1234_0000, 0x7_ABCC_0000, 0x1237_FFFF, 0x7_ABCF_FFFF),
    (5, 0x1230_0000, 0x7_ABC0_0000, 0x123F_FFFF, 0x7_ABCF_FFFF),
    (7, 0x1200_0000, 0x7_AB00_0000, 0x12FF_FFFF, 0x7_ABFF_FFFF),
    (9, 0x1000_0000, 0x7_A000_0000, 0x1FFF_FFFF, 0x7_AFFF_FFFF),
];

#[test]
fn the_page_part_is_replaced(rt: HostRuntime) -> Result<(), Fail> {
    for (size, first, real_first, last, real_last) in &REALS {
        let pages = only(
            40,
            entry([1, 0x1234_5600 | (*size << 4), 0xABCD_EC07, 0x08]),
        )?;
        let rows = [
            (*first, Ok(*real_first)),
            (*last, Ok(*real_last)),
            (first.wrapping_sub(1), Err(PageFault::Miss)),
            (last.wrapping_add(1), Err(PageFault::Miss)),
        ];
        for (effective, gives) in rows {
            assert_eq!(rt;
                pages.translate(plain(effective), USER_LOAD),
                gives,
                "SIZE {size} at {effective}"
            );
        }
    }
    Ok(())
}

#[test]
fn the_upper_bits_are_erpn(rt: HostRuntime) -> Result<(), Fail> {
    for erpn in 0u32..16 {
        let pages = only(1, entry([0, 0x0000_0200, 0x8765_4400 | erpn, 0x3F]))?;
        let gives = Ok((u64::from(erpn) << 32) | 0x8765_4721);
        assert_eq!(rt; pages.translate(plain(0x321), SUPERVISOR_FETCH), gives);
    }
    Ok(())
}

/// The bit of word 2 that grants each right.
const RIGHTS: [(u32, Right); 6] = [
    (0x20, USER_FETCH),
    (0x10, USER_STORE),
    (0x08, USER_LOAD),
    (0x04, SUPERVISOR_FETCH),
    (0x02, SUPERVISOR_STORE),
    (0x01, SUPERVISOR_LOAD),
];

#[test]
fn each_right_grants_one_access_in_one_state(rt: HostRuntime) -> Result<(), Fail> {
    for (bit, right) in &RIGHTS {
        let one = only(0, entry([0, 0x0000_0210, 0x0000_5000, *bit]))?;
        let others = only(0, entry([0, 0x0000_0210, 0x0000_5000, 0xFFBF ^ *bit]))?;
        for (_, asked) in &RIGHTS {
            let (alone, among) = if asked == right {
                (Ok(0x5678), Err(PageFault::Denied))
            } else {
                (Err(PageFault::Denied), Ok(0x5678))
            };
            assert_eq!(rt;
                one.translate(plain(0x678), *asked),
                alone,
                "{right:?} alone for {asked:?}"
            );
            assert_eq!(rt;
                others.translate(plain(0x678), *asked),
                among,
                "all but {right:?} for {asked:?}"
            );
        }
    }
    Ok(())
}

#[test]
fn the_first_match_decides_even_if_it_denies(rt: HostRuntime) -> Result<(), Fail> {
    let mut pages = Pages::empty();
    pages.put(5, entry([0, 0x0000_0210, 0x0000_5000, 0x08]))?;
    pages.put(4, entry([0, 0x0000_0210, 0x0000_4000, 0x01]))?;
    let (user, supervisor) = both(&pages, 0x678);
    assert_eq!(rt; user, Err(PageFault::Denied));
    assert_eq!(rt; supervisor, Ok(0x4678));
    pages.put(4, entry([0, 0, 0, 0x3F]))?;
    let (user, supervisor) = both(&pages, 0x678);
    assert_eq!(rt; user, Ok(0x5678));
    assert_eq!(rt; supervisor, Err(PageFault::Denied));
    Ok(())
}

/// What a load gets in user state and in supervisor state.
fn both(pages: &Pages, effective: u32) -> (Result<u64, PageFault>, Result<u64, PageFault>) {
    (
        pages.translate(plain(effective), USER_LOAD),
        pages.translate(plain(effective), SUPERVISOR_LOAD),
    )
}

#[test]
fn space_and_process_of_the_address_count(rt: HostRuntime) -> Result<(), Fail> {
    let mut pages = Pages::empty();
    pages.put(0, entry([1, 0x0000_0210, 0x0000_1000, 0x3F]))?;
    pages.put(1, entry([2, 0x0000_0210, 0x0000_2000, 0x3F]))?;
    pages.put(2, entry([0, 0x0000_0310, 0x0000_3000, 0x3F]))?;
    let rows = [
        (false, 1, Ok(0x1004)),
        (false, 2, Ok(0x2004)),
        (false, 3, Err(PageFault::Miss)),
        (false, 0, Err(PageFault::Miss)),
        (true, 1, Ok(0x3004)),
        (true, 3, Ok(0x3004)),
    ];
    for (space, pid, gives) in rows {
        let address = VirtualAddress {
            space,
            pid,
            effective: 4,
        };
        assert_eq!(rt; pages.translate(address, USER_STORE), gives);
    }
    Ok(())
}

#[test]
fn the_megabyte_page_ends_at_the_next_megabyte(rt: HostRuntime) -> Result<(), Fail> {
    let pages = only(0, entry([0, 0x0010_0250, 0x0030_0001, 0x3F]))?;
    let rows = [
        (0x001A_BCDE, Ok(0x1_003A_BCDE)),
        (0x0020_0000, Err(PageFault::Miss)),
        (0x000F_FFFF, Err(PageFault::Miss)),
    ];
    for (effective, gives) in rows {
        assert_eq!(rt; pages.translate(plain(effective), USER_LOAD), gives);
    }
    Ok(())
}

#[test]
fn an_empty_table_misses(rt: HostRuntime) {
    let pages = Pages::empty();
    for effective in [0, 1, 0x0010_0000, 0x8000_0000, 0xFFFF_FFFF] {
        for (_, right) in &RIGHTS {
            assert_eq!(rt;
                pages.translate(plain(effective), *right),
                Err(PageFault::Miss)
            );
        }
    }
}

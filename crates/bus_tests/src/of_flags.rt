//! The flag page.
use crate::table::*;
use bus::{ABSENT, MALFORMED};
use flags::{FlagPage, NO_SUCH_WORD, NOT_A_WORD};

#[test]
fn writes_clear_flags_and_store_enable(rt: HostRuntime) {
    let rows = [
        reads(0x1000, 4, 0xFF00_00FF, [0xFF, 0, 0, 0xFF]),
        reads(0x1004, 4, 0, [0; 4]),
        writes(0x1000, 4, 0x0F00_000F, [0xF0, 0, 0, 0xF0]),
        writes(0x1000, 4, 0, [0xF0, 0, 0, 0xF0]),
        writes(0x1000, 4, 0x00FF_FF00, [0xF0, 0, 0, 0xF0]),
        writes(0x1004, 4, 0x1234_5678, [0x12, 0x34, 0x56, 0x78]),
        writes(0x1004, 4, 0x0000_0001, [0, 0, 0, 1]),
        reads(0x1000, 4, 0xF000_00F0, [0xF0, 0, 0, 0xF0]),
        writes(0x1000, 4, 0xFFFF_FFFF, [0; 4]),
        reads(0x1004, 4, 1, [0, 0, 0, 1]),
    ];
    play(&rt, &mut FlagPage::new(4, 0xFF00_00FF), &rows);
}

#[test]
fn flags_go_bit_by_bit(rt: HostRuntime) {
    let mut page = FlagPage::new(0, 0xFFFF_FFFF);
    for i in 0..32u32 {
        let left = 0xFFFF_FFFEu32 << i;
        play(&rt, &mut page, &[writes(0, 4, 1 << i, left.to_be_bytes())]);
    }
    play(&rt, &mut page, &[reads(0, 4, 0, [0; 4])]);
}

#[test]
fn denials_come_in_order(rt: HostRuntime) {
    let flags = [0, 0, 0, 7];
    let rows = [
        // every width
        no_read(0x1000, 0, MALFORMED, flags),
        no_read(0x1000, 1, NOT_A_WORD, flags),
        no_write(0x1000, 2, NOT_A_WORD, flags),
        no_read(0x1000, 3, MALFORMED, flags),
        reads(0x1000, 4, 7, flags),
        no_write(0x1000, 5, MALFORMED, flags),
        // not aligned, before the width and the word
        no_read(0x1001, 2, MALFORMED, flags),
        no_write(0x1002, 4, MALFORMED, flags),
        no_write(0x100A, 4, MALFORMED, [0; 4]),
        // the width before the word
        no_write(0x1004, 2, NOT_A_WORD, [0; 4]),
        no_read(0x1008, 1, NOT_A_WORD, [0; 4]),
        no_write(0x13FE, 2, NOT_A_WORD, [0; 4]),
        no_write(0x1008, 4, NO_SUCH_WORD, [0; 4]),
        no_read(0x13FC, 4, NO_SUCH_WORD, [0; 4]),
        // another frame, before the width
        no_read(0x0FFF, 1, ABSENT, [0; 4]),
        no_write(0x1400, 2, ABSENT, [0; 4]),
        no_write(0x0000, 4, ABSENT, [0; 4]),
        no_read(0x10_0000_1000, 4, MALFORMED, [0; 4]),
    ];
    play(&rt, &mut FlagPage::new(4, 7), &rows);
}

#[test]
fn pages_at_the_end_and_past_it(rt: HostRuntime) {
    let last = [
        writes(0xF_FFFF_FC00, 4, 1, [0, 0, 0, 2]),
        writes(0xF_FFFF_FC04, 4, 5, [0, 0, 0, 5]),
        no_read(0xF_FFFF_FFFC, 4, NO_SUCH_WORD, [0; 4]),
        no_read(0x10_0000_0000, 4, MALFORMED, [0; 4]),
    ];
    play(&rt, &mut FlagPage::new(0x3FF_FFFF, 3), &last);
    let none = [
        no_read(0xF_FFFF_FC00, 4, ABSENT, [0; 4]),
        no_write(0x10_0000_0000, 4, MALFORMED, [0; 4]),
        no_write(0, 4, ABSENT, [0; 4]),
    ];
    play(&rt, &mut FlagPage::new(0x400_0000, 3), &none);
    play(&rt, &mut FlagPage::new(u64::MAX, 3), &none);
}

//! Plain memory.
use crate::table::*;
use bus::{ABSENT, MALFORMED};
use memory::Memory;

#[test]
fn values_stand_big_endian(rt: HostRuntime) {
    let mut bytes = [0; 1024];
    let rows = [
        writes(0x000, 4, 0x1234_5678, [0x12, 0x34, 0x56, 0x78]),
        reads(0x000, 4, 0x1234_5678, [0x12, 0x34, 0x56, 0x78]),
        reads(0x000, 2, 0x1234, [0x12, 0x34, 0x56, 0x78]),
        reads(0x002, 2, 0x5678, [0x12, 0x34, 0x56, 0x78]),
        reads(0x000, 1, 0x12, [0x12, 0x34, 0x56, 0x78]),
        reads(0x003, 1, 0x78, [0x12, 0x34, 0x56, 0x78]),
        writes(0x002, 2, 0xABCD, [0x12, 0x34, 0xAB, 0xCD]),
        writes(0x001, 1, 0xEF, [0x12, 0xEF, 0xAB, 0xCD]),
        // of a value only as many bytes count as the access has
        writes(0x000, 1, 0xFFFF_FF00, [0x00, 0xEF, 0xAB, 0xCD]),
        writes(0x000, 2, 0xFFFF_0102, [0x01, 0x02, 0xAB, 0xCD]),
        reads(0x004, 4, 0, [0; 4]),
    ];
    play(&rt, &mut Memory::new(0, &mut bytes), &rows);
}

#[test]
fn every_width_and_misalignment(rt: HostRuntime) {
    let mut bytes = [0x11; 1024];
    let same = [0x11; 4];
    // 60 is a multiple of each width but 0
    let rows = [
        no_read(60, 0, MALFORMED, same),
        reads(60, 1, 0x11, same),
        reads(60, 2, 0x1111, same),
        no_read(60, 3, MALFORMED, same),
        reads(60, 4, 0x1111_1111, same),
        no_read(60, 5, MALFORMED, same),
        no_write(60, 0, MALFORMED, same),
        no_write(60, 3, MALFORMED, same),
        no_write(60, 5, MALFORMED, same),
        no_read(60, u32::MAX, MALFORMED, same),
        no_read(61, 2, MALFORMED, same),
        no_write(63, 2, MALFORMED, same),
        no_read(61, 4, MALFORMED, same),
        no_write(62, 4, MALFORMED, same),
        no_write(63, 4, MALFORMED, same),
        // in an absent frame too, 254 comes first
        no_read(0x401, 2, MALFORMED, [0; 4]),
        no_read(0x400, 3, MALFORMED, [0; 4]),
    ];
    play(&rt, &mut Memory::new(0, &mut bytes), &rows);
    holds(&rt, &bytes, &[], 0x11);
}

#[test]
fn only_whole_frames_of_the_window(rt: HostRuntime) {
    // frames 2 and 3, and 100 bytes of frame 4
    let mut bytes = [0x5A; 2148];
    let mut memory = Memory::new(2, &mut bytes);
    let rows = [
        no_read(0x000, 1, ABSENT, [0; 4]),
        no_read(0x7FC, 4, ABSENT, [0; 4]),
        no_write(0x7FF, 1, ABSENT, [0; 4]),
        writes(0x800, 1, 0xA1, [0xA1, 0x5A, 0x5A, 0x5A]),
        writes(0xBFE, 2, 0x0B0C, [0x5A, 0x5A, 0x0B, 0x0C]),
        reads(0xC00, 4, 0x5A5A_5A5A, [0x5A; 4]),
        // the last word and the last byte of the last whole frame
        writes(0xFFC, 4, 0x0102_0304, [1, 2, 3, 4]),
        writes(0xFFF, 1, 0xFF, [1, 2, 3, 0xFF]),
        // the part of a frame behind it
        no_read(0x1000, 1, ABSENT, [0; 4]),
        no_write(0x1000, 4, ABSENT, [0; 4]),
        no_write(0x1060, 4, ABSENT, [0; 4]),
        no_read(0x1064, 4, ABSENT, [0; 4]),
    ];
    play(&rt, &mut memory, &rows);
    let listed = [
        (0x000, 0xA1),
        (0x3FE, 0x0B),
        (0x3FF, 0x0C),
        (0x7FC, 1),
        (0x7FD, 2),
        (0x7FE, 3),
        (0x7FF, 0xFF),
    ];
    holds(&rt, memory.bytes(), &listed, 0x5A);
    holds(&rt, memory.into_bytes(), &listed, 0x5A);
}

#[test]
fn the_last_frame_that_there_is(rt: HostRuntime) {
    // frame 2^26 - 1, and one frame too many
    let mut bytes = [0; 2048];
    let mut memory = Memory::new(0x3FF_FFFF, &mut bytes);
    let rows = [
        no_read(0xF_FFFF_FBFF, 1, ABSENT, [0; 4]),
        writes(0xF_FFFF_FC00, 2, 0x0708, [7, 8, 0, 0]),
        writes(0xF_FFFF_FFFF, 1, 0x99, [0, 0, 0, 0x99]),
        reads(0xF_FFFF_FFFE, 2, 0x0099, [0, 0, 0, 0x99]),
        reads(0xF_FFFF_FFFC, 4, 0x0000_0099, [0, 0, 0, 0x99]),
        no_read(0x10_0000_0000, 1, MALFORMED, [0; 4]),
        no_write(0x10_0000_0000, 4, MALFORMED, [0; 4]),
        no_write(0x10_0000_03FF, 1, MALFORMED, [0; 4]),
        no_read(u64::MAX, 1, MALFORMED, [0; 4]),
    ];
    play(&rt, &mut memory, &rows);
    holds(&rt, &bytes, &[(0, 7), (1, 8), (0x3FF, 0x99)], 0);
}

#[test]
fn windows_without_a_frame(rt: HostRuntime) {
    let mut bytes = [0x33; 1024];
    let mut few = [0x33; 1023];
    let rows = [
        no_read(0, 1, ABSENT, [0; 4]),
        no_write(0, 4, ABSENT, [0; 4]),
        no_write(0xF_FFFF_FC00, 4, ABSENT, [0; 4]),
        no_write(0x10_0000_0000, 4, MALFORMED, [0; 4]),
    ];
    play(&rt, &mut Memory::new(0, &mut []), &rows);
    play(&rt, &mut Memory::new(0, &mut few), &rows);
    play(&rt, &mut Memory::new(0x400_0000, &mut bytes), &rows);
    play(&rt, &mut Memory::new(u64::MAX, &mut bytes), &rows);
    holds(&rt, &few, &[], 0x33);
    holds(&rt, &bytes, &[], 0x33);
}

//! Buses joined.
use crate::table::*;
use bus::{ABSENT, Joined, MALFORMED};
use flags::{FlagPage, NO_SUCH_WORD, NOT_A_WORD};
use memory::Memory;

#[test]
fn the_left_hides_the_right(rt: HostRuntime) {
    // the page stands where the memory has its second frame
    let mut bytes = [0x22; 3072];
    let mut board = Joined::new(FlagPage::new(1, 6), Memory::new(0, &mut bytes));
    let rows = [
        writes(0x3FF, 1, 0x44, [0x22, 0x22, 0x22, 0x44]),
        writes(0x400, 4, 2, [0, 0, 0, 4]),
        // what the left denies with another code than 1 does not go to the right
        no_read(0x400, 1, NOT_A_WORD, [0, 0, 0, 4]),
        no_write(0x408, 4, NO_SUCH_WORD, [0; 4]),
        no_write(0x402, 4, MALFORMED, [0, 0, 0, 4]),
        writes(0x800, 2, 0x5566, [0x55, 0x66, 0x22, 0x22]),
        // absent on both sides
        no_read(0xC00, 1, ABSENT, [0; 4]),
        no_write(0xC00, 4, ABSENT, [0; 4]),
        no_write(0xF_FFFF_FFFC, 4, ABSENT, [0; 4]),
        no_read(0x10_0000_0000, 4, MALFORMED, [0; 4]),
    ];
    play(&rt, &mut board, &rows);
    holds(
        &rt,
        &bytes,
        &[(0x3FF, 0x44), (0x800, 0x55), (0x801, 0x66)],
        0x22,
    );
}

/// Frames 0 and 1 are the first memory's, 2 is the page, 3 is the second memory's, and all others are absent:
/// of the second memory, which begins at frame 1, the first two frames are hidden.
fn rows_of_three() -> [Row; 16] {
    [
        writes(0x000, 4, 0x0102_0304, [1, 2, 3, 4]),
        writes(0x7FF, 1, 0x0A, [0xAA, 0xAA, 0xAA, 0x0A]),
        reads(0x400, 2, 0xAAAA, [0xAA; 4]),
        reads(0x800, 4, 0xFF, [0, 0, 0, 0xFF]),
        writes(0x800, 4, 0x0F, [0, 0, 0, 0xF0]),
        writes(0x804, 4, 0x8000_0000, [0x80, 0, 0, 0]),
        no_read(0x800, 2, NOT_A_WORD, [0, 0, 0, 0xF0]),
        no_write(0xBFC, 4, NO_SUCH_WORD, [0; 4]),
        reads(0xC00, 1, 0xBB, [0xBB; 4]),
        writes(0xFFC, 4, 0x0506_0708, [5, 6, 7, 8]),
        no_read(0x1000, 4, ABSENT, [0; 4]),
        no_write(0x1000, 1, ABSENT, [0; 4]),
        no_write(0xF_FFFF_FC00, 4, ABSENT, [0; 4]),
        no_write(0x10_0000_0000, 4, MALFORMED, [0; 4]),
        no_write(0xC01, 2, MALFORMED, [0xBB; 4]),
        no_read(0xC00, 3, MALFORMED, [0xBB; 4]),
    ]
}

fn first_memory() -> [(usize, u8); 5] {
    [(0, 1), (1, 2), (2, 3), (3, 4), (0x7FF, 0x0A)]
}

fn second_memory() -> [(usize, u8); 4] {
    [(0xBFC, 5), (0xBFD, 6), (0xBFE, 7), (0xBFF, 8)]
}

#[test]
fn three_buses(rt: HostRuntime) {
    let mut low = [0xAA; 2048];
    let mut high = [0xBB; 3072];
    let left = Joined::new(Memory::new(0, &mut low), FlagPage::new(2, 0xFF));
    let mut board = Joined::new(left, Memory::new(1, &mut high));
    play(&rt, &mut board, &rows_of_three());
    holds(&rt, &low, &first_memory(), 0xAA);
    holds(&rt, &high, &second_memory(), 0xBB);
}

#[test]
fn three_buses_joined_the_other_way(rt: HostRuntime) {
    let mut low = [0xAA; 2048];
    let mut high = [0xBB; 3072];
    let right = Joined::new(FlagPage::new(2, 0xFF), Memory::new(1, &mut high));
    let mut board = Joined::new(Memory::new(0, &mut low), right);
    play(&rt, &mut board, &rows_of_three());
    // the memory is taken out of the board, and its bytes out of the memory
    let Joined { left, right: _ } = board;
    holds(&rt, left.into_bytes(), &first_memory(), 0xAA);
    holds(&rt, &high, &second_memory(), 0xBB);
}

//! A board at work: memory and a flag page as one bus, an image's data written to it and read back.
#![tactic(auto)]

mod data;
mod flag_page;

use bus::{FRAME, Joined};
use console::Verdict;
use data::load;
use describe::Count;
use flag_page::show_flags;
use flags::FlagPage;
use image::Reader;
use memory::Memory;
use std::io;
use std::process::ExitCode;

const USAGE: &str = "\
usage: board < IMAGE
Writes the data of a firmware image, which stands as hexadecimal text on standard
input, to a board of memory and a flag page, and lists what the board then holds.
The status is 0 if the image is sound and every byte is written, and else 1.
";

// The memory has the frames below this one.
const MEMORY_FRAMES: usize = 32;

const MEMORY_BYTES: usize = MEMORY_FRAMES * FRAME as usize;

// The frame of the flag page, and what its word FLAGS is at first.
const FLAG_FRAME: u64 = 64;

const FIRST_FLAGS: u32 = 0xD;

fn main(rt: HostRuntime) -> ExitCode {
    console::run(&rt, USAGE, |reader| show_board(&rt, reader))
}

// Shows a board at work on an image.
fn show_board(rt: &impl Print, reader: Reader) -> io::Result<Verdict> {
    let mut bytes = [0; MEMORY_BYTES];
    let memory = Memory::new(0, &mut bytes);
    let page = FlagPage::new(FLAG_FRAME, FIRST_FLAGS);
    let mut board = Joined::new(memory, page);
    let flags = FLAG_FRAME * FRAME + flags::FLAGS;
    println!(rt;
        "memory at 0x000000000, {MEMORY_FRAMES} frames; flag page at 0x{:09X}",
        FLAG_FRAME * FRAME
    )?;
    let loaded = load(rt, &mut board, reader)?;
    show_flags(rt, &mut board, flags)?;
    let count = Count {
        number: loaded.bytes,
        noun: "byte",
    };
    println!(rt; "{count} written")?;
    Ok(loaded.verdict)
}

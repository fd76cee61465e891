//! Prints values that are known from the architecture, as the program computes them.
#![tactic(auto)]

use isa::decode;
use pages::{Access, Entry, PageFault, Pages, Right, VirtualAddress};
use std::io;
use word::shift::leading_zeros;

/// A table whose first entry has the words 0x00100250 and 0x00300001, and all rights.
fn table() -> Pages {
    let mut pages = Pages::empty();
    pages.entries[0] = Entry {
        tid: 0,
        word0: 0x0010_0250,
        word1: 0x0030_0001,
        word2: 0x3F,
    };
    pages
}

/// What a load from an address gets in user state.
fn load(pages: &Pages, effective: u32) -> Result<u64, PageFault> {
    pages.translate(
        VirtualAddress {
            space: false,
            pid: 1,
            effective,
        },
        Right {
            user: true,
            access: Access::Load,
        },
    )
}

fn main(rt: HostRuntime) -> io::Result<()> {
    println!(rt; "cntlzw 0x00010000: {}", leading_zeros(0x0001_0000))?;
    let word = if decode(0x4400_0000).is_some() {
        "legal"
    } else {
        "illegal"
    };
    println!(rt; "0x44000000: {word}")?;
    let pages = table();
    match load(&pages, 0x0020_0000) {
        Ok(address) => println!(rt; "0x00200000: 0x{address:09X}"),
        Err(PageFault::Miss) => println!(rt; "0x00200000: miss"),
        Err(PageFault::Denied) => println!(rt; "0x00200000: denied"),
    }
}

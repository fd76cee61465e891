//! Lists a firmware image: its records in words, and its data as instructions.
#![tactic(auto)]

use console::Verdict;
use describe::{Count, Described};
use image::Reader;
use std::io;
use std::process::ExitCode;

const USAGE: &str = "\
usage: listing < IMAGE
Lists a firmware image, which stands as hexadecimal text on standard input.
White space is free. The status is 0 for a sound image, and 1 for another.
";

fn main(rt: HostRuntime) -> ExitCode {
    console::run(&rt, USAGE, |reader| list(&rt, reader))
}

// Prints the records that a reader hands out, up to the first fault, and their number.
fn list(rt: &impl Print, reader: Reader) -> io::Result<Verdict> {
    // Counted by hand: `count` would count a refusal too, and takes the records without printing them.
    let mut number = 0;
    for found in reader {
        // The board has such a match too, which is all that the two share: they differ in what they do with a record and at the end.
        match found {
            Ok(record) => println!(rt; "{}", Described(record))?,
            Err(refusal) => return console::refuse(rt, refusal),
        }
        number += 1;
    }
    let count = Count {
        number,
        noun: "record",
    };
    println!(rt; "{count}")?;
    Ok(Verdict::Sound)
}

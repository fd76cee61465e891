// Every number of a special purpose register, read and written, and the registers that are kept as parts of a word.
use crate::bench::{PLAIN, SHOWN};
use cpu::deed::{Deed, Privileged};
use cpu::registers::{Msr, Working, Xer};
use isa::decode;
use std::process::Abort;
use std::test::Fail;

#[test]
fn every_number_is_read_or_refused(rt: HostRuntime) -> Result<(), Fail> {
    every_number(
        &rt,
        0x7C60_02A6,
        read,
        |number| Privileged::ReadSpecial { rt: 3, number },
    )
}

#[test]
fn every_number_is_written_or_refused(rt: HostRuntime) -> Result<(), Fail> {
    every_number(&rt, 0x7C60_03A6, written, |number| {
        Privileged::WriteSpecial {
            number,
            value: 0xA000_0003,
        }
    })
}

#[test]
fn msr_and_xer_keep_their_bits(rt: HostRuntime) {
    for bit in 0u32..32 {
        let word = 1u32 << bit;
        let msr = matches!(bit, 4 | 5 | 9 | 12 | 14 | 15 | 17);
        assert_eq!(rt; u32::from(Msr::from(word)), if msr { word } else { 0 });
        let xer = matches!(bit, 0..=6 | 29..=31);
        assert_eq!(rt; u32::from(Xer::from(word)), if xer { word } else { 0 });
    }
    assert!(rt; Msr::from(0x4000).pr);
    assert!(rt; Xer::from(0x2000_0000).ca);
}

/// Moves register 3 from or to every number: where both states know it, it is done and leaves the registers told; else it
/// is the privileged deed told, or illegal.
fn every_number<K: Fn(u32) -> Option<Working>, P: Fn(u32) -> Privileged>(
    rt: &impl Abort,
    word: u32,
    known: K,
    privileged: P,
) -> Result<(), Fail>
    requires known { K.IsAlwaysCallable known }
    requires privileged { P.IsAlwaysCallable privileged }
{
    for number in 0u32..1024 {
        let instruction = decode(moving(word, number)).ok_or("every number is a word")?;
        let mut working = PLAIN;
        let deed = working.perform(&SHOWN, instruction);
        let (left, expected) = match known(number) {
            Some(after) => (
                Deed::Finished,
                Working {
                    pc: 0x1004,
                    ..after
                },
            ),
            None if is_privileged(number) => (Deed::Privileged(privileged(number)), PLAIN),
            None => (Deed::Illegal, PLAIN),
        };
        assert_eq!(rt; deed, left, "{number}");
        assert_eq!(rt; working, expected, "{number}");
    }
    Ok(())
}

/// A move of register 3 with the number of a special purpose register, whose halves change places in the word.
fn moving(word: u32, number: u32) -> u32 {
    word | (number % 32) << 16 | (number / 32 % 32) << 11
}

fn is_privileged(number: u32) -> bool {
    number & 0x10 != 0
}

/// `PLAIN` with the word of a number in register 3, where there is one that user state may read.
fn read(number: u32) -> Option<Working> {
    let value = match number {
        1 => 0x0000_0055,
        8 => 0xB000_0003,
        9 => 0xC000_0002,
        256 => 0xD000_0001,
        260 => 0xE000_0004,
        261 => 0xE000_0005,
        262 => 0xE000_0006,
        263 => 0xE000_0007,
        _ => return None,
    };
    let mut working = PLAIN;
    working.gpr[3] = value;
    Some(working)
}

/// `PLAIN` with its register 3 in the register of a number, where there is one that user state may write.
fn written(number: u32) -> Option<Working> {
    let value = 0xA000_0003;
    match number {
        1 => Some(Working {
            xer: Xer {
                so: true,
                ov: false,
                ca: true,
                count: 3,
            },
            ..PLAIN
        }),
        8 => Some(Working { lr: value, ..PLAIN }),
        9 => Some(Working {
            ctr: value,
            ..PLAIN
        }),
        256 => Some(Working {
            usprg0: value,
            ..PLAIN
        }),
        _ => None,
    }
}

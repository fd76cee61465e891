//! The special purpose registers in supervisor state: which there are, and the bits that each keeps.
use core465::hidden::Hidden;
use core465::{Core, IllegalDeed};
use cpu::deed::Privileged;
use cpu::registers::{Shown, Working};

/// The bits that a register keeps, by its number; none where supervisor state knows no such register by a privileged
/// number.
fn kept(number: u32) -> Option<u32> {
    match number {
        26 => Some(0xFFFF_FFFC),
        27 => Some(0x0002_D230),
        48 => Some(0x0000_00FF),
        61 => Some(0xFFFF_FFFF),
        62 => Some(0x0E80_0000),
        63 => Some(0xFFFF_0000),
        272..=279 => Some(0xFFFF_FFFF),
        400..=415 => Some(0x0000_FFF0),
        946 => Some(0x0001_00FF),
        _ => None,
    }
}

/// A value written to a register and read back into register 7.
fn through(number: u32, value: u32) -> Result<u32, IllegalDeed> {
    let mut core = Core::new();
    core.carry_out(Privileged::WriteSpecial { number, value })?;
    core.carry_out(Privileged::ReadSpecial { rt: 7, number })?;
    Ok(core.working().word(7))
}

#[test]
fn every_number_keeps_its_bits(runtime: HostRuntime) {
    for number in 0..1024u32 {
        for value in [0xFFFF_FFFFu32, 0x0000_0000, 0x5A5A_5A5A, 0xA5A5_A5A5] {
            let expected = kept(number).map(|bits| value & bits);
            assert_eq!(runtime; through(number, value).ok(), expected);
        }
    }
}

/// No register but the one written changes, of those that can be read.
#[test]
fn a_write_changes_one_register(runtime: HostRuntime) {
    for written in 0..1024u32 {
        let mut core = Core::new();
        let write = Privileged::WriteSpecial {
            number: written,
            value: 0xFFFF_FFFF,
        };
        assert_eq!(runtime; core.carry_out(write).is_ok(), kept(written).is_some());
        for number in 0..1024u32 {
            if core
                .carry_out(Privileged::ReadSpecial { rt: 3, number })
                .is_ok()
            {
                let value = core.working().word(3);
                assert_eq!(runtime; value != 0, number == written);
            }
        }
    }
}

#[test]
fn a_new_core_is_zero(runtime: HostRuntime) {
    for number in 0..1024u32 {
        let mut core = Core::new();
        let read = core.carry_out(Privileged::ReadSpecial { rt: 1, number });
        assert_eq!(runtime; read.is_ok(), kept(number).is_some());
        assert_eq!(runtime; core.working().word(1), 0);
    }
    let core = Core::new();
    assert_eq!(runtime; core.working(), Working::default());
    assert_eq!(runtime; core.shown(), Shown::default());
    assert_eq!(runtime; core.hidden(), Hidden::default());
    assert_eq!(runtime; core.working().pc, 0);
    assert!(runtime; !core.shown().line && !core.working().reserved);
    assert_eq!(runtime; u32::from(core.shown().msr), 0);
}

//! Bytes written to a board of memory and a flag page.
use bus::{Bus, Code, Joined};
use flags::FlagPage;
use memory::Memory;
use placing::{Denied, place};
use std::test::*;

fn denied(address: u64, code: Code) -> Result<(), Denied> {
    Err(Denied { address, code })
}

// Two frames of memory from address 0 on, and a flag page at 0x1000.
#[test]
fn bytes_stand_where_they_were_written(rt: HostRuntime) -> Result<(), Fail> {
    let mut bytes = [0; 2048];
    let mut board = Joined::new(Memory::new(0, &mut bytes), FlagPage::new(4, 0xD));
    assert_eq!(rt; place(&mut board, 0x3FE, &[1, 2, 3, 4]), Ok(()));
    assert_eq!(rt; board.read(0x3FC, 4), Ok(0x0000_0102));
    assert_eq!(rt; board.read(0x400, 4), Ok(0x0304_0000));
    assert_eq!(rt; place(&mut board, 0x1_0000, &[]), Ok(()));
    Ok(())
}

#[test]
fn writing_stops_at_the_first_denial(rt: HostRuntime) -> Result<(), Fail> {
    let mut bytes = [0; 2048];
    let mut board = Joined::new(Memory::new(0, &mut bytes), FlagPage::new(4, 0xD));
    assert_eq!(rt; place(&mut board, 0x7FE, &[1, 2, 3, 4]), denied(0x800, 1));
    assert_eq!(rt; board.read(0x7FC, 4), Ok(0x0000_0102));
    assert_eq!(rt; place(&mut board, 0x1000, &[1]), denied(0x1000, 3));
    assert_eq!(rt; board.read(0x1000, 4), Ok(0xD));
    assert_eq!(rt; place(&mut board, 1 << 36, &[1]), denied(1 << 36, 254));
    assert_eq!(rt; place(&mut board, u64::MAX, &[1, 2]), denied(u64::MAX, 254));
    Ok(())
}

#[test]
fn a_denial_says_where_and_which(rt: HostRuntime) -> Result<(), Fail> {
    let denied = Denied {
        address: 0x800,
        code: 1,
    };
    assert_eq!(rt;
        format!(in rt.alloc(); "{denied}")?.as_str(),
        "0x000000800 denied with code 1"
    );
    Ok(())
}

//! The privileged deeds, one after another on one core.
use core465::{Core, IllegalDeed};
use cpu::deed::Privileged;
use std::test::Fail;

/// mtspr.
fn write_special(core: &mut Core, number: u32, value: u32) -> Result<(), IllegalDeed> {
    core.carry_out(Privileged::WriteSpecial { number, value })
}

/// tlbwe.
fn write_entry(core: &mut Core, entry: u32, word: u32, value: u32) -> Result<(), IllegalDeed> {
    core.carry_out(Privileged::WriteEntry { entry, word, value })
}

/// tlbre to register 5.
fn read_entry(core: &mut Core, entry: u32, word: u32) -> Result<(), IllegalDeed> {
    core.carry_out(Privileged::ReadEntry { rt: 5, entry, word })
}

/// tlbsx.
fn search(core: &mut Core, rt: u32, address: u32, rc: bool) -> Result<(), IllegalDeed> {
    core.carry_out(Privileged::SearchEntries { rt, address, rc })
}

/// TID and the three words of an entry.
fn words(core: &Core, number: u32) -> [u32; 4] {
    let entry = core.entry(number);
    [entry.tid, entry.word0, entry.word1, entry.word2]
}

/// MSR 0x2D230 holds every bit that there is, and nothing else is kept.
#[test]
fn msr_keeps_its_bits(runtime: HostRuntime) -> Result<(), Fail> {
    let mut core = Core::new();
    core.carry_out(Privileged::WriteMsr { value: 0xFFFF_FFFF })?;
    core.carry_out(Privileged::ReadMsr { rt: 4 })?;
    assert_eq!(runtime; core.working().word(4), 0x0002_D230);
    core.carry_out(Privileged::WriteExternalEnable { enable: false })?;
    assert_eq!(runtime; u32::from(core.shown().msr), 0x0002_5230);
    core.carry_out(Privileged::WriteExternalEnable { enable: true })?;
    assert_eq!(runtime; u32::from(core.shown().msr), 0x0002_D230);
    assert_eq!(runtime; core.working().pc, 16);
    Ok(())
}

/// rfi goes on at SRR0 with SRR1 as the MSR.
#[test]
fn return_restores(runtime: HostRuntime) -> Result<(), Fail> {
    let mut core = Core::new();
    write_special(&mut core, 26, 0x1237)?;
    write_special(&mut core, 27, 0x4000)?;
    core.carry_out(Privileged::Return)?;
    assert_eq!(runtime; core.working().pc, 0x1234);
    assert!(runtime; core.shown().msr.pr);
    assert_eq!(runtime; u32::from(core.shown().msr), 0x4000);
    Ok(())
}

/// tlbwe writes one word of one entry; word 0 takes TID from STID, and tlbre gives it back.
#[test]
fn entries_word_by_word(runtime: HostRuntime) -> Result<(), Fail> {
    let mut core = Core::new();
    write_special(&mut core, 946, 0x0001_0007)?;
    write_entry(&mut core, 63, 0, 0xFFFF_FFFF)?;
    write_special(&mut core, 946, 0x0001_0009)?;
    write_entry(&mut core, 63, 1, 0xFFFF_FFFF)?;
    write_entry(&mut core, 63, 2, 0xFFFF_FFFF)?;
    assert_eq!(runtime;
        words(&core, 63),
        [7, 0xFFFF_FFF0, 0xFFFF_FC0F, 0x0000_FFBF]
    );
    assert_eq!(runtime; words(&core, 62), [0; 4]);
    assert_eq!(runtime; words(&core, 0), [0; 4]);
    read_entry(&mut core, 63, 1)?;
    assert_eq!(runtime; core.working().word(5), 0xFFFF_FC0F);
    assert_eq!(runtime; core.hidden().mmucr.stid, 9);
    read_entry(&mut core, 63, 0)?;
    assert_eq!(runtime; core.working().word(5), 0xFFFF_FFF0);
    assert_eq!(runtime; core.hidden().mmucr.stid, 7);
    assert!(runtime; core.hidden().mmucr.sts);
    assert_eq!(runtime; write_entry(&mut core, 63, 3, 0), Err(IllegalDeed));
    Ok(())
}

/// A core with a page of 4 KiB at 0x1000 for task 7 in space 1, as entry 9.
fn paged() -> Result<Core, IllegalDeed> {
    let mut core = Core::new();
    write_special(&mut core, 946, 0x0001_0007)?;
    write_entry(&mut core, 9, 0, 0x0000_1310)?;
    Ok(core)
}

/// tlbsx gives the number of the first match with STS and STID; without one the register stays. tlbsx. tells in CR0.
#[test]
fn searches(runtime: HostRuntime) -> Result<(), Fail> {
    let mut core = paged()?;
    search(&mut core, 3, 0x1FFF, true)?;
    assert_eq!(runtime; core.working().word(3), 9);
    assert_eq!(runtime; core.working().cr, 0x2000_0000);
    search(&mut core, 3, 0x2000, true)?;
    assert_eq!(runtime; core.working().word(3), 9);
    assert_eq!(runtime; core.working().cr, 0);
    write_special(&mut core, 946, 0x0000_0007)?;
    search(&mut core, 4, 0x1000, false)?;
    assert_eq!(runtime; core.working().word(4), 0);
    write_special(&mut core, 946, 0x0001_0008)?;
    search(&mut core, 4, 0x1000, false)?;
    assert_eq!(runtime; core.working().word(4), 0);
    core.carry_out(Privileged::Synchronize)?;
    assert_eq!(runtime; core.working().pc, 36);
    Ok(())
}

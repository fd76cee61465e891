// Loads and stores, and what they leave once the access is made.
use crate::bench::run;
use std::test::Fail;

const ROWS: [&str; 50] = [
    // loads: the address wraps, register 0 stands for zero, halves are extended or not
    "88640005 lbz r3,5(r4) | r4=2000 | load 1 at 00002005 = FF | r3=FF",
    "8860FFFF lbz r3,-1(r0) | r0=7 | load 1 at FFFFFFFF = 80 | r3=80",
    "8C640001 lbzu r3,1(r4) | r4=2000 | load 1 at 00002001 = 0 | r3=0 r4=2001",
    "7C6428AE lbzx r3,r4,r5 | r4=2000 r5=FFFFFFFF | load 1 at 00001FFF = 12 | r3=12",
    "7C6028AE lbzx r3,r0,r5 | r0=7 r5=2000 | load 1 at 00002000 = 1 | r3=1",
    "7C6428EE lbzux r3,r4,r5 | r4=FFFFFFFF r5=2 | load 1 at 00000001 = 3 | r3=3 r4=1",
    "A064FFFE lhz r3,-2(r4) | r4=2000 | load 2 at 00001FFE = FFFE | r3=FFFE",
    "A4648000 lhzu r3,-32768(r4) | r4=2000 | load 2 at FFFFA000 = 8000 | r3=8000 r4=FFFFA000",
    "7C642A2E lhzx r3,r4,r5 | r4=2000 r5=6 | load 2 at 00002006 = 7FFF | r3=7FFF",
    "7C642A6E lhzux r3,r4,r5 | r4=2000 r5=6 | load 2 at 00002006 = ABCD | r3=ABCD r4=2006",
    "A8640000 lha r3,0(r4) | r4=2000 | load 2 at 00002000 = 7FFF | r3=7FFF",
    "A8640000 lha r3,0(r4) | r4=2000 | load 2 at 00002000 = 8000 | r3=FFFF8000",
    "AC640002 lhau r3,2(r4) | r4=2000 | load 2 at 00002002 = FFFF | r3=FFFFFFFF r4=2002",
    "7C642AAE lhax r3,r4,r5 | r4=2000 r5=2 | load 2 at 00002002 = 8001 | r3=FFFF8001",
    "7C642AEE lhaux r3,r4,r5 | r4=2000 r5=2 | load 2 at 00002002 = 1 | r3=1 r4=2002",
    "80647FFF lwz r3,32767(r4) | r4=1 | load 4 at 00008000 = FFFFFFFF | r3=FFFFFFFF",
    "80000000 lwz r0,0(r0) | r0=7 | load 4 at 00000000 = 12345678 | r0=12345678",
    "80840000 lwz r4,0(r4) | r4=2000 | load 4 at 00002000 = 5 | r4=5",
    "8464FFFC lwzu r3,-4(r4) | r4=0 | load 4 at FFFFFFFC = 1 | r3=1 r4=FFFFFFFC",
    "7C64282E lwzx r3,r4,r5 | r4=80000000 r5=80000000 | load 4 at 00000000 = 2 | r3=2",
    "7C64286E lwzux r3,r4,r5 | r4=2000 r5=2000 | load 4 at 00004000 = 3 | r3=3 r4=4000",
    "7C64206E lwzux r3,r4,r4 | r4=2000 | load 4 at 00004000 = 3 | r3=3 r4=4000",
    "7C642E2C lhbrx r3,r4,r5 | r4=2000 r5=2 | load 2 at 00002002 = 1280 | r3=8012",
    "7C602C2C lwbrx r3,r0,r5 | r0=7 r5=2000 | load 4 at 00002000 = 12345678 | r3=78563412",
    // stores: the low bits of the register, reversed for sthbrx and stwbrx; the old word where the base is stored
    "98640005 stb r3,5(r4) | r3=12345678 r4=2000 | store 1 at 00002005 of 78 | ",
    "9C64FFFF stbu r3,-1(r4) | r3=FFFFFFFF r4=0 | store 1 at FFFFFFFF of FF | r4=FFFFFFFF",
    "7C6029AE stbx r3,r0,r5 | r0=7 r3=FF00 r5=2000 | store 1 at 00002000 of 0 | ",
    "7C6429EE stbux r3,r4,r5 | r3=80 r4=2000 r5=1 | store 1 at 00002001 of 80 | r4=2001",
    "B0600002 sth r3,2(r0) | r0=7 r3=12345678 | store 2 at 00000002 of 5678 | ",
    "B4640002 sthu r3,2(r4) | r3=FFFF8000 r4=2000 | store 2 at 00002002 of 8000 | r4=2002",
    "7C642B2E sthx r3,r4,r5 | r3=10000 r4=2000 r5=FFFFFFFF | store 2 at 00001FFF of 0 | ",
    "7C642B6E sthux r3,r4,r5 | r3=1 r4=2000 r5=2 | store 2 at 00002002 of 1 | r4=2002",
    "9064FFFC stw r3,-4(r4) | r3=12345678 r4=0 | store 4 at FFFFFFFC of 12345678 | ",
    "9484FFF0 stwu r4,-16(r4) | r4=2000 | store 4 at 00001FF0 of 2000 | r4=1FF0",
    "7C64292E stwx r3,r4,r5 | r3=FFFFFFFF r4=2000 r5=4 | store 4 at 00002004 of FFFFFFFF | ",
    "7C84296E stwux r4,r4,r5 | r4=2000 r5=4 | store 4 at 00002004 of 2000 | r4=2004",
    "7CA4296E stwux r5,r4,r5 | r4=2000 r5=4 | store 4 at 00002004 of 4 | r4=2004",
    "90000000 stw r0,0(r0) | r0=7 | store 4 at 00000000 of 7 | ",
    "7C642F2C sthbrx r3,r4,r5 | r3=12345678 r4=2000 r5=2 | store 2 at 00002002 of 7856 | ",
    "7C602D2C stwbrx r3,r0,r5 | r0=7 r3=12345678 r5=2000 | store 4 at 00002000 of 78563412 | ",
    // the reservation: lwarx sets it, stwcx. stores where it is set, and clears it; no other load or store changes it
    "7C642828 lwarx r3,r4,r5 | r4=2000 r5=4 | load 4 at 00002004 = 11223344 | r3=11223344 reserved=1",
    "7C602828 lwarx r3,r0,r5 | r0=7 r5=2000 reserved=1 | load 4 at 00002000 = 1 | r3=1",
    "80640000 lwz r3,0(r4) | r4=2000 reserved=1 | load 4 at 00002000 = 1 | r3=1",
    "7C642C2C lwbrx r3,r4,r5 | r4=2000 r5=0 reserved=1 | load 4 at 00002000 = 1 | r3=1000000",
    "90640000 stw r3,0(r4) | r4=2000 reserved=1 | store 4 at 00002000 of A0000003 | ",
    "7C642D2C stwbrx r3,r4,r5 | r3=1 r4=2000 r5=0 reserved=1 | store 4 at 00002000 of 1000000 | ",
    "7C64292D stwcx. r3,r4,r5 | r3=11223344 r4=2000 r5=4 reserved=1 | store 4 at 00002004 of 11223344 | cr=21234567 reserved=0",
    "7C64292D stwcx. r3,r4,r5 | r3=11223344 r4=2000 r5=4 | probe at 00002004 | ",
    "7C60292D stwcx. r3,r0,r5 | r0=7 r5=2000 cr=FFFFFFFF xer=80000055 reserved=1 | store 4 at 00002000 of A0000003 | cr=3FFFFFFF reserved=0",
    "7C60292D stwcx. r3,r0,r5 | r0=7 r5=2000 cr=FFFFFFFF xer=80000055 | probe at 00002000 | cr=1FFFFFFF",
];

#[test]
fn loads_and_stores(rt: HostRuntime) -> Result<(), Fail> {
    run(&rt, rt.alloc(), &ROWS)
}

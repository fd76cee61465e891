// Comparisons, signed and unsigned, into each field.
use crate::bench::run;
use std::test::Fail;

const ROWS: [&str; 46] = [
    "7C042800 cmp cr0,0,r4,r5 | r4=1 r5=2 | done | cr=81234567",
    "7C042840 cmpl cr0,0,r4,r5 | r4=1 r5=2 | done | cr=81234567",
    "7C042800 cmp cr0,0,r4,r5 | r4=2 r5=1 | done | cr=41234567",
    "7C042840 cmpl cr0,0,r4,r5 | r4=2 r5=1 | done | cr=41234567",
    "7C042800 cmp cr0,0,r4,r5 | r4=5 r5=5 | done | cr=21234567",
    "7C042840 cmpl cr0,0,r4,r5 | r4=5 r5=5 | done | cr=21234567",
    "7C042800 cmp cr0,0,r4,r5 | r4=FFFFFFFF r5=1 | done | cr=81234567",
    "7C042840 cmpl cr0,0,r4,r5 | r4=FFFFFFFF r5=1 | done | cr=41234567",
    "7C042800 cmp cr0,0,r4,r5 | r4=1 r5=FFFFFFFF | done | cr=41234567",
    "7C042840 cmpl cr0,0,r4,r5 | r4=1 r5=FFFFFFFF | done | cr=81234567",
    "7C042800 cmp cr0,0,r4,r5 | r4=80000000 r5=7FFFFFFF | done | cr=81234567",
    "7C042840 cmpl cr0,0,r4,r5 | r4=80000000 r5=7FFFFFFF | done | cr=41234567",
    "7C042800 cmp cr0,0,r4,r5 | r4=7FFFFFFF r5=80000000 | done | cr=41234567",
    "7C042840 cmpl cr0,0,r4,r5 | r4=7FFFFFFF r5=80000000 | done | cr=81234567",
    "7C042800 cmp cr0,0,r4,r5 | r4=0 r5=80000000 | done | cr=41234567",
    "7C042840 cmpl cr0,0,r4,r5 | r4=0 r5=80000000 | done | cr=81234567",
    "2C840000 cmpi cr1,0,r4,0 | r4=FFFFFFFF | done | cr=8234567",
    "2C84FFFF cmpi cr1,0,r4,-1 | r4=0 | done | cr=4234567",
    "2C848000 cmpi cr1,0,r4,-32768 | r4=FFFF8000 | done | cr=2234567",
    "2C847FFF cmpi cr1,0,r4,32767 | r4=7FFF | done | cr=2234567",
    "2C84FFFF cmpi cr1,0,r4,-1 | r4=80000000 | done | cr=8234567",
    "2C847FFF cmpi cr1,0,r4,32767 | r4=9C40 | done | cr=4234567",
    "2884FFFF cmpli cr1,0,r4,65535 | r4=FFFF | done | cr=2234567",
    "2884FFFF cmpli cr1,0,r4,65535 | r4=8000 | done | cr=8234567",
    "2884FFFF cmpli cr1,0,r4,65535 | r4=10000 | done | cr=4234567",
    "28840000 cmpli cr1,0,r4,0 | r4=FFFFFFFF | done | cr=4234567",
    "28848000 cmpli cr1,0,r4,32768 | r4=FFFFFFFF | done | cr=4234567",
    "28840000 cmpli cr1,0,r4,0 | r4=0 | done | cr=2234567",
    // each field, with SO
    "7C042800 cmp cr0,0,r4,r5 | r4=1 r5=2 cr=0 | done | cr=80000000",
    "28040001 cmpli cr0,0,r4,1 | r4=2 cr=FFFFFFFF xer=80000055 | done | cr=5FFFFFFF",
    "7C842800 cmp cr1,0,r4,r5 | r4=1 r5=2 cr=0 | done | cr=8000000",
    "28840001 cmpli cr1,0,r4,1 | r4=2 cr=FFFFFFFF xer=80000055 | done | cr=F5FFFFFF",
    "7D042800 cmp cr2,0,r4,r5 | r4=1 r5=2 cr=0 | done | cr=800000",
    "29040001 cmpli cr2,0,r4,1 | r4=2 cr=FFFFFFFF xer=80000055 | done | cr=FF5FFFFF",
    "7D842800 cmp cr3,0,r4,r5 | r4=1 r5=2 cr=0 | done | cr=80000",
    "29840001 cmpli cr3,0,r4,1 | r4=2 cr=FFFFFFFF xer=80000055 | done | cr=FFF5FFFF",
    "7E042800 cmp cr4,0,r4,r5 | r4=1 r5=2 cr=0 | done | cr=8000",
    "2A040001 cmpli cr4,0,r4,1 | r4=2 cr=FFFFFFFF xer=80000055 | done | cr=FFFF5FFF",
    "7E842800 cmp cr5,0,r4,r5 | r4=1 r5=2 cr=0 | done | cr=800",
    "2A840001 cmpli cr5,0,r4,1 | r4=2 cr=FFFFFFFF xer=80000055 | done | cr=FFFFF5FF",
    "7F042800 cmp cr6,0,r4,r5 | r4=1 r5=2 cr=0 | done | cr=80",
    "2B040001 cmpli cr6,0,r4,1 | r4=2 cr=FFFFFFFF xer=80000055 | done | cr=FFFFFF5F",
    "7F842800 cmp cr7,0,r4,r5 | r4=1 r5=2 cr=0 | done | cr=8",
    "2B840001 cmpli cr7,0,r4,1 | r4=2 cr=FFFFFFFF xer=80000055 | done | cr=FFFFFFF5",
    "2F800000 cmpi cr7,0,r0,0 | r0=0 cr=0 | done | cr=2",
    "7D842040 cmpl cr3,0,r4,r4 | cr=FFFFFFFF xer=C0000055 | done | cr=FFF3FFFF",
];

#[test]
fn comparisons_into_fields(rt: HostRuntime) -> Result<(), Fail> {
    run(&rt, rt.alloc(), &ROWS)
}

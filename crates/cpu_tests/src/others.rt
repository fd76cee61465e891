// What only goes on, the special purpose registers, and what is left to the core.
use crate::bench::run;
use std::test::Fail;

const ROWS: [&str; 50] = [
    // what does nothing but go on
    "4C00012C isync |  | done | ",
    "7C0004AC msync | pc=FFFFFFFC | done | ",
    "7C0006AC mbar 0 |  | done | ",
    "7FE006AC mbar 31 | reserved=1 | done | ",
    // special purpose registers of both states
    "7C6102A6 mfspr r3,1 | xer=E000007F | done | r3=E000007F",
    "7C6103A6 mtspr 1,r3 | r3=FFFFFFFF | done | xer=E000007F",
    "7C6103A6 mtspr 1,r3 | r3=12345678 xer=E000007F | done | xer=78",
    "7C6802A6 mfspr r3,8 | xer=E000007F | done | r3=B0000003",
    "7C6803A6 mtspr 8,r3 | r3=FFFFFFFF | done | lr=FFFFFFFF",
    "7C6803A6 mtspr 8,r3 | r3=12345678 xer=E000007F | done | lr=12345678",
    "7C6902A6 mfspr r3,9 | xer=E000007F | done | r3=C0000002",
    "7C6903A6 mtspr 9,r3 | r3=FFFFFFFF | done | ctr=FFFFFFFF",
    "7C6903A6 mtspr 9,r3 | r3=12345678 xer=E000007F | done | ctr=12345678",
    "7C6042A6 mfspr r3,256 | xer=E000007F | done | r3=D0000001",
    "7C6043A6 mtspr 256,r3 | r3=FFFFFFFF | done | usprg0=FFFFFFFF",
    "7C6043A6 mtspr 256,r3 | r3=12345678 xer=E000007F | done | usprg0=12345678",
    "7C6442A6 mfspr r3,260 |  | done | r3=E0000004",
    "7C6443A6 mtspr 260,r3 |  | illegal | ",
    "7C6542A6 mfspr r3,261 |  | done | r3=E0000005",
    "7C6543A6 mtspr 261,r3 |  | illegal | ",
    "7C6642A6 mfspr r3,262 |  | done | r3=E0000006",
    "7C6643A6 mtspr 262,r3 |  | illegal | ",
    "7C6742A6 mfspr r3,263 |  | done | r3=E0000007",
    "7C6743A6 mtspr 263,r3 |  | illegal | ",
    "7C6002A6 mfspr r3,0 |  | illegal | ",
    "7C6003A6 mtspr 0,r3 |  | illegal | ",
    "7C6142A6 mfspr r3,257 |  | illegal | ",
    "7C7FFBA6 mtspr 1023,r3 |  | mtspr A0000003 to 1023 | ",
    "7C72EAA6 mfspr r3,946 |  | mfspr r3 from 946 | ",
    "7C700BA6 mtspr 48,r3 |  | mtspr A0000003 to 48 | ",
    // what the core turns into an interrupt or carries out
    "44000002 sc |  | call | ",
    "4C000064 rfi |  | rfi | ",
    "7C6000A6 mfmsr r3 |  | mfmsr r3 | ",
    "7C600124 mtmsr r3 |  | mtmsr A0000003 | ",
    "7C000124 mtmsr r0 | r0=8000 | mtmsr 8000 | ",
    "7C600106 wrtee r3 | r3=8000 | wrtee true | ",
    "7C600106 wrtee r3 | r3=FFFF7FFF | wrtee false | ",
    "7C600106 wrtee r3 | r3=FFFFFFFF | wrtee true | ",
    "7C008146 wrteei 1 |  | wrtee true | ",
    "7C000146 wrteei 0 |  | wrtee false | ",
    "7C00046C tlbsync |  | tlbsync | ",
    "7C640764 tlbre r3,r4,0 | r4=0 | tlbre r3 from entry 0 word 0 | ",
    "7C640F64 tlbre r3,r4,1 | r4=FFFFFFFF | tlbre r3 from entry 63 word 1 | ",
    "7C841764 tlbre r4,r4,2 | r4=45 | tlbre r4 from entry 5 word 2 | ",
    "7C601764 tlbre r3,r0,2 | r0=3F | tlbre r3 from entry 63 word 2 | ",
    "7C6407A4 tlbwe r3,r4,0 | r3=210 r4=40 | tlbwe 210 to entry 0 word 0 | ",
    "7C640FA4 tlbwe r3,r4,1 | r3=FFFFFFFF r4=3F | tlbwe FFFFFFFF to entry 63 word 1 | ",
    "7C6017A4 tlbwe r3,r0,2 | r0=5 | tlbwe A0000003 to entry 5 word 2 | ",
    "7C642F24 tlbsx r3,r4,r5 | r4=FFFFFFFF r5=2 | tlbsx r3 of 00000001 record false | ",
    "7C602F25 tlbsx. r3,r0,r5 | r0=7 r5=2000 | tlbsx r3 of 00002000 record true | ",
];

#[test]
fn deeds_left_to_the_core(rt: HostRuntime) -> Result<(), Fail> {
    run(&rt, rt.alloc(), &ROWS)
}

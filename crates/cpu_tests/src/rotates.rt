// Rotations under masks, some of which run round the end of the word.
use crate::bench::run;
use std::test::Fail;

const ROWS: [&str; 32] = [
    "5483003E rlwinm r3,r4,0,0,31 | r4=12345678 xer=20000055 | done | r3=12345678",
    "5083003E rlwimi r3,r4,0,0,31 | r3=AAAA5555 r4=12345678 | done | r3=12345678",
    "5483203E rlwinm r3,r4,4,0,31 | r4=12345678 xer=20000055 | done | r3=23456781",
    "5083203E rlwimi r3,r4,4,0,31 | r3=AAAA5555 r4=12345678 | done | r3=23456781",
    "5483F83E rlwinm r3,r4,31,0,31 | r4=12345678 xer=20000055 | done | r3=91A2B3C",
    "5083F83E rlwimi r3,r4,31,0,31 | r3=AAAA5555 r4=12345678 | done | r3=91A2B3C",
    "5483463E rlwinm r3,r4,8,24,31 | r4=12345678 xer=20000055 | done | r3=12",
    "5083463E rlwimi r3,r4,8,24,31 | r3=AAAA5555 r4=12345678 | done | r3=AAAA5512",
    "54830636 rlwinm r3,r4,0,24,27 | r4=12345678 xer=20000055 | done | r3=70",
    "50830636 rlwimi r3,r4,0,24,27 | r3=AAAA5555 r4=12345678 | done | r3=AAAA5575",
    "54830706 rlwinm r3,r4,0,28,3 | r4=12345678 xer=20000055 | done | r3=10000008",
    "50830706 rlwimi r3,r4,0,28,3 | r3=AAAA5555 r4=12345678 | done | r3=1AAA5558",
    "548387C0 rlwinm r3,r4,16,31,0 | r4=12345678 xer=20000055 | done | r3=0",
    "508387C0 rlwimi r3,r4,16,31,0 | r3=AAAA5555 r4=12345678 | done | r3=2AAA5554",
    "5483614A rlwinm r3,r4,12,5,5 | r4=12345678 xer=20000055 | done | r3=4000000",
    "5083614A rlwimi r3,r4,12,5,5 | r3=AAAA5555 r4=12345678 | done | r3=AEAA5555",
    "54830840 rlwinm r3,r4,1,1,0 | r4=12345678 xer=20000055 | done | r3=2468ACF0",
    "50830840 rlwimi r3,r4,1,1,0 | r3=AAAA5555 r4=12345678 | done | r3=2468ACF0",
    "5483A40E rlwinm r3,r4,20,16,7 | r4=12345678 xer=20000055 | done | r3=67002345",
    "5083A40E rlwimi r3,r4,20,16,7 | r3=AAAA5555 r4=12345678 | done | r3=67AA2345",
    "5C83283E rlwnm r3,r4,r5,0,31 | r4=9ABCDEF0 r5=0 | done | r3=9ABCDEF0",
    "5C832F06 rlwnm r3,r4,r5,28,3 | r4=9ABCDEF0 r5=4 | done | r3=A0000009",
    "5C832A1E rlwnm r3,r4,r5,8,15 | r4=9ABCDEF0 r5=1F | done | r3=5E0000",
    "5C83283E rlwnm r3,r4,r5,0,31 | r4=9ABCDEF0 r5=20 | done | r3=9ABCDEF0",
    "5C832E0E rlwnm r3,r4,r5,24,7 | r4=9ABCDEF0 r5=FFFFFFE8 | done | r3=BC00009A",
    "54830FFF rlwinm. r3,r4,1,31,31 | r4=80000000 | done | r3=1 cr=41234567",
    "54830001 rlwinm. r3,r4,0,0,0 | r4=80000000 xer=80000055 | done | r3=80000000 cr=91234567",
    "5483007F rlwinm. r3,r4,0,1,31 | r4=80000000 | done | r3=0 cr=21234567",
    "50830707 rlwimi. r3,r4,0,28,3 | r3=FFFFFF0 r4=0 | done | cr=41234567",
    "50832007 rlwimi. r3,r4,4,0,3 | r3=1 r4=8000000 xer=80000055 | done | r3=80000001 cr=91234567",
    "5C832801 rlwnm. r3,r4,r5,0,0 | r4=1 r5=1F | done | r3=80000000 cr=81234567",
    "5C83283D rlwnm. r3,r4,r5,0,30 | r4=1 r5=40 | done | r3=0 cr=21234567",
];

#[test]
fn rotations_under_masks(rt: HostRuntime) -> Result<(), Fail> {
    run(&rt, rt.alloc(), &ROWS)
}

//! A table of images, sound and damaged, with what the reader gives of each by the rules of the format.
/// An image in hexadecimal, and what the reader gives of it: its records, and the refusal where there is one.
#[derive(Clone, Copy)]
pub struct Case {
    pub image: &'static str,
    pub gives: &'static str,
}

pub const CASES: [Case; 57] = [
    // The whole image: its size, its version, and an image without records.
    Case {
        image: "",
        gives: "refused 1 at 0",
    },
    Case {
        image: "00",
        gives: "refused 2 at 0",
    },
    Case {
        image: "02",
        gives: "refused 2 at 0",
    },
    Case {
        image: "02 00",
        gives: "refused 2 at 0",
    },
    Case {
        image: "01",
        gives: "refused 7 at 1",
    },
    // The worked example: one page entry, one piece of data with two instructions, one start.
    Case {
        image: "01 000F 01 00 00 00000210 00000000 0000002F 000E 02 00 00000100 38600005 90600200 0009 03 00000100 00004000",
        gives: "entry 0 tid 0 00000210 00000000 0000002F, data 0 00000100 38 60 00 05 90 60 02 00, start 00000100 00004000",
    },
    // Lengths that the image does not hold.
    Case {
        image: "01 00",
        gives: "refused 3 at 1",
    },
    Case {
        image: "01 0001",
        gives: "refused 3 at 1",
    },
    Case {
        image: "01 0009 03 00000100 000040",
        gives: "refused 3 at 1",
    },
    Case {
        image: "01 FFFF 03 00000100 00004000",
        gives: "refused 3 at 1",
    },
    Case {
        image: "01 000F 01 00 00 00000210 00000000 0000002F 00",
        gives: "entry 0 tid 0 00000210 00000000 0000002F, refused 3 at 18",
    },
    Case {
        image: "01 000F 01 00 00 00000210 00000000 0000002F 0009 03",
        gives: "entry 0 tid 0 00000210 00000000 0000002F, refused 3 at 18",
    },
    // Kinds and lengths that no record has.
    Case {
        image: "01 0000",
        gives: "refused 4 at 1",
    },
    Case {
        image: "01 0001 00",
        gives: "refused 4 at 1",
    },
    Case {
        image: "01 0001 04",
        gives: "refused 4 at 1",
    },
    Case {
        image: "01 0009 00 00000100 00004000",
        gives: "refused 4 at 1",
    },
    Case {
        image: "01 0009 04 00000100 00004000",
        gives: "refused 4 at 1",
    },
    Case {
        image: "01 000E 01 00 00 00000210 00000000 0000002F",
        gives: "refused 4 at 1",
    },
    Case {
        image: "01 0010 01 00 00 00000210 00000000 0000002F 00",
        gives: "refused 4 at 1",
    },
    Case {
        image: "01 0001 02",
        gives: "refused 4 at 1",
    },
    Case {
        image: "01 0006 02 00 00000100",
        gives: "refused 4 at 1",
    },
    Case {
        image: "01 0008 03 00000100 000040",
        gives: "refused 4 at 1",
    },
    Case {
        image: "01 000A 03 00000100 00004000 00",
        gives: "refused 4 at 1",
    },
    Case {
        image: "01 0007 02 00 00000100 AA 0000",
        gives: "data 0 00000100 AA, refused 4 at 10",
    },
    // Page entries: the last number and the first too large, and the bits that no entry keeps.
    Case {
        image: "01 000F 01 3F FF 00000210 00000000 0000002F 0009 03 00000000 00000000",
        gives: "entry 63 tid 255 00000210 00000000 0000002F, start 00000000 00000000",
    },
    Case {
        image: "01 000F 01 40 00 00000210 00000000 0000002F 0009 03 00000000 00000000",
        gives: "refused 5 at 1",
    },
    Case {
        image: "01 000F 01 FF 00 00000210 00000000 0000002F 0009 03 00000000 00000000",
        gives: "refused 5 at 1",
    },
    Case {
        image: "01 000F 01 01 02 FFFFFFFF FFFFFFFF FFFFFFFF 0009 03 00000000 00000000",
        gives: "entry 1 tid 2 FFFFFFF0 FFFFFC0F 0000FFBF, start 00000000 00000000",
    },
    Case {
        image: "01 000F 01 01 02 0000000F 000003F0 FFFF0040 0009 03 00000000 00000000",
        gives: "entry 1 tid 2 00000000 00000000 00000000, start 00000000 00000000",
    },
    Case {
        image: "01 000F 01 05 07 12345678 9ABCDEF0 0000BEEF 000F 01 05 08 00000000 00000000 00000000 0009 03 00000000 00000000",
        gives: "entry 5 tid 7 12345670 9ABCDC00 0000BEAF, entry 5 tid 8 00000000 00000000 00000000, start 00000000 00000000",
    },
    // Data: the highest real addresses, and the end of a frame.
    Case {
        image: "01 0007 02 0F FFFFFFFF AA 0009 03 00000000 00000000",
        gives: "data 15 FFFFFFFF AA, start 00000000 00000000",
    },
    Case {
        image: "01 0008 02 0F FFFFFFFF AA BB 0009 03 00000000 00000000",
        gives: "refused 5 at 1",
    },
    Case {
        image: "01 0007 02 10 00000000 AA 0009 03 00000000 00000000",
        gives: "refused 5 at 1",
    },
    Case {
        image: "01 0007 02 FF 00000000 AA 0009 03 00000000 00000000",
        gives: "refused 5 at 1",
    },
    Case {
        image: "01 0008 02 00 000003FE AA BB 0009 03 00000000 00000000",
        gives: "data 0 000003FE AA BB, start 00000000 00000000",
    },
    Case {
        image: "01 0009 02 00 000003FE AA BB CC 0009 03 00000000 00000000",
        gives: "refused 5 at 1",
    },
    // The start: counters that are no multiple of four, and MSRs with the kept bits and with others.
    Case {
        image: "01 0009 03 FFFFFFFC 0002D230",
        gives: "start FFFFFFFC 0002D230",
    },
    Case {
        image: "01 0009 03 00000101 00004000",
        gives: "refused 5 at 1",
    },
    Case {
        image: "01 0009 03 00000102 00004000",
        gives: "refused 5 at 1",
    },
    Case {
        image: "01 0009 03 00000103 00004000",
        gives: "refused 5 at 1",
    },
    Case {
        image: "01 0009 03 00000100 0002D231",
        gives: "refused 5 at 1",
    },
    Case {
        image: "01 0009 03 00000100 FFFFFFFF",
        gives: "refused 5 at 1",
    },
    // The start stands once, last.
    Case {
        image: "01 0009 03 00000100 00004000 00",
        gives: "start 00000100 00004000, refused 7 at 12",
    },
    Case {
        image: "01 0009 03 00000100 00004000 0009 03 00000100 00004000",
        gives: "start 00000100 00004000, refused 7 at 12",
    },
    Case {
        image: "01 0009 03 00000100 00004000 0007 02 00 00000100 AA",
        gives: "start 00000100 00004000, refused 7 at 12",
    },
    Case {
        image: "01 000F 01 00 00 00000210 00000000 0000002F",
        gives: "entry 0 tid 0 00000210 00000000 0000002F, refused 7 at 18",
    },
    Case {
        image: "01 0007 02 00 00000100 AA",
        gives: "data 0 00000100 AA, refused 7 at 10",
    },
    // Two faults: the first in the order of the checks is told, and an earlier record's before a later one's.
    Case {
        image: "01 0009 03 00000100 00004000 0009 03",
        gives: "start 00000100 00004000, refused 7 at 12",
    },
    Case {
        image: "01 0009 03 00000100 00004000 0001 04",
        gives: "start 00000100 00004000, refused 7 at 12",
    },
    Case {
        image: "01 0005 04",
        gives: "refused 3 at 1",
    },
    Case {
        image: "01 000F 01 40",
        gives: "refused 3 at 1",
    },
    Case {
        image: "01 0002 01 40",
        gives: "refused 4 at 1",
    },
    Case {
        image: "01 0006 02 10 00000100",
        gives: "refused 4 at 1",
    },
    Case {
        image: "01 0008 03 00000101 000040",
        gives: "refused 4 at 1",
    },
    Case {
        image: "01 000F 01 40 00 00000210 00000000 0000002F 0001 04",
        gives: "refused 5 at 1",
    },
    Case {
        image: "01 0001 04 000F 01 40 00 00000210 00000000 0000002F",
        gives: "refused 4 at 1",
    },
    Case {
        image: "01 0009 03 00000101 00004000 00",
        gives: "refused 5 at 1",
    },
];

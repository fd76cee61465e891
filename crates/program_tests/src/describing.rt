//! Records and their text, line by line as the rules have it.
use describe::{Count, Described};
use image::{Data, PageEntry, Record, Start};
use std::alloc::{AllocError, AllocGlobal, Global};
use std::process::Abort;
use std::test::*;

fn described(heap: Global, record: Record) -> Result<String, AllocError> {
    let record = Described(record);
    format!(in heap; "{record}")
}

fn says(rt: &(impl Abort + AllocGlobal), record: Record, text: &str) -> Result<(), Fail> {
    assert_eq!(rt; described(rt.alloc(), record)?.as_str(), text);
    Ok(())
}

fn entry<'a>(word0: u32, word1: u32, word2: u32, tid: u8) -> Record<'a> {
    Record::Entry(PageEntry {
        number: 7,
        tid,
        word0,
        word1,
        word2,
    })
}

// A number from which a record is made, and what the record's text has.
type Case = (u32, &'static str);

// Holds the text that is made of each case's number against the case.
fn each_says<M: Fn(u32) -> Result<String, AllocError>, H: Fn(&str, &str) -> bool>(
    rt: &impl Abort,
    cases: &[Case],
    make: M,
    holds: H,
) -> Result<(), Fail>
    requires makes { M.IsAlwaysCallable make }
    requires tests { H.IsAlwaysCallable holds }
{
    for (number, part) in cases {
        let text = make(*number)?;
        let held = holds(text.as_str(), part);
        assert!(rt; held, "{part}");
    }
    Ok(())
}

// The word 0 of an entry whose EPN and RPN are all ones, with each SIZE, and the two addresses that are printed.
const SIZES: [Case; 16] = [
    (
        0xFFFF_FE00,
        "page 0xFFFFFC00, 1 KiB, valid, space 0, any task\n  real 0xFFFFFFC00\n",
    ),
    (
        0xFFFF_FE10,
        "page 0xFFFFF000, 4 KiB, valid, space 0, any task\n  real 0xFFFFFF000\n",
    ),
    (
        0xFFFF_FE20,
        "page 0xFFFFC000, 16 KiB, valid, space 0, any task\n  real 0xFFFFFC000\n",
    ),
    (
        0xFFFF_FE30,
        "page 0xFFFF0000, 64 KiB, valid, space 0, any task\n  real 0xFFFFF0000\n",
    ),
    (
        0xFFFF_FE40,
        "page 0xFFFC0000, 256 KiB, valid, space 0, any task\n  real 0xFFFFC0000\n",
    ),
    (
        0xFFFF_FE50,
        "page 0xFFF00000, 1 MiB, valid, space 0, any task\n  real 0xFFFF00000\n",
    ),
    (
        0xFFFF_FE60,
        "page 0xFFFFFC00, no page size, valid, space 0, any task\n  real 0xFFFFFFC00\n",
    ),
    (
        0xFFFF_FE70,
        "page 0xFF000000, 16 MiB, valid, space 0, any task\n  real 0xFFF000000\n",
    ),
    (
        0xFFFF_FE80,
        "page 0xFFFFFC00, no page size, valid, space 0, any task\n  real 0xFFFFFFC00\n",
    ),
    (
        0xFFFF_FE90,
        "page 0xF0000000, 256 MiB, valid, space 0, any task\n  real 0xFF0000000\n",
    ),
    (
        0xFFFF_FEA0,
        "page 0xFFFFFC00, no page size, valid, space 0, any task\n  real 0xFFFFFFC00\n",
    ),
    (
        0xFFFF_FEB0,
        "page 0xFFFFFC00, no page size, valid, space 0, any task\n  real 0xFFFFFFC00\n",
    ),
    (
        0xFFFF_FEC0,
        "page 0xFFFFFC00, no page size, valid, space 0, any task\n  real 0xFFFFFFC00\n",
    ),
    (
        0xFFFF_FED0,
        "page 0xFFFFFC00, no page size, valid, space 0, any task\n  real 0xFFFFFFC00\n",
    ),
    (
        0xFFFF_FEE0,
        "page 0xFFFFFC00, no page size, valid, space 0, any task\n  real 0xFFFFFFC00\n",
    ),
    (
        0xFFFF_FEF0,
        "page 0xFFFFFC00, no page size, valid, space 0, any task\n  real 0xFFFFFFC00\n",
    ),
];

#[test]
fn a_page_begins_at_a_multiple_of_its_size(rt: HostRuntime) -> Result<(), Fail> {
    each_says(
        &rt,
        &SIZES,
        |word0| described(rt.alloc(), entry(word0, 0xFFFF_FC0F, 0, 0)),
        |text, part| text.contains(part),
    )
}

#[test]
fn an_entry_has_five_lines(rt: HostRuntime) -> Result<(), Fail> {
    says(
        &rt,
        entry(0x0000_0210, 0, 0x2F, 0),
        "entry 7\n  words 0x00000210 0x00000000 0x0000002F\n  page 0x00000000, 4 KiB, valid, space 0, any task\n  real 0x000000000\n  user: execute, read; supervisor: execute, write, read",
    )?;
    says(
        &rt,
        entry(0x1234_5510, 0xABCD_EC03, 0xFF80, 9),
        "entry 7\n  words 0x12345510 0xABCDEC03 0x0000FF80\n  page 0x12345000, 4 KiB, invalid, space 1, task 9\n  real 0x3ABCDE000\n  user: none; supervisor: none",
    )?;
    says(
        &rt,
        entry(0x8000_0300, 0, 0x3F, 255),
        "entry 7\n  words 0x80000300 0x00000000 0x0000003F\n  page 0x80000000, 1 KiB, valid, space 1, task 255\n  real 0x000000000\n  user: execute, write, read; supervisor: execute, write, read",
    )
}

// A word 2, and the rights that it gives.
const RIGHTS: [Case; 7] = [
    (0x20, "  user: execute; supervisor: none"),
    (0x10, "  user: write; supervisor: none"),
    (0x08, "  user: read; supervisor: none"),
    (0x04, "  user: none; supervisor: execute"),
    (0x02, "  user: none; supervisor: write"),
    (0x01, "  user: none; supervisor: read"),
    (0x15, "  user: write; supervisor: execute, read"),
];

#[test]
fn each_right_has_its_name(rt: HostRuntime) -> Result<(), Fail> {
    each_says(
        &rt,
        &RIGHTS,
        |word2| described(rt.alloc(), entry(0, 0, word2, 0)),
        |text, part| text.ends_with(part),
    )
}

// An MSR, and the bits that it has.
const STATES: [Case; 10] = [
    (0, "  MSR 0x00000000: none"),
    (0x2_0000, "  MSR 0x00020000: CE"),
    (0x8000, "  MSR 0x00008000: EE"),
    (0x4000, "  MSR 0x00004000: PR"),
    (0x1000, "  MSR 0x00001000: ME"),
    (0x200, "  MSR 0x00000200: DE"),
    (0x20, "  MSR 0x00000020: IS"),
    (0x10, "  MSR 0x00000010: DS"),
    (0xC030, "  MSR 0x0000C030: EE, PR, IS, DS"),
    (0x2_D230, "  MSR 0x0002D230: CE, EE, PR, ME, DE, IS, DS"),
];

#[test]
fn each_bit_of_the_msr_has_its_name(rt: HostRuntime) -> Result<(), Fail> {
    each_says(
        &rt,
        &STATES,
        |msr| {
            let counter = 0xFFFF_FFFC;
            described(rt.alloc(), Record::Start(Start { counter, msr }))
        },
        |text, part| text.starts_with("start at 0xFFFFFFFC\n") && text.ends_with(part),
    )
}

fn data_says(
    rt: &(impl Abort + AllocGlobal),
    erpn: u8,
    address: u32,
    bytes: &[u8],
    text: &str,
) -> Result<(), Fail> {
    says(
        rt,
        Record::Data(Data {
            erpn,
            address,
            bytes,
        }),
        text,
    )
}

#[test]
fn whole_words_are_instructions(rt: HostRuntime) -> Result<(), Fail> {
    data_says(
        &rt,
        0,
        0x100,
        &[0x38, 0x60, 0, 5, 0x90, 0x60, 2, 0],
        "data at 0x000000100, 8 bytes\n  0x000000100  38600005  addi r3,0,5\n  0x000000104  90600200  stw r3,512(0)",
    )?;
    data_says(
        &rt,
        15,
        0xFFFF_FFFC,
        &[0, 0, 0, 0],
        "data at 0xFFFFFFFFC, 4 bytes\n  0xFFFFFFFFC  00000000  illegal",
    )
}

#[test]
fn bytes_outside_of_a_word_stand_alone(rt: HostRuntime) -> Result<(), Fail> {
    data_says(
        &rt,
        1,
        3,
        &[0xAB],
        "data at 0x100000003, 1 byte\n  0x100000003  AB",
    )?;
    data_says(
        &rt,
        0,
        0x101,
        &[1, 2, 3, 0x44, 0, 0, 2, 0xFE],
        "data at 0x000000101, 8 bytes\n  0x000000101  01\n  0x000000102  02\n  0x000000103  03\n  0x000000104  44000002  sc\n  0x000000108  FE",
    )?;
    data_says(
        &rt,
        0,
        0x200,
        &[0x44, 0, 0, 2, 4, 5, 6],
        "data at 0x000000200, 7 bytes\n  0x000000200  44000002  sc\n  0x000000204  04\n  0x000000205  05\n  0x000000206  06",
    )?;
    // Four bytes, and none of them a whole word.
    data_says(
        &rt,
        0,
        0x302,
        &[1, 2, 3, 4],
        "data at 0x000000302, 4 bytes\n  0x000000302  01\n  0x000000303  02\n  0x000000304  03\n  0x000000305  04",
    )
}

#[test]
fn one_of_a_kind_has_no_plural(rt: HostRuntime) -> Result<(), Fail> {
    let heap = rt.alloc();
    let none = Count {
        number: 0,
        noun: "record",
    };
    let one = Count {
        number: 1,
        noun: "record",
    };
    let two = Count {
        number: 2,
        noun: "record",
    };
    assert_eq!(rt; format!(in heap; "{none}")?.as_str(), "0 records");
    assert_eq!(rt; format!(in heap; "{one}")?.as_str(), "1 record");
    assert_eq!(rt; format!(in heap; "{two}")?.as_str(), "2 records");
    Ok(())
}

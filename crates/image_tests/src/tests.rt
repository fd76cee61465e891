//! What the reader gives, held against the rules of the format.
use crate::cases::CASES;
use hexadecimal::parse;
use image::{
    Data, PageEntry, Reader, Reason, Record, Refusal, Start, check as check_image, real_address,
};
use std::alloc::{AllocError, Global};
use std::test::Fail;

#[test]
fn each_image_gives_what_the_table_says(rt: HostRuntime) -> Result<(), Fail> {
    for case in &CASES {
        let image = parse(rt.alloc(), case.image.as_bytes())?;
        let found = description(rt.alloc(), &image)?;
        assert_eq!(rt; found.as_str(), case.gives, "{}", case.image);
    }
    Ok(())
}

#[test]
fn a_whole_image_is_checked_to_the_same_end(rt: HostRuntime) -> Result<(), Fail> {
    for case in &CASES {
        let image = parse(rt.alloc(), case.image.as_bytes())?;
        match check_image(&image) {
            Ok(count) => assert_eq!(rt; case.gives.split(',').count(), count, "{}", case.image),
            Err(refusal) => {
                let end = refused(rt.alloc(), refusal)?;
                assert!(rt; case.gives.ends_with(end.as_str()), "{}", case.image)
            }
        }
    }
    Ok(())
}

#[test]
fn a_msr_has_seven_bits(rt: HostRuntime) {
    let kept = [4, 5, 9, 12, 14, 15, 17];
    for bit in 0u32..32 {
        let [a, b, c, d] = (1u32 << bit).to_be_bytes();
        let image = [1, 0, 9, 3, 0, 0, 1, 0, a, b, c, d];
        let gives = if kept.contains(&bit) {
            Ok(1)
        } else {
            Err(Reason::Range.at(1))
        };
        assert_eq!(rt; check_image(&image), gives);
    }
}

#[test]
fn data_fills_at_most_a_frame(rt: HostRuntime) -> Result<(), Fail> {
    let heap = rt.alloc();
    assert_eq!(rt; placed(heap, 0, 0)?, Err(Reason::Form.at(1)));
    assert_eq!(rt; placed(heap, 0, 1)?, Ok(2));
    assert_eq!(rt; placed(heap, 0, 1024)?, Ok(2));
    assert_eq!(rt; placed(heap, 0, 1025)?, Err(Reason::Form.at(1)));
    assert_eq!(rt; placed(heap, 1, 1023)?, Ok(2));
    assert_eq!(rt; placed(heap, 1, 1024)?, Err(Reason::Range.at(1)));
    assert_eq!(rt; placed(heap, 1, 1025)?, Err(Reason::Form.at(1)));
    assert_eq!(rt; placed(heap, 1023, 1)?, Ok(2));
    assert_eq!(rt; placed(heap, 1023, 2)?, Err(Reason::Range.at(1)));
    assert_eq!(rt; placed(heap, 1024, 1024)?, Ok(2));
    assert_eq!(rt; placed(heap, 0xFFFF_FC00, 1024)?, Ok(2));
    assert_eq!(rt; placed(heap, 0xFFFF_FC04, 1021)?, Err(Reason::Range.at(1)));
    Ok(())
}

// 63 records with a whole frame of data, one with less, and the start: 1 + 63 * 1032 + 8 + 499 + 11 = 65535 bytes.
#[test]
fn an_image_has_at_most_65535_bytes(rt: HostRuntime) -> Result<(), Fail> {
    let mut image = long(rt.alloc(), 499)?;
    assert_eq!(rt; image.len(), 65535);
    assert_eq!(rt; check_image(&image), Ok(65));
    image.push(0)?;
    assert_eq!(rt; check_image(&image), Err(Reason::Size.at(0)));
    let longer = long(rt.alloc(), 500)?;
    assert_eq!(rt; longer.len(), 65536);
    assert_eq!(rt; check_image(&longer), Err(Reason::Size.at(0)));
    let zeros = vec![in rt.alloc(); 0; 65536]?;
    assert_eq!(rt;
        check_image(&zeros),
        Err(Reason::Size.at(0)),
        "the size comes before the version"
    );
    Ok(())
}

#[test]
fn records_are_parts_of_the_image(rt: HostRuntime) -> Result<(), Fail> {
    let image =
        b"\x01\x00\x08\x02\x05\x00\x00\x03\xFE\x07\x08\x00\x09\x03\x00\x00\x00\x04\x00\x00\x00\x10";
    let mut reader = Reader::open(image)?;
    assert_eq!(rt; reader.offset(), 1);
    let Some(Record::Data(data)) = reader.next()? else {
        return Err(Fail::new("no data"));
    };
    assert_eq!(rt; (data.erpn, data.address), (5, 1022));
    assert_eq!(rt; data.real_address(), 0x5_0000_03FE);
    assert_eq!(rt; data.bytes, &image[9..11]);
    assert_eq!(rt; reader.offset(), 11);
    let Some(Record::Start(start)) = reader.next()? else {
        return Err(Fail::new("no start"));
    };
    assert_eq!(rt; (start.counter, start.msr), (4, 16));
    assert_eq!(rt; reader.offset(), 22);
    assert!(rt; reader.next()?.is_none());
    assert_eq!(rt; reader.offset(), 22);
    Ok(())
}

#[test]
fn a_refusal_leaves_the_reader_where_it_stood(rt: HostRuntime) -> Result<(), Fail> {
    let mut reader = Reader::open(&[1, 0, 1, 4])?;
    assert_eq!(rt; reader.next(), Err(Reason::Form.at(1)));
    assert_eq!(rt; reader.offset(), 1);
    assert_eq!(rt; reader.next(), Err(Reason::Form.at(1)));
    Ok(())
}

#[test]
fn a_refusal_ends_a_loop(rt: HostRuntime) -> Result<(), Fail> {
    let mut records = Reader::open(&[1, 0, 1, 4])?.into_iter();
    assert_eq!(rt; records.next(), Some(Err(Reason::Form.at(1))));
    assert!(rt; records.next().is_none());
    Ok(())
}

#[test]
fn only_a_start_is_a_start(rt: HostRuntime) {
    let start = Record::Start(Start { counter: 0, msr: 0 });
    assert!(rt; start.is_start());
    let data = Record::Data(Data {
        erpn: 0,
        address: 0,
        bytes: b"a",
    });
    assert!(rt; !data.is_start());
    let entry = Record::Entry(PageEntry {
        number: 0,
        tid: 0,
        word0: 0,
        word1: 0,
        word2: 0,
    });
    assert!(rt; !entry.is_start());
}

#[test]
fn a_real_address_has_36_bits(rt: HostRuntime) {
    assert_eq!(rt; real_address(0, 0x100), 0x100);
    assert_eq!(rt; real_address(1, 0), 0x1_0000_0000);
    assert_eq!(rt; real_address(15, 0xFFFF_FFFF), 0xF_FFFF_FFFF);
}

#[test]
fn refusals_say_their_reason(rt: HostRuntime) -> Result<(), Fail> {
    let heap = rt.alloc();
    let texts = [
        (
            Reason::Size,
            "refusal 1 at offset 0: image empty or longer than 65535 bytes",
        ),
        (
            Reason::Version,
            "refusal 2 at offset 1: version other than 1",
        ),
        (
            Reason::Truncated,
            "refusal 3 at offset 2: record longer than the image",
        ),
        (
            Reason::Form,
            "refusal 4 at offset 3: unknown kind or wrong length of a record",
        ),
        (Reason::Range, "refusal 5 at offset 4: value out of range"),
        (
            Reason::Order,
            "refusal 7 at offset 5: start missing or not last",
        ),
        (
            Reason::Denied,
            "refusal 6 at offset 6: byte of data that the bus denies",
        ),
    ];
    for (offset, (reason, text)) in texts.iter().enumerate() {
        let said = reason.at(offset).to_string(heap)?;
        assert_eq!(rt; said.as_str(), *text);
    }
    Ok(())
}

// The records of an image and the refusal where there is one, with commas between.
fn description(heap: Global, image: &[u8]) -> Result<String, AllocError> {
    let mut text = String::new(heap);
    match Reader::open(image) {
        Ok(reader) => describe(heap, reader, &mut text)?,
        Err(refusal) => text.push_str(refused(heap, refusal)?.as_str())?,
    }
    Ok(text)
}

fn describe(heap: Global, reader: Reader, text: &mut String) -> Result<(), AllocError> {
    for found in reader {
        let part = match found {
            Ok(record) => shown(heap, record)?,
            Err(refusal) => refused(heap, refusal)?,
        };
        push_part(text, part.as_str())?;
    }
    Ok(())
}

fn push_part(text: &mut String, part: &str) -> Result<(), AllocError> {
    if !text.is_empty() {
        text.push_str(", ")?;
    }
    text.push_str(part)
}

fn refused(heap: Global, refusal: Refusal) -> Result<String, AllocError> {
    let number = refusal.reason.number();
    let offset = refusal.offset;
    format!(in heap; "refused {number} at {offset}")
}

fn shown(heap: Global, record: Record) -> Result<String, AllocError> {
    match record {
        Record::Entry(
            PageEntry {
                number,
                tid,
                word0,
                word1,
                word2,
            },
        ) => { format!(in heap; "entry {number} tid {tid} {word0:08X} {word1:08X} {word2:08X}") }
        Record::Data(
            Data {
                erpn,
                address,
                bytes,
            },
        ) => {
            let mut text = format!(in heap; "data {erpn} {address:08X}")?;
            for byte in bytes {
                text.push_str(format!(in heap; " {byte:02X}")?.as_str())?;
            }
            Ok(text)
        }
        Record::Start(Start { counter, msr }) => format!(in heap; "start {counter:08X} {msr:08X}"),
    }
}

// The records, or the refusal, of an image with so many bytes of data at an address, and a start.
fn placed(heap: Global, address: u32, count: u16) -> Result<Result<usize, Refusal>, AllocError> {
    let mut image = Vec::new(heap);
    image.push(1)?;
    push_data(&mut image, address, count)?;
    push_start(&mut image)?;
    Ok(check_image(&image))
}

fn long(heap: Global, last: u16) -> Result<Vec<u8>, AllocError> {
    let mut image = Vec::new(heap);
    image.push(1)?;
    for _ in 0..63 {
        push_data(&mut image, 0, 1024)?;
    }
    push_data(&mut image, 0, last)?;
    push_start(&mut image)?;
    Ok(image)
}

fn push_data(image: &mut Vec<u8>, address: u32, count: u16) -> Result<(), AllocError> {
    image.extend_from_slice(&count.saturating_add(6).to_be_bytes())?;
    image.extend_from_slice(&[2, 0])?;
    image.extend_from_slice(&address.to_be_bytes())?;
    for _ in 0..count {
        image.push(0xAA)?;
    }
    Ok(())
}

fn push_start(image: &mut Vec<u8>) -> Result<(), AllocError> {
    image.extend_from_slice(&[0, 9, 3, 0, 0, 0, 0, 0, 0, 0, 0])
}

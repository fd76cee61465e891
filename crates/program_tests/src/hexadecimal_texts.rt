//! Texts, and the bytes that they stand for or the fault that they have.
use hexadecimal::{Fault, parse};
use std::test::*;

// Texts and their bytes.
const SOUND: [(&[u8], &[u8]); 14] = [
    (b"", &[]),
    (b" \t\r\n\x0C", &[]),
    (b"00", &[0]),
    (b"09", &[9]),
    (b"90", &[144]),
    (b"0A", &[10]),
    (b"0f", &[15]),
    (b"aF", &[175]),
    (b"Fa", &[250]),
    (b"ff", &[255]),
    (b"1 2", &[18]),
    (b" 1\n2 3\t4 ", &[18, 52]),
    (
        b"0123456789abcdefABCDEF",
        &[1, 35, 69, 103, 137, 171, 205, 239, 171, 205, 239],
    ),
    (b"38600005 90600200\n", &[56, 96, 0, 5, 144, 96, 2, 0]),
];

// Texts and their faults.
const FAULTY: [(&[u8], Fault); 17] = [
    (b"0", Fault::HalfByte),
    (b" 0 ", Fault::HalfByte),
    (b"00 1", Fault::HalfByte),
    (b"123", Fault::HalfByte),
    (b"g", Fault::NoDigit { offset: 0 }),
    (b"G0", Fault::NoDigit { offset: 0 }),
    (b"0x10", Fault::NoDigit { offset: 1 }),
    (b"00 -1", Fault::NoDigit { offset: 3 }),
    (b"00,00", Fault::NoDigit { offset: 2 }),
    (b"12 3z 4!", Fault::NoDigit { offset: 4 }),
    // The characters beside the digits.
    (b"0/", Fault::NoDigit { offset: 1 }),
    (b"0:", Fault::NoDigit { offset: 1 }),
    (b"0@", Fault::NoDigit { offset: 1 }),
    (b"0`", Fault::NoDigit { offset: 1 }),
    // A vertical tab is no white space here, and neither is a byte that is no ASCII.
    (b"00\x0B", Fault::NoDigit { offset: 2 }),
    (b"00\xA0", Fault::NoDigit { offset: 2 }),
    (b"\0", Fault::NoDigit { offset: 0 }),
];

#[test]
fn sound_texts_give_their_bytes(rt: HostRuntime) -> Result<(), Fail> {
    for (text, bytes) in &SOUND {
        assert_eq!(rt; parse(rt.alloc(), text)?.as_slice(), *bytes);
    }
    Ok(())
}

#[test]
fn faulty_texts_are_refused(rt: HostRuntime) -> Result<(), Fail> {
    for (text, fault) in &FAULTY {
        assert_eq!(rt; parse(rt.alloc(), text).err(), Some(*fault));
    }
    Ok(())
}

#[test]
fn a_fault_says_what_and_where(rt: HostRuntime) -> Result<(), Fail> {
    let heap = rt.alloc();
    let place = Fault::NoDigit { offset: 12 };
    assert_eq!(rt;
        format!(in heap; "{place}")?.as_str(),
        "no hexadecimal digit at offset 12"
    );
    let half = Fault::HalfByte;
    assert_eq!(rt;
        format!(in heap; "{half}")?.as_str(),
        "half a byte at the end"
    );
    let full = Fault::NoMemory;
    assert_eq!(rt; format!(in heap; "{full}")?.as_str(), "no memory");
    Ok(())
}

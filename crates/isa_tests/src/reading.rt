//! Words read as instructions, shown as text and written back.
use crate::words::{
    ARITHMETIC, BRANCHES, IMMEDIATE, INVALID_FORMS, LOGICAL, NOT_LISTED, RESERVED_BITS, STORAGE,
    SYSTEM,
};
use assembly::Word;
use isa::{decode, encode};
use std::alloc::Global;
use std::process::Abort;
use std::test::Fail;

/// Each word has the text beside it, and its instruction is written as the word again.
fn legal(rt: &impl Abort, heap: Global, rows: &[(u32, &str)]) -> Result<(), Fail> {
    for (word, text) in rows {
        let shown = format!(in heap; "{}", Word(*word))?;
        assert_eq!(rt; shown.as_str(), *text);
        let instruction = decode(*word).ok_or("no instruction")?;
        assert_eq!(rt; encode(instruction), Some(*word), "{}", text);
    }
    Ok(())
}

/// Each word is illegal, for the reason beside it.
fn illegal(rt: &impl Abort, heap: Global, rows: &[(u32, &str)]) -> Result<(), Fail> {
    for (word, reason) in rows {
        assert!(rt; decode(*word).is_none(), "{}", reason);
        let shown = format!(in heap; "{}", Word(*word))?;
        assert_eq!(rt; shown.as_str(), "illegal");
    }
    Ok(())
}

#[test]
fn arithmetic(rt: HostRuntime) -> Result<(), Fail> {
    legal(&rt, rt.alloc(), &ARITHMETIC)
}

#[test]
fn immediate(rt: HostRuntime) -> Result<(), Fail> {
    legal(&rt, rt.alloc(), &IMMEDIATE)
}

#[test]
fn logical(rt: HostRuntime) -> Result<(), Fail> {
    legal(&rt, rt.alloc(), &LOGICAL)
}

#[test]
fn storage(rt: HostRuntime) -> Result<(), Fail> {
    legal(&rt, rt.alloc(), &STORAGE)
}

#[test]
fn branches(rt: HostRuntime) -> Result<(), Fail> {
    legal(&rt, rt.alloc(), &BRANCHES)
}

#[test]
fn system(rt: HostRuntime) -> Result<(), Fail> {
    legal(&rt, rt.alloc(), &SYSTEM)
}

#[test]
fn not_listed(rt: HostRuntime) -> Result<(), Fail> {
    illegal(&rt, rt.alloc(), &NOT_LISTED)
}

#[test]
fn reserved_bits(rt: HostRuntime) -> Result<(), Fail> {
    illegal(&rt, rt.alloc(), &RESERVED_BITS)
}

#[test]
fn invalid_forms(rt: HostRuntime) -> Result<(), Fail> {
    illegal(&rt, rt.alloc(), &INVALID_FORMS)
}

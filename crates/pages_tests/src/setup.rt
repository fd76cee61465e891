//! What the tests begin with.
use pages::{Entry, Pages, VirtualAddress};
use std::test::Fail;

/// The entry of a TID and three words.
pub fn entry(words: [u32; 4]) -> Entry {
    let [tid, word0, word1, word2] = words;
    Entry {
        tid,
        word0,
        word1,
        word2,
    }
}

/// A table whose only entry that is not zero has that number.
pub fn only(number: u32, entry: Entry) -> Result<Pages, Fail> {
    let mut pages = Pages::empty();
    pages.put(number, entry)?;
    Ok(pages)
}

/// An address in space 0 and process 1.
pub fn plain(effective: u32) -> VirtualAddress {
    VirtualAddress {
        space: false,
        pid: 1,
        effective,
    }
}

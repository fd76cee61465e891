//! The 64 page entries of the memory management unit: how they are rewritten and read, the search for the entry that
//! an address matches, and the translation of an effective address into a real one.
#![tactic(auto)]

mod entry;
mod matching;
mod table;
mod translation;

pub use entry::{Entry, NoSuchWord, Word};
pub use matching::VirtualAddress;
pub use table::{NoSuchEntry, Pages};
pub use translation::{Access, PageFault, Right};

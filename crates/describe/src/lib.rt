//! The records of a firmware image in words.
#![tactic(auto)]

mod count;
mod data;
mod entry;
mod flags;
mod record;
mod start;

pub use count::Count;
pub use data::{Data, WordLine};
pub use entry::Entry;
pub use record::Described;
pub use start::Start;

//! The reader of a firmware image: a version byte, then records, which are handed out as parts of the image.
#![tactic(auto)]

mod parse;
mod reader;
mod record;
mod records;
mod refusal;

pub use reader::{Reader, check};
pub use record::{Data, PageEntry, Record, Start, real_address};
pub use records::Records;
pub use refusal::{Reason, Refusal};

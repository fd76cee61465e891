//! What is done to a stopped core from outside: to look at a real address of its bus, to put a register or a page entry.
#![tactic(auto)]

mod looking;
mod putting;

pub use looking::{LookRefusal, look};
pub use putting::{Put, PutRefusal, put_value};

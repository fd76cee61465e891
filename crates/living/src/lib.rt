//! A whole life of a core as one call: a list of commands in, all answers out.
#![tactic(auto)]

mod command;
mod held;
mod living;

pub use command::{Command, Display, Registers, Response, RunningCall, StoppedCall};
pub use living::live;

//! The calls of a core's life: a stopped core takes load, look, put, reset, resume and retire, a running one step, run, line
//! and stop.
#![tactic(auto)]

mod holds;
mod reply;

pub use holds::{Running, Stopped};
pub use reply::Reply;

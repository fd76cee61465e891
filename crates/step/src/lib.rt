//! One step of a core over any bus, and many.
#![tactic(auto)]

pub mod answer;
mod running;
mod stepping;

pub use running::{MOST_STEPS, Ran, RunRefusal, run};
pub use stepping::step;

//! A core: its registers and page entries, with what always holds of them, and what privileged instructions do.
#![tactic(auto)]

mod deeds;
pub mod hidden;
mod interrupting;
mod machine;
mod parts;
mod saving;
mod setting;
pub mod special;
mod values;
mod view;

pub use deeds::IllegalDeed;
pub use machine::Core;
pub use values::known_values;

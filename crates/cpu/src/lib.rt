//! The registers that user state works with, and what each instruction does to them.
#![tactic(auto)]

mod branch;
mod conditions;
pub mod deed;
mod integer;
mod memory;
mod operation;
mod perform;
pub mod registers;
pub mod special;

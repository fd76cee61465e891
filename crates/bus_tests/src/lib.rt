//! Tables of accesses to each bus, with the answers and the bytes afterwards that the bus rules give.
#![tactic(auto)]

#[cfg(test)]
mod lending;
#[cfg(test)]
mod of_flags;
#[cfg(test)]
mod of_joins;
#[cfg(test)]
mod of_memory;
#[cfg(test)]
mod table;

#![tactic(auto)]

// Runs the register part of every instruction on tables of rows, whose values were worked out from the architecture.
#[cfg(test)]
mod bench;
#[cfg(test)]
mod branches;
#[cfg(test)]
mod compares;
#[cfg(test)]
mod conditions;
#[cfg(test)]
mod deeds;
#[cfg(test)]
mod logic;
#[cfg(test)]
mod memory;
#[cfg(test)]
mod others;
#[cfg(test)]
mod products;
#[cfg(test)]
mod rotates;
#[cfg(test)]
mod shifts;
#[cfg(test)]
mod specials;
#[cfg(test)]
mod sums;
#[cfg(test)]
mod traps;

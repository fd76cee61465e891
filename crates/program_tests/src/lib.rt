//! Runs the reading of hexadecimal text and the description of records on examples.
#![tactic(auto)]

#[cfg(test)]
mod describing;
#[cfg(test)]
mod hexadecimal_texts;
#[cfg(test)]
mod placing_bytes;

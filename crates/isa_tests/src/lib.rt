//! Tests of words, instructions and their text.
#![tactic(auto)]

#[cfg(test)]
mod no_word;
#[cfg(test)]
mod reading;
#[cfg(test)]
mod words;

//! Runs the reader of images on sound and on damaged ones.
#![tactic(auto)]

#[cfg(test)]
mod cases;
#[cfg(test)]
mod tests;

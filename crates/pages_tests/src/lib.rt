//! Page entries, the search and the translation on values worked out by hand from the rules
#![tactic(auto)]

#[cfg(test)]
mod matching;
#[cfg(test)]
mod rewriting;
#[cfg(test)]
mod setup;
#[cfg(test)]
mod translating;

//! The flags of a word, by name.
use std::fmt;

/// A bit of a word, by its mask, and its name.
#[derive(Clone, Copy)]
pub(crate) struct Flag(pub u32, pub &'static str);

/// Writes the names of those flags that are set in a word, in the order of the list, or `none`.
pub(crate) fn write_names<W: fmt::Write>(
    f: &mut fmt::Formatter<W>,
    flags: &[Flag],
    word: u32,
) -> fmt::Result {
    let mut set = flags.iter().filter(|Flag(mask, _)| word & mask != 0);
    let Some(Flag(_, first)) = set.next() else {
        return f.write_str("none");
    };
    f.write_str(first)?;
    for Flag(_, name) in set {
        write!(f, ", {name}")?;
    }
    Ok(())
}

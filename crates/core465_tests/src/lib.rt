//! Tests of a core's privileged deeds, with values from the architecture, and what a caller knows of a core.
#![tactic(auto)]

ghost use Rattle.std.specs.Prelude.{◌≡◌, ◌%◌};

#[cfg(test)]
mod deeds;
#[cfg(test)]
mod specials;

use core465::Core;

/// A core's counter, of which a caller knows by the contract alone that it is a multiple of four.
pub fn aligned(core: &Core) -> u32
    ensures { result % 4 ≡ 0 }
{
    core.counter()
}

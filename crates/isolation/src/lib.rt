//! The isolation of user state, as a law over all lives of a core, and two lives which show that it is not empty.
#![tactic(auto)]

ghost use Rattle.isolation.specs.Isolation.{Isolation};
ghost use Rattle.isolation.specs.Witness.{TwoLives};

/// The isolation law holds: the statement is this function's contract. It answers the number of its parts.
pub fn law() -> u32
    ensures { Isolation }
{
    5
}

/// Two lives as the law speaks of them exist, which differ where user state cannot see: the statement is this function's
/// contract. It answers their number.
pub fn two_lives() -> u32
    ensures { TwoLives }
{
    2
}

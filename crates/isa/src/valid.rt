//! Forms that are illegal though each of their fields is in range.
ghost use Rattle.std.specs.Prelude.{◌≡◌};
ghost use Rattle.isa.specs.Valid.{load_valid, store_valid, options_valid, branch_valid};

use crate::instruction::BranchTarget;

/// Whether a load's registers are valid: one that updates its base has one, and does not load it.
pub fn valid_load(update: bool, rt: u32, ra: u32) -> bool
    ensures { result ≡ load_valid update rt ra }
{
    !update || (ra != 0 && ra != rt)
}

/// Whether a store's base is valid: one that updates its base has one.
pub fn valid_store(update: bool, ra: u32) -> bool
    ensures { result ≡ store_valid update ra }
{
    !update || ra != 0
}

/// Whether the options of a conditional branch have no bit set that means nothing.
// The options are a number and no struct of flags, the bits of their field as the word holds them: a narrower type would
// ask more of a caller of `encode`, which refuses a number that is too large.
pub fn valid_options(bo: u32) -> bool
    ensures { result ≡ options_valid bo }
{
    let ignores_condition = bo / 16 % 2 == 1;
    let wants_condition = bo / 8 % 2 == 1;
    let keeps_count = bo / 4 % 2 == 1;
    let wants_zero = bo / 2 % 2 == 1;
    let hints = bo % 2 == 1;
    !(ignores_condition && wants_condition)
        && !(keeps_count && wants_zero)
        && !(ignores_condition && keeps_count && hints)
}

/// Whether the options of a branch to a register are valid: a branch to the count register does not decrement it.
pub fn valid_branch(target: BranchTarget, bo: u32) -> bool
    ensures { result ≡ branch_valid target bo }
{
    match target {
        BranchTarget::Link => valid_options(bo),
        BranchTarget::Count => valid_options(bo) && bo / 4 % 2 == 1,
    }
}

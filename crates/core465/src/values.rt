//! Values known from the architecture.
ghost use Rattle.core465.specs.Values.{KnownValues};

/// The known values hold of the definitions: the statement is this function's contract. It answers their number.
pub fn known_values() -> u32
    ensures { KnownValues }
{
    11
}

//! What a step answers.
use bus::{Code, Direction};
use interrupt::Taken;

/// A store that was made: the real address, the width and the value given to the bus.
#[derive(Clone, Copy, PartialEq, Eq, Debug)]
pub struct Stored {
    pub address: u64,
    pub width: u32,
    pub value: u32,
}

/// Which part of a step an access belongs to.
#[derive(Clone, Copy, PartialEq, Eq, Debug)]
pub enum Layer {
    Fetch,
    Data,
}

/// An access that the bus denied.
#[derive(Clone, Copy, PartialEq, Eq, Debug)]
pub struct BusFault {
    pub layer: Layer,
    pub address: u64,
    pub width: u32,
    pub direction: Direction,
    pub code: Code,
}

/// What came of a step.
#[derive(Clone, Copy, PartialEq, Eq, Debug)]
pub enum Answer {
    /// An instruction was done, with the store that it made, if it made one.
    Done(Option<Stored>),
    /// An interrupt was taken.
    Interrupt(Taken),
    /// The bus denied an access, and nothing has changed.
    BusFault(BusFault),
}

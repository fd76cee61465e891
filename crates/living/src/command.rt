//! What a life is told, and what it answers.
use core465::hidden::Hidden;
use cpu::registers::{Shown, Working};
use life::Reply;
use pages::Entry;
use service::Put;

/// A call that a stopped core takes.
#[derive(Drop)]
pub enum StoppedCall {
    /// The bytes of a firmware image.
    Load(Vec<u8>),
    Look { address: u64, width: u32 },
    Put(Put),
    Reset,
    Resume,
    Retire,
}

/// A call that a running core takes.
#[derive(Clone, Copy, PartialEq, Eq, Debug)]
pub enum RunningCall {
    Step,
    Run(u32),
    /// The external line, up or down.
    Line(bool),
    Stop,
}

/// What a core that is not retired shows, wherever it stands. It alters nothing.
#[derive(Clone, Copy, PartialEq, Eq, Debug)]
pub enum Display {
    Registers,
    /// The page entry that the low six bits of a number name.
    Entry(u32),
    /// The byte at a real address.
    Byte(u64),
}

/// What a life is told: a call, or to show something.
#[derive(Drop)]
pub enum Command {
    ToStopped(StoppedCall),
    ToRunning(RunningCall),
    Show(Display),
}

/// All registers of a core.
#[derive(Clone, Copy, PartialEq, Eq, Debug)]
pub struct Registers {
    pub working: Working,
    pub shown: Shown,
    pub hidden: Hidden,
}

/// What a life answers to a command.
#[derive(Clone, Copy, PartialEq, Eq, Debug)]
pub enum Response {
    /// The reply to a call.
    Replied(Reply),
    Registers(Registers),
    Entry(Entry),
    /// A byte, or none where the bus denies its read.
    Byte(Option<u32>),
    /// The core does not take this where it stands, and nothing has changed.
    Misplaced,
}

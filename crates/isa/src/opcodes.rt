//! The opcodes of the operations that have two: their numbers are the extended ones.
ghost use Rattle.std.specs.Prelude.{◌≡◌, ℕ, ◌<◌};
ghost use Rattle.isa.specs.Opcodes.{compare_immediate_opcode, load_opcode, store_opcode, bare_opcode, load_extended, store_extended};

use crate::instruction::{BareOp, Comparison, LoadOp, StoreOp};

/// An operation of a load or a store, with its opcodes without update.
pub trait Access: Copy {
    ghost opcode_of: { Self → ℕ };

    ghost extended_of: { Self → ℕ };

    /// The primary opcode of the form with a displacement; the next one is with update.
    fn opcode(self) -> u32
        ensures is { result ≡ opcode_of self }
        ensures small { result < 63 };

    /// The extended opcode of the form with an index; it is 32 more with update.
    fn extended(self) -> u32
        ensures is { result ≡ extended_of self }
        ensures small { result < 992 };
}

impl Access for LoadOp {
    ghost opcode_of = { load_opcode };

    ghost extended_of = { load_extended };

    fn opcode(self) -> u32 {
        match self {
            LoadOp::Lbz => 34,
            LoadOp::Lhz => 40,
            LoadOp::Lha => 42,
            LoadOp::Lwz => 32,
        }
    }

    fn extended(self) -> u32 {
        self as u32
    }
}

impl Access for StoreOp {
    ghost opcode_of = { store_opcode };

    ghost extended_of = { store_extended };

    fn opcode(self) -> u32 {
        match self {
            StoreOp::Stb => 38,
            StoreOp::Sth => 44,
            StoreOp::Stw => 36,
        }
    }

    fn extended(self) -> u32 {
        self as u32
    }
}

impl Comparison {
    /// The primary opcode of the form with an immediate.
    pub fn opcode(self) -> u32
        ensures { (result ≡ compare_immediate_opcode self) × (result < 64) }
    {
        match self {
            Comparison::Signed => 11,
            Comparison::Unsigned => 10,
        }
    }
}

impl BareOp {
    /// The primary opcode.
    pub fn opcode(self) -> u32
        ensures { (result ≡ bare_opcode self) × (result < 64) }
    {
        match self {
            BareOp::Rfi | BareOp::Isync => 19,
            BareOp::Msync | BareOp::Tlbsync => 31,
        }
    }
}

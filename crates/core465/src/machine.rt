//! A core's registers and page entries, with what always holds of them.
use crate::hidden::Hidden;
use cpu::registers::{Shown, Working};
use pages::Pages;
use std::marker::Model;

/// A core: the registers by what user state may do with them, and the page entries. Every register and entry holds only
/// the bits that it keeps, and the program counter is a multiple of four.
#[derive(Drop)]
pub struct Core {
    pub(crate) working: Working,
    pub(crate) shown: Shown,
    pub(crate) hidden: Hidden,
    pub(crate) pages: Pages,
}

impl Model for Core {
    ghost use Rattle.core465.specs.Machine.{Machine, MachineKept};

    ghost Value = { Machine };

    ghost use Rattle.core465.specs.Cores.{machine_of};

    ghost view = { machine_of };

    ghost invariant = { λ c. MachineKept (machine_of c) };
}

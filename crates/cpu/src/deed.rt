//! What is left to do once the registers had their part in an instruction.
use isa::instruction::Register;

/// How a loaded value becomes a register's word.
#[derive(Clone, Copy, PartialEq, Eq, Debug)]
pub enum Conversion {
    Plain,
    SignedHalf,
    ReversedHalf,
    ReversedWord,
}

/// A load to make: its effective address and width, and what its value is for.
#[derive(Clone, Copy, PartialEq, Eq, Debug)]
pub struct Loading {
    pub address: u32,
    // A number of bytes, as a bus takes it.
    pub width: u32,
    pub rt: Register,
    pub conversion: Conversion,
    /// The base register, where it gets the address.
    pub update: Option<Register>,
    /// Whether it sets the reservation.
    pub reserve: bool,
}

/// A store to make: its effective address, width and value.
#[derive(Clone, Copy, PartialEq, Eq, Debug)]
pub struct Storing {
    pub address: u32,
    // A number of bytes, as a bus takes it.
    pub width: u32,
    pub value: u32,
    /// The base register, where it gets the address.
    pub update: Option<Register>,
    /// Whether it reports in condition field 0 and clears the reservation.
    pub conditional: bool,
}

/// A privileged deed, with the values that it takes from the working registers.
#[derive(Clone, Copy, PartialEq, Eq, Debug)]
pub enum Privileged {
    /// mfmsr.
    ReadMsr {
        rt: Register,
    },
    /// mtmsr.
    WriteMsr {
        value: u32,
    },
    /// wrtee, wrteei.
    WriteExternalEnable {
        enable: bool,
    },
    /// rfi.
    Return,
    /// mfspr of a privileged number.
    ReadSpecial {
        rt: Register,
        number: u32,
    },
    /// mtspr of a privileged number.
    WriteSpecial {
        number: u32,
        value: u32,
    },
    // The number of a word is any, in both deeds: an enum would make `perform` refuse words of instructions that are built
    // by hand. The core that carries a deed out refuses the numbers that name none.
    /// tlbre.
    ReadEntry {
        rt: Register,
        entry: u32,
        word: u32,
    },
    /// tlbwe.
    WriteEntry {
        entry: u32,
        word: u32,
        value: u32,
    },
    /// tlbsx, tlbsx.
    SearchEntries {
        rt: Register,
        address: u32,
        rc: bool,
    },
    /// tlbsync.
    Synchronize,
}

/// What is left to do.
#[derive(Clone, Copy, PartialEq, Eq, Debug)]
pub enum Deed {
    /// Nothing: the registers are as the instruction leaves them.
    Finished,
    Load(Loading),
    Store(Storing),
    /// A conditional store without a reservation: a store's translation and alignment, and no bus.
    Probe { address: u32 },
    Trap,
    /// A system call.
    Call,
    /// An instruction that names no register there is.
    Illegal,
    Privileged(Privileged),
}

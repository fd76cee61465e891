//! The interrupts: their numbers, what brings each about, and what each tells of its cause.
#![tactic(auto)]

ghost use Rattle.std.specs.Prelude.{◌≡◌, ℕ, ◌<◌};
ghost use Rattle.interrupt.specs.Interrupts.{number_of, interrupt_of, fault_bit, store_bit, esr_of, dear_of, return_to, taken};

/// An interrupt that a core takes, by its number.
#[derive(Clone, Copy, PartialEq, Eq, Debug)]
pub enum Interrupt {
    DataStorage = 2,
    InstructionStorage = 3,
    ExternalInput = 4,
    Alignment = 5,
    Program = 6,
    SystemCall = 8,
    DataTlbError = 13,
    InstructionTlbError = 14,
}

/// Why an instruction brings about a Program interrupt.
#[derive(Clone, Copy, PartialEq, Eq, Debug)]
pub enum ProgramFault {
    /// The word is no instruction, or names a register that there is not.
    Illegal,
    /// A privileged instruction in user state.
    Privileged,
    /// A trap whose condition holds.
    Trap,
}

/// Whether data is read or written.
#[derive(Clone, Copy, PartialEq, Eq, Debug)]
pub enum DataKind {
    Load,
    Store,
}

/// A load or a store, by its effective address.
#[derive(Clone, Copy, PartialEq, Eq, Debug)]
pub struct DataAccess {
    pub effective: u32,
    pub kind: DataKind,
}

/// What brings about an interrupt.
#[derive(Clone, Copy, PartialEq, Eq, Debug)]
pub enum Cause {
    /// The external line is up, and its interrupts are enabled.
    ExternalInput,
    /// No page entry matches the counter.
    InstructionTlbError,
    /// The page of the counter may not be executed.
    InstructionStorage,
    Program(ProgramFault),
    SystemCall,
    /// No page entry matches.
    DataTlbError(DataAccess),
    /// The page does not grant the access.
    DataStorage(DataAccess),
    /// The address is no multiple of the access's width.
    Alignment(DataAccess),
}

// ESR and DEAR are numbers and no `Option`: a rule of the project is that the answer of a step has 0 where they are not
// set, as numbers that a caller compares.
/// What an interrupt tells: which it is, the return address in SRR0, and ESR and DEAR, 0 where it does not set them.
#[derive(Clone, Copy, PartialEq, Eq, Debug)]
pub struct Taken {
    pub interrupt: Interrupt,
    pub srr0: u32,
    pub esr: u32,
    pub dear: u32,
}

impl Interrupt {
    /// The number, which names its vector.
    pub fn number(self) -> u32
        ensures { (result ≡ number_of self) × (result < 16) }
    {
        self as u32
    }

    /// The return address, from the counter at the step's start: a system call returns behind itself, any other
    /// interrupt to where it was met.
    pub fn return_address(self, counter: u32) -> u32
        ensures { result ≡ return_to self counter }
    {
        match self {
            Interrupt::SystemCall => counter.wrapping_add(4),
            _ => counter,
        }
    }
}

impl ProgramFault {
    /// Its bit of ESR: PIL, PPR or PTR.
    fn bit(self) -> u32
        ensures { result ≡ fault_bit self }
    {
        match self {
            ProgramFault::Illegal => 0x0800_0000,
            ProgramFault::Privileged => 0x0400_0000,
            ProgramFault::Trap => 0x0200_0000,
        }
    }
}

impl DataKind {
    /// ESR's bit ST for a store, 0 for a load.
    fn bit(self) -> u32
        ensures { result ≡ store_bit self }
    {
        match self {
            DataKind::Load => 0,
            DataKind::Store => 0x0080_0000,
        }
    }
}

impl Cause {
    /// The interrupt that it brings about.
    pub fn interrupt(self) -> Interrupt
        ensures { result ≡ interrupt_of self }
    {
        match self {
            Cause::ExternalInput => Interrupt::ExternalInput,
            Cause::InstructionTlbError => Interrupt::InstructionTlbError,
            Cause::InstructionStorage => Interrupt::InstructionStorage,
            Cause::Program(_) => Interrupt::Program,
            Cause::SystemCall => Interrupt::SystemCall,
            Cause::DataTlbError(_) => Interrupt::DataTlbError,
            Cause::DataStorage(_) => Interrupt::DataStorage,
            Cause::Alignment(_) => Interrupt::Alignment,
        }
    }

    /// What ESR is set to, if it is.
    pub fn esr(self) -> Option<u32>
        ensures { result ≡ esr_of self }
    {
        match self {
            Cause::ExternalInput | Cause::InstructionTlbError | Cause::SystemCall => None,
            Cause::InstructionStorage => Some(0),
            Cause::Program(fault) => Some(fault.bit()),
            Cause::DataTlbError(access) | Cause::DataStorage(access) | Cause::Alignment(access) =>
                Some(access.kind.bit()),
        }
    }

    /// What DEAR is set to, if it is: the effective address of a load or a store.
    pub fn dear(self) -> Option<u32>
        ensures { result ≡ dear_of self }
    {
        match self {
            Cause::ExternalInput
            | Cause::InstructionTlbError
            | Cause::InstructionStorage
            | Cause::Program(_)
            | Cause::SystemCall => None,
            Cause::DataTlbError(access) | Cause::DataStorage(access) | Cause::Alignment(access) =>
                Some(access.effective),
        }
    }

    /// What the interrupt tells, from the counter at the step's start.
    pub fn taken(self, counter: u32) -> Taken
        ensures { result ≡ taken self counter }
    {
        let interrupt = self.interrupt();
        Taken {
            interrupt,
            srr0: interrupt.return_address(counter),
            esr: self.esr().unwrap_or(0),
            dear: self.dear().unwrap_or(0),
        }
    }
}

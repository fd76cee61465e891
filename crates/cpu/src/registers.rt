//! The registers, by what user state may do with them.

/// XER: summary overflow, overflow, carry, and a count of seven bits.
#[derive(Clone, Copy, PartialEq, Eq, Debug, Default)]
pub struct Xer {
    pub so: bool,
    pub ov: bool,
    pub ca: bool,
    pub count: u32,
}

/// What user state may alter: general registers, CR, XER, LR, CTR, USPRG0, the program counter and the reservation.
#[derive(Clone, Copy, PartialEq, Eq, Debug, Default)]
pub struct Working {
    pub gpr: [u32; 32],
    pub cr: u32,
    pub xer: Xer,
    pub lr: u32,
    pub ctr: u32,
    pub usprg0: u32,
    pub pc: u32,
    pub reserved: bool,
}

/// MSR: the enables of critical, external, machine check and debug interrupts, user state, and the address spaces of
/// fetches and of data.
#[derive(Clone, Copy, PartialEq, Eq, Debug, Default)]
pub struct Msr {
    pub ce: bool,
    pub ee: bool,
    pub pr: bool,
    pub me: bool,
    pub de: bool,
    pub is: bool,
    pub ds: bool,
}

/// What user state sees and does not alter: MSR, SPRG4 to SPRG7 and the external line.
#[derive(Clone, Copy, PartialEq, Eq, Debug, Default)]
pub struct Shown {
    pub msr: Msr,
    pub sprg: [u32; 4],
    pub line: bool,
}

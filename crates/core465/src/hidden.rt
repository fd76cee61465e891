//! The registers that user state neither sees nor alters.
use cpu::registers::Msr;

/// What an interrupt saves: SRR0, SRR1, ESR and DEAR.
#[derive(Clone, Copy, PartialEq, Eq, Debug, Default)]
pub struct Saved {
    pub srr0: u32,
    pub srr1: Msr,
    pub esr: u32,
    pub dear: u32,
}

/// MMUCR: the space and the task that tlbsx searches with.
#[derive(Clone, Copy, PartialEq, Eq, Debug, Default)]
pub struct Mmucr {
    pub sts: bool,
    pub stid: u32,
}

/// SRR0, SRR1, ESR, DEAR, PID, MMUCR, IVPR, IVOR0 to IVOR15 and SPRG0 to SPRG3.
#[derive(Clone, Copy, PartialEq, Eq, Debug, Default)]
pub struct Hidden {
    pub saved: Saved,
    pub pid: u32,
    pub mmucr: Mmucr,
    pub ivpr: u32,
    pub ivor: [u32; 16],
    pub sprg: [u32; 4],
}

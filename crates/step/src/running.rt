//! Many steps.
ghost use Rattle.std.specs.Prelude.{◌≡◌, ℕ, ◌%◌, ◌^◌, ◌<◌, ◌≤◌, Bool};
ghost use Rattle.core465.specs.Machine.{MachineKept};
ghost use Rattle.step.specs.Steps.{state_of};
ghost use Rattle.step.specs.Runs.{ends, run_refusal_number, Finished, ran, ran_on};

use crate::answer::Answer;
use crate::stepping::step;
use bus::Bus;
use core465::Core;
use std::error::Error;
use std::fmt;

/// The most steps of a run.
pub const MOST_STEPS: u32 = 1_000_000;

/// What a run came to: the steps taken, the last included, and the last one's answer.
#[derive(Clone, Copy, PartialEq, Eq, Debug)]
pub struct Ran {
    pub steps: u32,
    pub last: Answer,
}

/// Why a run is refused.
#[derive(Clone, Copy, PartialEq, Eq, Debug)]
pub enum RunRefusal {
    /// It has no step, or more than `MOST_STEPS`.
    BadCount = 11,
}

impl fmt::Display for RunRefusal {
    fn fmt<W: fmt::Write>(&self, f: &mut fmt::Formatter<W>) -> fmt::Result {
        write!(f, "a run has 1 to 1000000 steps")
    }
}

impl Error for RunRefusal {}

impl RunRefusal {
    /// The number by which the refusal is known.
    pub fn number(self) -> u32
        ensures { result ≡ run_refusal_number self }
    {
        self as u32
    }
}

impl Answer {
    /// Whether a run ends with it: an interrupt or a bus fault.
    pub fn ends(&self) -> bool
        ensures { result ≡ ends self.now }
    {
        match self {
            Answer::Done(_) => false,
            Answer::Interrupt(_) | Answer::BusFault(_) => true,
        }
    }
}

/// Up to `n` steps, ended by an interrupt or a bus fault. Refuses no step, and more than `MOST_STEPS`.
pub fn run<B: Bus>(core: &mut Core, bus: &mut B, n: u32) -> Result<Ran, RunRefusal>
    ensures does { ◌≡◌ {A = Finished} (record { result = result; state = state_of core.new (B.Bus.model bus.new) }) (ran n (state_of core.old (B.Bus.model bus.old))) }
    ensures keeps { MachineKept core.new }
{
    // Looked at, so that what every core keeps is known of this one, refused or not.
    let _ = core.counter();
    if n == 0 || n > MOST_STEPS {
        return Err(RunRefusal::BadCount);
    }
    let mut ran = Ran {
        steps: 1,
        last: step(core, bus),
    };
    for steps in 2..=n {
        if ran.last.ends() {
            break;
        }
        ran = Ran {
            steps,
            last: step(core, bus),
        };
    }
    Ok(ran)
}

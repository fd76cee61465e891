//! What an interrupt does to a core.
ghost use Rattle.std.specs.Prelude.{◌≡◌};
ghost use Rattle.interrupt.specs.Interrupts.{taken};
ghost use Rattle.core465.specs.Machine.{MachineKept};
ghost use Rattle.core465.specs.Interrupting.{entering, interrupted};

use crate::machine::Core;
use cpu::registers::Msr;
use interrupt::{Cause, Taken};

/// What an interrupt keeps of the MSR: CE, ME and DE.
fn entering(msr: Msr) -> Msr
    ensures { result ≡ entering msr }
{
    Msr {
        ce: msr.ce,
        me: msr.me,
        de: msr.de,
        ..Msr::default()
    }
}

impl Core {
    /// Takes an interrupt: the core goes on at its vector, in supervisor state.
    #[tactic(auto, unfolding(crate::specs::Interrupting::interrupted))]
    pub fn interrupt(&mut self, cause: Cause) -> Taken
        ensures answer { result ≡ taken cause self.old.working.pc }
        ensures after { self.new ≡ interrupted cause self.old }
        ensures keeps { MachineKept self.new }
    {
        let counter = self.working.pc;
        let msr = self.shown.msr;
        let vector = self.hidden.vector(cause.interrupt());
        self.hidden.saved.save(cause, counter, msr);
        self.shown.msr = entering(msr);
        self.working.pc = vector;
        cause.taken(counter)
    }
}

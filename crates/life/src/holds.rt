//! A core that is stopped and a core that runs. Neither can be let go: a life ends by `retire`.
ghost use Rattle.std.specs.Prelude.{◌≡◌};
ghost use Rattle.bus.specs.Model.{Model};
ghost use Rattle.step.specs.Steps.{state_of};
ghost use Rattle.core465.specs.Machine.{MachineKept};
ghost use Rattle.life.specs.Lives as Lives;
ghost use Rattle.life.specs.Lives.{called, replied, drive, running, stopped, retired, born};
ghost use Rattle.life.specs.declared.reply.Reply.TheVariants as replies;

use bus::Bus;
use core465::Core;
use image::Refusal;
use service::{LookRefusal, Put, PutRefusal};
use step::answer::Answer;
use step::{Ran, RunRefusal};

// Two types, and no type with a state as its parameter: each takes calls of its own, and `core` alone is in both.

/// A stopped core: a hold that must be spent by `resume` or by `retire`.
pub struct Stopped {
    core: Core,
    ghost keeps: { MachineKept core },
}

/// A running core. It is stopped before it is retired.
pub struct Running {
    core: Core,
    ghost keeps: { MachineKept core },
}

#[tactic(auto, unfolding(crate::specs::Lives::called))]
impl Stopped {
    /// Makes a core: zero everywhere, the line down, stopped.
    pub fn new() -> Stopped
        ensures { (m : Model) → stopped (state_of result.core m) ≡ born m }
    {
        Stopped { core: Core::new() }
    }

    /// Loads a firmware image: page entries, bytes, counter and MSR. It is checked whole first.
    pub fn load<B: Bus>(&mut self, bus: &mut B, image: &[u8]) -> Result<(), Refusal>
        ensures { replied (replies.Load result) (stopped (state_of self.new.core (B.Bus.model bus.new))) ≡ called (stopped (state_of self.old.core (B.Bus.model bus.old))) (Lives.load image.now) }
    {
        loader::load(&mut self.core, bus, image)
    }

    /// The value of the `width` bytes from a real address on.
    pub fn look<B: Bus>(&self, bus: &B, address: u64, width: u32) -> Result<u32, LookRefusal>
        ensures { replied (replies.Look result) (stopped (state_of self.now.core (B.Bus.model bus.now))) ≡ called (stopped (state_of self.now.core (B.Bus.model bus.now))) (Lives.look address width) }
    {
        service::look(bus, address, width)
    }

    /// Puts a register or a page entry.
    pub fn put(&mut self, what: Put) -> Result<(), PutRefusal>
        ensures { (m : Model) → replied (replies.Put result) (stopped (state_of self.new.core m)) ≡ called (stopped (state_of self.old.core m)) (Lives.put what) }
    {
        service::put_value(&mut self.core, what)
    }

    /// Makes the core as new.
    pub fn reset(&mut self)
        ensures { (m : Model) → replied replies.Done (stopped (state_of self.new.core m)) ≡ called (stopped (state_of self.old.core m)) Lives.reset }
    {
        self.core.reset();
    }

    /// Lets the core run.
    pub fn resume(self) -> Running
        ensures { (m : Model) → replied replies.Done (running (state_of result.core m)) ≡ called (stopped (state_of self.core m)) Lives.resume }
    {
        let Stopped { core } = self;
        Running { core }
    }

    /// Ends the life.
    pub fn retire(self)
        ensures { (m : Model) → replied replies.Done (retired m) ≡ called (stopped (state_of self.core m)) Lives.retire }
    {
        let Stopped { core: _ } = self;
    }

    /// The core, to look at.
    pub fn core(&self) -> &Core
        ensures { result.now ≡ self.now.core }
    {
        &self.core
    }
}

#[tactic(auto, unfolding(crate::specs::Lives::called))]
impl Running {
    /// One step.
    pub fn step<B: Bus>(&mut self, bus: &mut B) -> Answer
        ensures { replied (replies.Step result) (running (state_of self.new.core (B.Bus.model bus.new))) ≡ called (running (state_of self.old.core (B.Bus.model bus.old))) (drive Lives.step) }
    {
        step::step(&mut self.core, bus)
    }

    /// Up to `n` steps, ended by an interrupt or a bus fault.
    pub fn run<B: Bus>(&mut self, bus: &mut B, n: u32) -> Result<Ran, RunRefusal>
        ensures { replied (replies.Run result) (running (state_of self.new.core (B.Bus.model bus.new))) ≡ called (running (state_of self.old.core (B.Bus.model bus.old))) (drive (Lives.run n)) }
    {
        step::run(&mut self.core, bus, n)
    }

    /// The external line, up or down.
    pub fn line(&mut self, up: bool)
        ensures { (m : Model) → replied replies.Done (running (state_of self.new.core m)) ≡ called (running (state_of self.old.core m)) (drive (Lives.line up)) }
    {
        self.core.set_line(up);
    }

    /// Stops the core.
    pub fn stop(self) -> Stopped
        ensures { (m : Model) → replied replies.Done (stopped (state_of result.core m)) ≡ called (running (state_of self.core m)) Lives.stop }
    {
        let Running { core } = self;
        Stopped { core }
    }

    /// The core, to look at.
    pub fn core(&self) -> &Core
        ensures { result.now ≡ self.now.core }
    {
        &self.core
    }
}

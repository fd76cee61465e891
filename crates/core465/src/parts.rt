//! The parts of a step that a core has alone, without its bus.
ghost use Rattle.std.specs.Prelude.{◌≡◌};
ghost use Rattle.cpu.specs.Effects.{effect, effect_of, Waits};
ghost use Rattle.cpu.specs.Memory.{received, stored, settled};
ghost use Rattle.core465.specs.Machine.{MachineKept};
ghost use Rattle.core465.specs.Deeds.{with_working};
ghost use Rattle.core465.specs.Reaching.{seen, external, space_of, reach};

use crate::machine::Core;
use cpu::deed::{Deed, Loading, Storing};
use isa::instruction::Instruction;
use pages::{Access, PageFault, Right, VirtualAddress};

impl Core {
    /// Whether an external interrupt is due: the line is up, and they are enabled.
    pub fn external(&self) -> bool
        ensures is { result ≡ external (seen self.now) }
        ensures keeps { MachineKept self.now }
    {
        self.shown.line && self.shown.msr.ee
    }

    /// Whether the core is in user state.
    pub fn user(&self) -> bool
        ensures is { result ≡ self.now.shown.msr.pr }
        ensures keeps { MachineKept self.now }
    {
        self.shown.msr.pr
    }

    /// The program counter.
    pub fn counter(&self) -> u32
        ensures is { result ≡ self.now.working.pc }
        ensures keeps { MachineKept self.now }
    {
        self.working.pc
    }

    /// The space of an access.
    fn space(&self, access: Access) -> bool
        ensures { result ≡ space_of access self.now.shown.msr }
    {
        match access {
            Access::Fetch => self.shown.msr.is,
            Access::Load | Access::Store => self.shown.msr.ds,
        }
    }

    /// The real address of an access to an effective address.
    pub fn translate(&self, access: Access, effective: u32) -> Result<u64, PageFault>
        ensures is { result ≡ reach self.now access effective }
        ensures keeps { MachineKept self.now }
    {
        let address = VirtualAddress {
            space: self.space(access),
            pid: self.hidden.pid,
            effective,
        };
        let right = Right {
            user: self.shown.msr.pr,
            access,
        };
        self.pages.translate(address, right)
    }

    /// The register part of an instruction: it is done, or what is left to do is told and no register is altered yet.
    pub fn perform(&mut self, instruction: Instruction) -> Deed
        ensures same { effect_of result self.new.working ≡ effect instruction (seen self.old) }
        ensures waits { Waits result self.old.working self.new.working }
        ensures rest { self.new ≡ with_working self.old self.new.working }
        ensures keeps { MachineKept self.new }
    {
        self.working.perform(&self.shown, instruction)
    }

    /// A load's end, once its value is there.
    pub fn receive(&mut self, loading: Loading, value: u32)
        ensures is { self.new ≡ with_working self.old (received loading value self.old.working) }
        ensures keeps { MachineKept self.new }
    {
        self.working.receive(loading, value);
    }

    /// A store's end, once it is made.
    pub fn conclude(&mut self, storing: Storing)
        ensures is { self.new ≡ with_working self.old (stored storing self.old.working) }
        ensures keeps { MachineKept self.new }
    {
        self.working.conclude(storing);
    }

    /// A conditional store's end: whether it stored.
    pub fn settle(&mut self, stored: bool)
        ensures is { self.new ≡ with_working self.old (settled stored self.old.working) }
        ensures keeps { MachineKept self.new }
    {
        self.working.settle(stored);
    }
}

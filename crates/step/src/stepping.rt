//! One step.
ghost use Rattle.std.specs.Prelude.{◌≡◌, ℕ, ◌%◌, false};
ghost use Rattle.bus.specs.Model.{Model};
ghost use Rattle.cpu.specs.Effects.{effect, loads, stores, probe};
ghost use Rattle.cpu.specs.Memory.{settled};
ghost use Rattle.core465.specs.Machine.{MachineKept};
ghost use Rattle.core465.specs.Reaching.{seen, reach};
ghost use Rattle.interrupt.specs.declared.Cause.TheVariants.{Program};
ghost use Rattle.interrupt.specs.declared.ProgramFault.TheVariants.{Illegal};
ghost use Rattle.step.specs.declared.stepping.Stop.TheVariants as stop;
ghost use Rattle.step.specs.Plans.{aligned, fetching, access_of, goes, permits, carries};
ghost use Rattle.step.specs.Steps.{state_of, outcome, finished, enacted, stepped};

use crate::answer::{Answer, BusFault, Layer, Stored};
use bus::{Bus, Direction};
use core465::{Core, IllegalDeed};
use cpu::deed::{Deed, Loading, Privileged, Storing};
use interrupt::{Cause, DataAccess, DataKind, ProgramFault};
use isa::decode;
use isa::instruction::Instruction;
use pages::{Access, PageFault};

/// Why an instruction is not done. No register has changed then, and nothing on the bus.
enum Stop {
    /// An interrupt is to be taken.
    Interrupt(Cause),
    /// The bus denied an access.
    BusFault(BusFault),
}

impl From<Cause> for Stop {
    ghost from_gives = { λ cause s. s ≡ stop.Interrupt cause };

    fn from(cause: Cause) -> Stop {
        Stop::Interrupt(cause)
    }
}

impl From<BusFault> for Stop {
    ghost from_gives = { λ fault s. s ≡ stop.BusFault fault };

    fn from(fault: BusFault) -> Stop {
        Stop::BusFault(fault)
    }
}

impl From<IllegalDeed> for Stop {
    ghost from_gives = { λ _ s. s ≡ stop.Interrupt (Program Illegal) };

    fn from(_error: IllegalDeed) -> Stop {
        Stop::Interrupt(Cause::Program(ProgramFault::Illegal))
    }
}

// A width is a number of bytes, as a bus takes it; a rest by it would need that it is not 0.
/// Whether an access of this width may stand at the address.
fn aligned(address: u32, width: u32) -> bool
    ensures { result ≡ aligned address width }
{
    match width {
        4 => address % 4 == 0,
        2 => address % 2 == 0,
        _ => true,
    }
}

// A function and no `From`: an impl must stand with one of the two types, and neither crate knows the other.
/// What an access to data is for a page.
fn access_of(kind: DataKind) -> Access
    ensures { result ≡ access_of kind }
{
    match kind {
        DataKind::Load => Access::Load,
        DataKind::Store => Access::Store,
    }
}

/// The real address of the word at the counter, or the interrupt.
fn find_instruction(core: &Core) -> Result<u64, Cause>
    ensures { result ≡ fetching (reach core.now Access.Fetch core.now.working.pc) }
{
    core.translate(Access::Fetch, core.counter())
        .map_err(|fault| match fault {
            PageFault::Miss => Cause::InstructionTlbError,
            PageFault::Denied => Cause::InstructionStorage,
        })
}

/// The real address of a load or a store, or the interrupt.
fn find_data(core: &Core, access: DataAccess, width: u32) -> Result<u64, Cause>
    ensures is { result ≡ goes (reach core.now) access width }
    ensures keeps { MachineKept core.now }
{
    let address = core
        .translate(access_of(access.kind), access.effective)
        .map_err(|fault| match fault {
            PageFault::Miss => Cause::DataTlbError(access),
            PageFault::Denied => Cause::DataStorage(access),
        })?;
    if !aligned(access.effective, width) {
        return Err(Cause::Alignment(access));
    }
    Ok(address)
}

// A bus fault is written out where it is met: a function for the three would take each of the five fields.
/// Makes a load.
fn load<B: Bus>(core: &mut Core, bus: &B, loading: Loading) -> Result<Option<Stored>, Stop>
    ensures does { finished result (state_of core.new (B.Bus.model bus.now)) ≡ enacted (state_of core.old (B.Bus.model bus.now)) (carries (seen core.old) (reach core.old) (B.Bus.model bus.now) (loads loading core.old.working)) }
    ensures keeps { MachineKept core.new }
{
    let access = DataAccess {
        effective: loading.address,
        kind: DataKind::Load,
    };
    let width = loading.width;
    let address = find_data(core, access, width)?;
    let value = bus.read(address, width).map_err(|code| BusFault {
        layer: Layer::Data,
        address,
        width,
        direction: Direction::Read,
        code,
    })?;
    core.receive(loading, value);
    Ok(None)
}

/// Makes a store.
fn store<B: Bus>(core: &mut Core, bus: &mut B, storing: Storing) -> Result<Option<Stored>, Stop>
    ensures does { finished result (state_of core.new (B.Bus.model bus.new)) ≡ enacted (state_of core.old (B.Bus.model bus.old)) (carries (seen core.old) (reach core.old) (B.Bus.model bus.old) (stores storing core.old.working)) }
    ensures keeps { MachineKept core.new }
{
    let access = DataAccess {
        effective: storing.address,
        kind: DataKind::Store,
    };
    let Storing { width, value, .. } = storing;
    let address = find_data(core, access, width)?;
    bus.write(address, width, value).map_err(|code| BusFault {
        layer: Layer::Data,
        address,
        width,
        direction: Direction::Write,
        code,
    })?;
    core.conclude(storing);
    Ok(Some(Stored {
        address,
        width,
        value,
    }))
}

/// A conditional store without a reservation: a store's match, right and alignment, and no bus.
fn try_store(core: &mut Core, address: u32) -> Result<Option<Stored>, Stop>
    ensures does { (m : Model) → finished result (state_of core.new m) ≡ enacted (state_of core.old m) (carries (seen core.old) (reach core.old) m (probe address 4 (settled false core.old.working))) }
    ensures keeps { MachineKept core.new }
{
    let access = DataAccess {
        effective: address,
        kind: DataKind::Store,
    };
    find_data(core, access, 4)?;
    core.settle(false);
    Ok(None)
}

/// A privileged deed, which user state may not do.
fn carry_out(core: &mut Core, deed: Privileged) -> Result<Option<Stored>, Stop>
    ensures does { (m : Model) → finished result (state_of core.new m) ≡ enacted (state_of core.old m) (permits (seen core.old) deed) }
    ensures keeps { MachineKept core.new }
{
    if core.user() {
        return Err(Stop::Interrupt(Cause::Program(ProgramFault::Privileged)));
    }
    core.carry_out(deed)?;
    Ok(None)
}

/// Carries out an instruction, and answers the store that it made, if it made one.
fn execute<B: Bus>(
    core: &mut Core,
    bus: &mut B,
    instruction: Instruction,
) -> Result<Option<Stored>, Stop>
    ensures does { finished result (state_of core.new (B.Bus.model bus.new)) ≡ enacted (state_of core.old (B.Bus.model bus.old)) (carries (seen core.old) (reach core.old) (B.Bus.model bus.old) (effect instruction (seen core.old))) }
    ensures keeps { MachineKept core.new }
{
    match core.perform(instruction) {
        Deed::Finished => Ok(None),
        Deed::Load(loading) => load(core, bus, loading),
        Deed::Store(storing) => store(core, bus, storing),
        Deed::Probe { address } => try_store(core, address),
        Deed::Trap => Err(Stop::Interrupt(Cause::Program(ProgramFault::Trap))),
        Deed::Call => Err(Stop::Interrupt(Cause::SystemCall)),
        Deed::Illegal => Err(Stop::Interrupt(Cause::Program(ProgramFault::Illegal))),
        Deed::Privileged(deed) => carry_out(core, deed),
    }
}

/// The instruction at the counter, unless an external interrupt is due.
#[tactic(auto, unfolding(crate::specs::Plans::planned, crate::specs::Steps::stepped))]
fn go_on<B: Bus>(core: &mut Core, bus: &mut B) -> Result<Option<Stored>, Stop>
    ensures does { finished result (state_of core.new (B.Bus.model bus.new)) ≡ stepped (state_of core.old (B.Bus.model bus.old)) }
    ensures keeps { MachineKept core.new }
{
    if core.external() {
        return Err(Stop::Interrupt(Cause::ExternalInput));
    }
    let address = find_instruction(core)?;
    let word = bus.read(address, 4).map_err(|code| BusFault {
        layer: Layer::Fetch,
        address,
        width: 4,
        direction: Direction::Read,
        code,
    })?;
    let instruction = decode(word).ok_or(Cause::Program(ProgramFault::Illegal))?;
    execute(core, bus, instruction)
}

// A core and a bus are lent apart: whoever holds a core lends it, and the bus is the caller's. A struct of the two
// borrows would be built for each call.
/// One step: an external interrupt that is due, or the instruction at the counter.
#[tactic(auto, unfolding(crate::specs::Steps::interrupting))]
pub fn step<B: Bus>(core: &mut Core, bus: &mut B) -> Answer
    ensures does { outcome result core.new (B.Bus.model bus.new) ≡ stepped (state_of core.old (B.Bus.model bus.old)) }
    ensures keeps { MachineKept core.new }
{
    match go_on(core, bus) {
        Ok(stored) => Answer::Done(stored),
        Err(Stop::Interrupt(cause)) => Answer::Interrupt(core.interrupt(cause)),
        Err(Stop::BusFault(fault)) => Answer::BusFault(fault),
    }
}

//! The core of a life, wherever it stands.
ghost use Rattle.std.specs.Prelude.{◌≡◌};
ghost use Rattle.bus.specs.Model.{Model, read_of};
ghost use Rattle.step.specs.Steps.{state_of};
ghost use Rattle.life.specs.Lives.{running, stopped, retired, called};
ghost use Rattle.living.specs.Commands.{byte_of, displayed, responded, by_call, stopped_call, running_call, obeyed};
ghost use Rattle.living.specs.Standings.{standing_of};

use crate::command::{Command, Display, Registers, Response, RunningCall, StoppedCall};
use bus::Bus;
use core465::Core;
use life::{Reply, Running, Stopped};

/// The core of a life, wherever it stands.
pub(crate) enum Held {
    Up(Running),
    Down(Stopped),
    Gone,
}

/// Shows something of a core or its bus.
fn display<B: Bus>(core: &Core, bus: &B, what: Display) -> Response
    ensures { result ≡ displayed (state_of core.now (B.Bus.model bus.now)) what }
{
    match what {
        Display::Registers => Response::Registers(Registers {
            working: core.working(),
            shown: core.shown(),
            hidden: core.hidden(),
        }),
        Display::Entry(number) => Response::Entry(core.entry(number)),
        Display::Byte(address) => Response::Byte(bus.read(address, 1).ok()),
    }
}

/// A call on a stopped core.
fn on_stopped<B: Bus>(mut core: Stopped, bus: &mut B, call: &StoppedCall) -> (Held, Response)
    ensures { responded result.1 (standing_of result.0 (B.Bus.model bus.new)) ≡ by_call (called (stopped (state_of core.core (B.Bus.model bus.old))) (stopped_call call.now)) }
{
    let reply = match call {
        StoppedCall::Load(image) => Reply::Load(core.load(bus, image.as_slice())),
        StoppedCall::Look { address, width } => Reply::Look(core.look(bus, *address, *width)),
        StoppedCall::Put(what) => Reply::Put(core.put(*what)),
        StoppedCall::Reset => {
            core.reset();
            Reply::Done
        }
        StoppedCall::Resume => return (Held::Up(core.resume()), Response::Replied(Reply::Done)),
        StoppedCall::Retire => {
            core.retire();
            return (Held::Gone, Response::Replied(Reply::Done));
        }
    };
    (Held::Down(core), Response::Replied(reply))
}

/// A call on a running core.
fn on_running<B: Bus>(mut core: Running, bus: &mut B, call: RunningCall) -> (Held, Response)
    ensures { responded result.1 (standing_of result.0 (B.Bus.model bus.new)) ≡ by_call (called (running (state_of core.core (B.Bus.model bus.old))) (running_call call)) }
{
    let reply = match call {
        RunningCall::Step => Reply::Step(core.step(bus)),
        RunningCall::Run(n) => Reply::Run(core.run(bus, n)),
        RunningCall::Line(up) => {
            core.line(up);
            Reply::Done
        }
        RunningCall::Stop => return (Held::Down(core.stop()), Response::Replied(Reply::Done)),
    };
    (Held::Up(core), Response::Replied(reply))
}

impl Held {
    /// Shows something, while there is a core.
    fn show<B: Bus>(&self, bus: &B, what: Display) -> Response
        ensures { responded result (standing_of self.now (B.Bus.model bus.now)) ≡ obeyed (standing_of self.now (B.Bus.model bus.now)) (Command.Show what) }
    {
        match self {
            Held::Down(core) => display(core.core(), bus, what),
            Held::Up(core) => display(core.core(), bus, what),
            Held::Gone => Response::Misplaced,
        }
    }

    /// Obeys a command.
    pub(crate) fn obey<B: Bus>(self, bus: &mut B, command: &Command) -> (Held, Response)
        ensures { responded result.1 (standing_of result.0 (B.Bus.model bus.new)) ≡ obeyed (standing_of self (B.Bus.model bus.old)) command.now }
    {
        match (self, command) {
            (Held::Down(core), Command::ToStopped(call)) => on_stopped(core, bus, call),
            (Held::Up(core), Command::ToRunning(call)) => on_running(core, bus, *call),
            (held, Command::Show(what)) => {
                let response = held.show(bus, *what);
                (held, response)
            }
            (held, _) => (held, Response::Misplaced),
        }
    }

    /// Ends the life, if it has not ended yet.
    pub(crate) fn retire(self) {
        match self {
            Held::Up(core) => core.stop().retire(),
            Held::Down(core) => core.retire(),
            Held::Gone => {}
        }
    }
}

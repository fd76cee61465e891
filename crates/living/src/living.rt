//! A whole life.
ghost use Rattle.std.specs.Prelude.{◌≡◌, ℕ, ◌<◌, ◌≤◌, IfOk, vec_len, vec_capacity, MatchResult, OnOk};
ghost use Rattle.bus.specs.Model.{Model};
ghost use Rattle.life.specs.Lives.{born, bus_of, Whole};
ghost use Rattle.isolation.specs.Isolation.{Isolation};
ghost use Rattle.living.specs.Commands.{responses, lived};

use crate::command::{Command, Response};
use crate::held::Held;
use bus::Bus;
use life::Stopped;
use std::alloc::{AllocError, Global};

/// A whole life of a core on a bus: it is made, obeys the commands one after the other, and is retired at the end if no
/// command did so. Answers what each command was answered with. Where there is no memory for the answers, no core is made
/// and nothing happens. Over all such lives, on any two buses, the isolation law holds.
pub fn live<B: Bus>(
    heap: Global,
    bus: &mut B,
    commands: &[Command],
) -> Result<Vec<Response>, AllocError>
    ensures law { Isolation }
    ensures answers { IfOk result (λ v. v.items ≡ responses commands.now (born (B.Bus.model bus.old))) }
    ensures leaves { MatchResult result (λ _. B.Bus.model bus.new ≡ bus_of (lived commands.now (born (B.Bus.model bus.old)))) (λ _. B.Bus.model bus.new ≡ B.Bus.model bus.old) }
    ensures whole { OnOk result (Whole (B.Bus.model bus.old) (B.Bus.model bus.new)) }
{
    let mut answers = Vec::with_capacity(heap, commands.len())?;
    let mut life = Held::Down(Stopped::new());
    for command in commands {
        let (next, response) = life.obey(bus, command);
        life = next;
        answers.push_reserved(response);
    }
    life.retire();
    Ok(answers)
}

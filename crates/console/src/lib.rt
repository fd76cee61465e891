//! What the programs have in common: an image as hexadecimal text on standard input, and how a program ends.
#![tactic(auto)]

ghost use Rattle.std.specs.Prelude.{◌≡◌, ◌≤◌, if◌then◌else◌, IfOk};
ghost use Rattle.std.specs.Process.{exit_status};
ghost use Rattle.console.specs.Ending.{is_sound, status_of};

use hexadecimal::parse;
use image::{Reader, Refusal};
use std::io::Read;
use std::process::ExitCode;
use std::{env, io};

/// What a program found of its input, the worse the greater. Where it found a fault, it has printed it.
#[derive(Clone, Copy, PartialEq, Eq, PartialOrd, Ord, Default, Debug)]
pub enum Verdict {
    #[default]
    Sound,
    Faulty,
}

impl From<Verdict> for ExitCode {
    ghost from_gives = { λ verdict code. exit_status code ≡ status_of verdict };

    fn from(verdict: Verdict) -> ExitCode {
        match verdict {
            Verdict::Sound => ExitCode::SUCCESS,
            Verdict::Faulty => ExitCode::FAILURE,
        }
    }
}

/// Runs a program, which works on the reader of the image that stands on standard input as hexadecimal text. Called with
/// an argument, it prints how it is used.
pub fn run<F: FnOnce(Reader) -> io::Result<Verdict>>(
    rt: &HostRuntime,
    usage: &str,
    work: F,
) -> ExitCode
    requires { F.IsAlwaysCallable work }
    ensures { exit_status result ≤ 1 }
{
    end(rt, find(rt, usage, work))
}

// What a program finds of its input.
fn find<F: FnOnce(Reader) -> io::Result<Verdict>>(
    rt: &HostRuntime,
    usage: &str,
    work: F,
) -> io::Result<Verdict>
    requires { F.IsAlwaysCallable work }
{
    if wants_usage(rt)? {
        rt.print(usage)?;
        return Ok(Verdict::Sound);
    }
    let Some(image) = read_bytes(rt)? else {
        return Ok(Verdict::Faulty);
    };
    match Reader::open(&image) {
        Ok(reader) => work(reader),
        Err(refusal) => refuse(rt, refusal),
    }
}

/// Whether the program was called with an argument, for which it prints how it is used.
pub fn wants_usage(rt: &HostRuntime) -> io::Result<bool> {
    Ok(env::args(rt)?.count() > 1)
}

/// The bytes that stand on standard input as hexadecimal text. Where it is no such text, prints why and gives `None`.
pub fn read_bytes(rt: &HostRuntime) -> io::Result<Option<Vec<u8>>> {
    let mut text = Vec::new(rt.alloc());
    rt.stdin().read_to_end(&mut text)?;
    match parse(rt.alloc(), &text) {
        Ok(bytes) => Ok(Some(bytes)),
        Err(fault) => {
            println!(rt; "{fault}")?;
            Ok(None)
        }
    }
}

/// Prints why an image is refused.
pub fn refuse(rt: &impl Print, refusal: Refusal) -> io::Result<Verdict>
    ensures { IfOk result (λ v. v ≡ Verdict.Faulty) }
{
    println!(rt; "{refusal}")?;
    Ok(Verdict::Faulty)
}

/// How a program ends: with status 0 where nothing failed and its input is sound, and else with 1. An error of the
/// system is printed on standard error.
pub fn end(rt: &HostRuntime, found: io::Result<Verdict>) -> ExitCode
    ensures { exit_status result ≡ (if is_sound found then 0 else 1) }
{
    match found {
        Ok(verdict) => ExitCode::from(verdict),
        Err(error) => {
            let _ = eprintln!(rt; "Error: {error}");
            ExitCode::from(Verdict::Faulty)
        }
    }
}

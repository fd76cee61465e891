//! What a call is answered with.
use image::Refusal;
use service::{LookRefusal, PutRefusal};
use step::answer::Answer;
use step::{Ran, RunRefusal};

/// What a call of a life is answered with.
#[derive(Clone, Copy, PartialEq, Eq, Debug)]
pub enum Reply {
    Load(Result<(), Refusal>),
    Look(Result<u32, LookRefusal>),
    Put(Result<(), PutRefusal>),
    Step(Answer),
    Run(Result<Ran, RunRefusal>),
    /// A call that refuses nothing: reset, resume, retire, line, stop.
    Done,
}

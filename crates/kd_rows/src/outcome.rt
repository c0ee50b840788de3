//! What running a conversation again comes to.

ghost use Rattle.std.specs.Prelude.{IfOk};
ghost use Rattle.kd_rows.specs.Trials.{IsOutcome, IsCompared};

use crate::trial::Trial;
use kd_outside::MemSink;
use kd_replay::replay_frames;
use kd_types::Status;
use std::alloc::{AllocError, Global};

/// How many bytes a run takes at most, and how many it has room to write.
const MOST_BYTES: usize = 16_777_216;

/// What a trial came to.
#[derive(Clone, Copy, Debug, PartialEq, Eq)]
pub enum Outcome {
    /// It writes what is recorded, and ends as recorded.
    Agrees,
    /// It writes other bytes, or ends otherwise.
    Differs,
    /// Memory was wanting, or room for the input or for the replies.
    Unfinished,
}

/// A run that ended so and wrote this, beside what is recorded.
#[tactic(auto, using(crate::proofs::Answered::not_whole))]
fn compared(trial: &Trial, written: &[u8], end: Status) -> Outcome
    ensures { IsCompared trial.now written.now end result }
{
    match end {
        Status::Done | Status::BadFrame { .. } => {}
        _ => return Outcome::Unfinished,
    }
    if end != trial.end {
        return Outcome::Differs;
    }
    if trial.output.as_slice() != written {
        return Outcome::Differs;
    }
    Outcome::Agrees
}

/// Runs a trial again on a new bus.
pub fn outcome_of(alloc: Global, trial: &Trial) -> Result<Outcome, AllocError>
    ensures { IfOk result (IsOutcome trial.now) }
{
    if trial.input.len() > MOST_BYTES {
        return Ok(Outcome::Unfinished);
    }
    let mut sink = MemSink::make(vec![in alloc; 0u8; 1_048_576]?, Vec::new(alloc));
    let end = replay_frames(alloc, &trial.input, &mut sink);
    Ok(compared(trial, sink.held(), end))
}

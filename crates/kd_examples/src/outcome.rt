//! What running an example again comes to.

ghost use Rattle.std.specs.Prelude.{IfOk};
ghost use Rattle.kd_examples.specs.Examples.{IsOutcome};

use crate::example::Example;
use crate::runs::{answers, makes, tells};
use std::alloc::{AllocError, Global};
use std::fmt;

/// How many bytes a run takes at most.
const MOST_BYTES: usize = 16_777_216;

/// What an example came to: that it agrees, or the first that doesn't.
#[derive(Clone, Copy, Debug, PartialEq, Eq)]
pub enum Outcome {
    /// The lines make the frames, which get the replies, which are told so.
    Agrees,
    /// One of its files is longer than a run takes.
    TooLong,
    /// The lines make other frames, or none.
    OtherFrames,
    /// The frames get other replies.
    OtherReplies,
    /// The replies are told in other lines.
    OtherLines,
}

impl fmt::Display for Outcome {
    fn fmt<W: fmt::Write>(&self, f: &mut fmt::Formatter<W>) -> fmt::Result {
        match self {
            Outcome::Agrees => write!(f, "agrees"),
            Outcome::TooLong => write!(f, "a file is too long"),
            Outcome::OtherFrames => write!(f, "the lines make other frames"),
            Outcome::OtherReplies => write!(f, "the frames get other replies"),
            Outcome::OtherLines => write!(f, "the replies are told in other lines"),
        }
    }
}

/// Makes, answers and tells an example again, on a new bus.
pub fn outcome_of(alloc: Global, example: &Example) -> Result<Outcome, AllocError>
    ensures { IfOk result (IsOutcome example.now) }
{
    if example.lines.len() > MOST_BYTES {
        return Ok(Outcome::TooLong);
    }
    if example.frames.len() > MOST_BYTES {
        return Ok(Outcome::TooLong);
    }
    if example.replies.len() > MOST_BYTES {
        return Ok(Outcome::TooLong);
    }
    if !makes(alloc, &example.lines, &example.frames)? {
        return Ok(Outcome::OtherFrames);
    }
    if !answers(alloc, &example.frames, &example.replies)? {
        return Ok(Outcome::OtherReplies);
    }
    if !tells(alloc, &example.replies, &example.told)? {
        return Ok(Outcome::OtherLines);
    }
    Ok(Outcome::Agrees)
}

//! Whether a pair is right.

ghost use Rattle.std.specs.Prelude.{◌≡◌, ◌<◌, ◌≤◌, ◌+◌, ◌↔◌, ◌^◌, IsTrue, Ok, false, true};
ghost use Rattle.kd_types.specs.Refusal.{refusal_number, refusal_value};
ghost use Rattle.kd_world.specs.Step.{step};
ghost use Rattle.kd_core.specs.Running.{event_of};
ghost use Rattle.kd_trace.specs.Fronts.{pair_of};
ghost use Rattle.kd_trace.specs.Right.{IsRight, outcome_of};
ghost use Rattle.kd_trace.specs.Judging.{HoldsNumber, number_with};

use crate::comparing::{code_of, same_reply};
use crate::outcome::Outcome;
use crate::pairs::PairRead;
use kd_core::{Answer, Event, World};
use kd_desk::Out;
use kd_pool::Got;
use kd_types::{Blob, Refusal};
use kd_wire::Reply;
use std::alloc::{AllocError, Global};

fn is_refused(outcome: &Outcome, why: Refusal) -> bool
    ensures { IsTrue result
        ↔ (outcome.now ≡ Outcome.Refused (refusal_number why) (refusal_value why)) }
{
    match outcome {
        Outcome::Refused { code, value } => *code == code_of(why) && *value == why.value(),
        _ => false,
    }
}

fn is_visit_refused(outcome: &Outcome, why: Refusal) -> bool
    ensures { IsTrue result
        ↔ (outcome.now ≡ Outcome.VisitRefused (refusal_number why) (refusal_value why)) }
{
    match outcome {
        Outcome::VisitRefused { code, value } => *code == code_of(why) && *value == why.value(),
        _ => false,
    }
}

fn is_left(outcome: &Outcome, number: u64, reply: &Reply) -> bool
    ensures { IsTrue result ↔ (outcome.now ≡ Outcome.Left number reply.now) }
{
    match outcome {
        Outcome::Left { command, reply: r } => *command == number && same_reply(r, reply),
        _ => false,
    }
}

fn is_got(outcome: &Outcome, got: Got) -> bool
    ensures { IsTrue result
        ↔ (outcome.now ≡ Outcome.Got got.number got.offset got.length got.dropped) }
{
    match outcome {
        Outcome::Got {
            number,
            offset,
            length,
            dropped,
        } => {
            *number == got.number.0
                && *offset == u64::from(got.offset)
                && *length == u64::from(got.length)
                && *dropped == got.dropped
        }
        _ => false,
    }
}

fn is_bytes(outcome: &Outcome, bytes: &Blob) -> bool
    ensures { IsTrue result ↔ (outcome.now ≡ Outcome.Bytes bytes.now) }
{
    match outcome {
        Outcome::Bytes(b) => b.bytes() == bytes.bytes(),
        _ => false,
    }
}

/// Whether a trace has this answer, to an event while the command of this number is run.
pub fn is_outcome(outcome: &Outcome, number: u64, answer: &Answer) -> bool
    ensures { IsTrue result ↔ (outcome.now ≡ outcome_of number answer.now) }
{
    match answer {
        Answer::Taken => matches!(outcome, Outcome::Taken),
        Answer::Refused(why) => is_refused(outcome, *why),
        Answer::Visited(Out::Done) => matches!(outcome, Outcome::Visited),
        Answer::Visited(Out::Slice(slice)) =>
            matches!(outcome, Outcome::Slice { number } if *number == slice.0),
        Answer::Visited(Out::Refused(why)) => is_visit_refused(outcome, *why),
        Answer::Left(reply) => is_left(outcome, number, reply),
        Answer::Published => matches!(outcome, Outcome::Published),
        Answer::Gone => matches!(outcome, Outcome::Gone),
        Answer::Got(got) => is_got(outcome, *got),
        Answer::Bytes(bytes) => is_bytes(outcome, bytes),
        Answer::Freed => matches!(outcome, Outcome::Freed),
    }
}

/// The number of the command that an event gives, else the one before.
pub fn number_with(event: &Event, number: u64) -> u64
    ensures { result ≡ number_with (event_of event.now) number }
{
    match event {
        Event::Take { command, .. } => command.opcode().number(),
        _ => number,
    }
}

/// A run so far: the world behind it, and the number of the command with which the desk was last
/// taken.
#[derive(Drop)]
pub struct Run {
    /// The bus and its callers, behind the events that were run.
    pub world: World,
    /// The number of a command; 0 where the desk was never taken.
    pub number: u64,
}

impl Run {
    /// Runs the event of a pair where it is legal. Tells whether the pair is right; where it isn't,
    /// the run is of no more use.
    pub fn is_right(&mut self, alloc: Global, pair: PairRead) -> Result<bool, AllocError>
        requires number { HoldsNumber self.old.world.world self.old.number }
        requires steps { self.old.world.steps < 2 ^ 54 }
        ensures right { result ≡ Ok true → IsRight self.old.world.world (pair_of pair) }
        ensures next { result ≡ Ok true
            → self.new.world.world ≡ step self.old.world.world (event_of pair.event) }
        ensures number { result ≡ Ok true → HoldsNumber self.new.world.world self.new.number }
        ensures wrong { result ≡ Ok false → IsRight self.old.world.world (pair_of pair) → ⊥ }
        ensures steps { self.new.world.steps ≤ self.old.world.steps + 1 }
    {
        if !self.world.may(&pair.event) {
            return Ok(false);
        }
        self.number = number_with(&pair.event, self.number);
        let answer = self.world.step(alloc, pair.event)?;
        Ok(is_outcome(&pair.outcome, self.number, &answer))
    }
}

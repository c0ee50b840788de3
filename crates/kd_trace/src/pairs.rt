//! Reading an event and its answer.

ghost use Rattle.std.specs.Prelude.{◌≡◌, ◌<◌, ◌+◌, ◌^◌, ℕ, length, Err, IfNone, IfOk, IfSome};
ghost use Rattle.kd_core.specs.Running.{event_of};
ghost use Rattle.kd_trace.specs.Items.{caller_of};
ghost use Rattle.kd_trace.specs.Trace.{HasNoEvent, HasNoOutcome};
ghost use Rattle.kd_trace.specs.Fronts.{BeginsWithEvent, BeginsWithOutcome, BeginsWithPair, BreaksFrom, pair_of};

use crate::event_items::read_event;
use crate::outcome::Outcome;
use crate::outcome_items::read_outcome;
use crate::verdict::TraceError;
use kd_core::Event;
use kd_item::first_item;
use std::alloc::{AllocError, Global};

/// An event and its answer, and how many bytes their items take.
#[derive(Debug, Drop)]
pub struct PairRead {
    /// What was done, and by whom.
    pub event: Event,
    /// What it was answered.
    pub outcome: Outcome,
    /// How many bytes the two items take.
    pub size: usize,
}

/// Whose event it is.
pub fn caller_of(event: &Event) -> u64
    ensures { result ≡ caller_of (event_of event.now) }
{
    match event {
        Event::Take { caller, .. }
        | Event::Visit { caller, .. }
        | Event::Leave { caller }
        | Event::Publish { caller, .. }
        | Event::Receive { caller, .. }
        | Event::Read { caller, .. }
        | Event::Free { caller, .. } => *caller,
    }
}

/// The event at the front of the bytes, and how many bytes it takes.
fn first_event(alloc: Global, bytes: &[u8]) -> Result<Option<(Event, usize)>, AllocError>
    ensures found { IfOk result (λ o.
        IfSome o (λ f. BeginsWithEvent bytes.now (event_of f.0) f.1)) }
    ensures none { IfOk result (λ o. IfNone o (HasNoEvent bytes.now)) }
{
    let Some((item, size)) = first_item(bytes, 0) else {
        return Ok(None);
    };
    let Some(event) = read_event(alloc, item.kind, item.body)? else {
        return Ok(None);
    };
    Ok(Some((event, size)))
}

/// The answer to an event of this caller at the front of the bytes, and how many bytes it takes.
pub fn first_outcome(
    alloc: Global,
    caller: u64,
    bytes: &[u8],
) -> Result<Option<(Outcome, usize)>, AllocError>
    ensures found { IfOk result (λ o.
        IfSome o (λ f. BeginsWithOutcome caller bytes.now f.0 f.1)) }
    ensures none { IfOk result (λ o. IfNone o (HasNoOutcome caller bytes.now)) }
{
    let Some((item, size)) = first_item(bytes, 0) else {
        return Ok(None);
    };
    let Some(outcome) = read_outcome(alloc, caller, item)? else {
        return Ok(None);
    };
    Ok(Some((outcome, size)))
}

/// The pair at the front of bytes that begin at this place.
pub fn read_pair(alloc: Global, bytes: &[u8], at: usize) -> Result<PairRead, TraceError>
    requires { at + length bytes.now < 2 ^ 64 }
    ensures found { IfOk result (λ p. BeginsWithPair bytes.now (pair_of p) p.size) }
    ensures malformed { (place : ℕ) → result ≡ Err (TraceError.Malformed place)
        → BreaksFrom bytes.now at place }
{
    let Some((event, front)) = first_event(alloc, bytes)? else {
        return Err(TraceError::Malformed { at: at as u64 });
    };
    let behind = bytes.split_at(front).1;
    let Some((outcome, size)) = first_outcome(alloc, caller_of(&event), behind)? else {
        return Err(TraceError::Malformed {
            at: (at + front) as u64,
        });
    };
    Ok(PairRead {
        event,
        outcome,
        size: front + size,
    })
}

//! Writing down what a run tells.

ghost use Rattle.std.specs.Prelude.{◌<◌, ◌^◌, [], IsTrue, IfOk};
ghost use Rattle.kd_core.specs.Running.{event_of};
ghost use Rattle.kd_trace.specs.Items.{IsOutcome, outcome_entry};
ghost use Rattle.kd_trace.specs.Right.{outcome_of};
ghost use Rattle.kd_trace.specs.Recorded.{HasPlace, IsAwaited, IsWritten};
ghost use Rattle.kd_item.specs.Spelling.{Fits};

use crate::event_items::{NUMBERS, SEATS};
use crate::judging::{is_outcome, number_with};
use crate::pairs::{caller_of, first_outcome};
use crate::writing::{put_event, put_outcome};
use kd_core::{Answer, Event};
use kd_replay::Witness;
use kd_types::Seat;
use std::alloc::{AllocError, Global};

/// Whether a seat is one of a bus.
fn is_seat(seat: Seat) -> bool
    ensures { IsTrue result → seat < 64 }
{
    u64::from(seat.0) < SEATS
}

/// Whether a slice number is one that an item can name, as each is.
fn is_number(number: u32) -> bool
    ensures { IsTrue result → number < 2 ^ 32 }
{
    u64::from(number) < NUMBERS
}

/// Whether an event's seat is one of a bus, and its slice number one of an item.
fn has_place(event: &Event) -> bool
    ensures { IsTrue result → HasPlace (event_of event.now) }
{
    match event {
        Event::Visit { seat, .. } => is_seat(*seat),
        Event::Publish { seat, number, .. } => is_seat(*seat) && is_number(*number),
        Event::Take { .. } | Event::Leave { .. } | Event::Receive { .. } => true,
        Event::Read { number, .. } | Event::Free { number, .. } => is_number(*number),
    }
}

/// Whether the item of an answer, which stands in these bytes, is read as the same answer.
fn is_read_again(
    alloc: Global,
    bytes: &[u8],
    caller: u64,
    number: u64,
    answer: &Answer,
) -> Result<bool, AllocError>
    ensures stands { IfOk result (λ b. IsTrue b → IsOutcome caller (outcome_of number answer.now)) }
    ensures fits { IfOk result
        (λ b. IsTrue b → Fits (outcome_entry caller (outcome_of number answer.now))) }
{
    match first_outcome(alloc, caller, bytes)? {
        Some((outcome, _)) => Ok(is_outcome(&outcome, number, answer)),
        None => Ok(false),
    }
}

/// A witness that writes what it is told, as a trace.
#[derive(Drop)]
pub struct Recorder {
    /// Where its memory comes from.
    pub alloc: Global,
    /// The items of what it was told.
    pub written: Vec<u8>,
    /// Whose event it saw last.
    pub caller: u64,
    /// The number of the command with which the desk was last taken; 0 before.
    pub number: u64,
}

impl Recorder {
    /// It has heard nothing yet.
    pub fn make(alloc: Global) -> Recorder
        ensures { IsWritten result.written.items result.number [] }
    {
        Recorder {
            alloc,
            written: Vec::new(alloc),
            caller: 0,
            number: 0,
        }
    }

    /// Forgets all that it has heard.
    pub fn clear(&mut self)
        ensures { IsWritten self.new.written.items self.new.number [] }
    {
        self.written.clear();
        self.number = 0;
    }
}

impl Witness for Recorder {
    ghost has_heard = { λ r hs. IsWritten r.written.items r.number hs };

    ghost has_seen = { λ r hs e. IsAwaited r.written.items r.caller r.number hs e };

    /// Writes the event. One whose seat is none of a bus is refused, as if memory were wanting.
    fn see(&mut self, event: &Event) -> Result<(), AllocError> {
        if !has_place(event) {
            return Err(AllocError);
        }
        self.caller = caller_of(event);
        self.number = number_with(event, self.number);
        put_event(&mut self.written, self.alloc, event)
    }

    /// Writes the answer. One that isn't read again as the same is refused, as if memory were
    /// wanting.
    fn hear(&mut self, answer: &Answer) -> Result<(), AllocError> {
        let start = self.written.len();
        put_outcome(
            &mut self.written,
            self.alloc,
            self.caller,
            self.number,
            answer,
        )?;
        let (_, item) = self.written.split_at(start);
        if is_read_again(self.alloc, item, self.caller, self.number, answer)? {
            Ok(())
        } else {
            Err(AllocError)
        }
    }
}

//! Writing the items of events and of their answers.

ghost use Rattle.std.specs.Prelude.{◌≡◌, ◌≤◌, ◌++◌, length, OnOk};
ghost use Rattle.kd_item.specs.Spelling.{spelling};
ghost use Rattle.kd_wire.specs.Frames.{frame_of};
ghost use Rattle.kd_wire.specs.Refusals.{IsWellFormed};
ghost use Rattle.kd_wire.specs.Replies.{reply_frame};
ghost use Rattle.kd_world.specs.Legal.{take};
ghost use Rattle.kd_core.specs.Running.{event_of};
ghost use Rattle.kd_trace.specs.Items.{MayStand, mode_flags, limit_word, of_words};
ghost use Rattle.kd_trace.specs.Trace.{event_bytes, outcome_bytes};
ghost use Rattle.kd_trace.specs.Right.{outcome_of};
ghost use Rattle.kd_trace.specs.declared.outcome.Outcome.TheVariants as outcomes;

use crate::comparing::code_of;
use crate::event_items::{FREE, LEAVE, PUBLISH, READ, RECEIVE, TAKE, VISIT};
use crate::outcome_items::{BYTES, GOT, LEFT, PLAIN, REFUSED, SLICE, VISIT_REFUSED};
use kd_core::{Answer, Event};
use kd_desk::Out;
use kd_item::{put_entry, put_item, put_words};
use kd_pool::RecvMode;
use kd_replay::{is_answer, is_short};
use kd_wire::{Command, Reply, write_command, write_reply};
use std::alloc::{AllocError, Global};

/// Appends an item that is nothing but words.
fn put_own(out: &mut Vec<u8>, kind: u64, numbers: &[u64]) -> Result<(), AllocError>
    requires few { length numbers.now ≤ 8 }
    ensures { OnOk result (out.new.items ≡ out.old.items ++ spelling (of_words kind numbers.now)) }
{
    out.reserve(23 + 8 * numbers.len())?;
    put_entry(out, kind, numbers, &[]);
    Ok(())
}

/// Appends the take of a command, with the command's frame.
fn put_take(
    out: &mut Vec<u8>,
    alloc: Global,
    caller: u64,
    command: &Command,
) -> Result<(), AllocError>
    requires { IsWellFormed command.now }
    ensures { OnOk result (out.new.items ≡ out.old.items ++ event_bytes (take caller command.now)) }
{
    let mut body = Vec::with_capacity(alloc, 8)?;
    put_words(&mut body, &[caller]);
    write_command(&mut body, caller, command)?;
    put_item(out, TAKE, &body)
}

/// The word of the flags of a receive.
fn flags_of(mode: &RecvMode) -> u64
    ensures { result ≡ mode_flags mode.now }
{
    u64::from(mode.peek) + 2 * u64::from(mode.drop_it) + 4 * u64::from(mode.limit.is_some())
}

/// The word of a receive's limit, 0 where there is none.
fn limit_of(mode: &RecvMode) -> u64
    ensures { result ≡ limit_word mode.now.limit }
{
    match mode.limit {
        Some(limit) => limit.cast_unsigned(),
        None => 0,
    }
}

/// Appends the item of an event.
pub fn put_event(out: &mut Vec<u8>, alloc: Global, event: &Event) -> Result<(), AllocError>
    requires { MayStand (event_of event.now) }
    ensures { OnOk result (out.new.items ≡ out.old.items ++ event_bytes (event_of event.now)) }
{
    match event {
        Event::Take { caller, command } => put_take(out, alloc, *caller, command),
        Event::Visit { caller, seat } => put_own(out, VISIT, &[*caller, u64::from(seat.0)]),
        Event::Leave { caller } => put_own(out, LEAVE, &[*caller]),
        Event::Publish {
            caller,
            seat,
            number,
        } => put_own(
            out,
            PUBLISH,
            &[*caller, u64::from(seat.0), u64::from(*number)],
        ),
        Event::Receive { caller, mode } => {
            put_own(out, RECEIVE, &[*caller, flags_of(mode), limit_of(mode)])
        }
        Event::Read {
            caller,
            number,
            sealed,
        } => put_own(
            out,
            READ,
            &[*caller, u64::from(*number), u64::from(*sealed)],
        ),
        Event::Free { caller, number } => put_own(out, FREE, &[*caller, u64::from(*number)]),
    }
}

/// Appends the reply to a command of this number, with which the desk was left. A reply that isn't
/// one to the command, or is too long for any memory, is not written, as if memory were wanting.
fn put_left(
    out: &mut Vec<u8>,
    alloc: Global,
    caller: u64,
    number: u64,
    reply: &Reply,
) -> Result<(), AllocError>
    ensures { OnOk result
        (out.new.items ≡ out.old.items ++ outcome_bytes caller (outcomes.Left number reply.now)) }
{
    if !is_answer(number, reply) || !is_short(reply) {
        return Err(AllocError);
    }
    let mut frame = Vec::new(alloc);
    write_reply(&mut frame, caller, number, reply)?;
    put_item(out, LEFT, &frame)
}

/// Appends the item of an answer to an event of this caller, while the command of this number is
/// run.
pub fn put_outcome(
    out: &mut Vec<u8>,
    alloc: Global,
    caller: u64,
    number: u64,
    answer: &Answer,
) -> Result<(), AllocError>
    ensures { OnOk result
        (out.new.items ≡ out.old.items ++ outcome_bytes caller (outcome_of number answer.now)) }
{
    match answer {
        Answer::Taken => put_own(out, PLAIN, &[1]),
        Answer::Published => put_own(out, PLAIN, &[2]),
        Answer::Gone => put_own(out, PLAIN, &[3]),
        Answer::Freed => put_own(out, PLAIN, &[4]),
        Answer::Visited(Out::Done) => put_own(out, PLAIN, &[5]),
        Answer::Visited(Out::Slice(slice)) => put_own(out, SLICE, &[u64::from(slice.0)]),
        Answer::Visited(Out::Refused(why)) => {
            put_own(out, VISIT_REFUSED, &[code_of(*why), why.value()])
        }
        Answer::Refused(why) => put_own(out, REFUSED, &[code_of(*why), why.value()]),
        Answer::Left(reply) => put_left(out, alloc, caller, number, reply),
        Answer::Got(got) => put_own(
            out,
            GOT,
            &[
                u64::from(got.number.0),
                u64::from(got.offset),
                u64::from(got.length),
                got.dropped,
            ],
        ),
        Answer::Bytes(bytes) => put_item(out, BYTES, bytes.bytes()),
    }
}

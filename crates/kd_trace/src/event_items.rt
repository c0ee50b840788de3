//! Reading the item of an event.

ghost use Rattle.std.specs.Prelude.{◌≡◌, IfOk, IfSome, IfNone, option_map};
ghost use Rattle.kd_world.specs.Legal.{is_caller};
ghost use Rattle.kd_core.specs.Running.{event_of};
ghost use Rattle.kd_trace.specs.Items.{IsEventItem, IsNoEvent};
ghost use Rattle.kd_trace.specs.Reading.{event_in, free_in, leave_in, mode_in, publish_in, read_in, receive_in, take_with, visit_in};

use kd_core::Event;
use kd_item::word_at;
use kd_pool::RecvMode;
use kd_types::{RecvFlags, Refusal, Seat};
use kd_wire::{Command, Cut, Port, cut, read_command};
use std::alloc::{AllocError, Global};

/// The kinds of items that are events.
pub(crate) const TAKE: u64 = 32;

pub(crate) const VISIT: u64 = 33;

pub(crate) const LEAVE: u64 = 34;

pub(crate) const PUBLISH: u64 = 35;

pub(crate) const RECEIVE: u64 = 36;

pub(crate) const READ: u64 = 37;

pub(crate) const FREE: u64 = 38;

/// One more than the greatest slice number that an event can name.
pub(crate) const NUMBERS: u64 = 1 << 32;

/// The seats of a bus.
pub(crate) const SEATS: u64 = 64;

/// Whether a caller has this number.
fn is_caller(number: u64) -> bool
    ensures { result ≡ is_caller number }
{
    1 <= number && number <= 64
}

fn read_visit(body: &[u8]) -> Option<Event>
    ensures { option_map event_of result ≡ visit_in body.now }
{
    if body.len() != 16 {
        return None;
    }
    let caller = word_at(body, 0);
    if !is_caller(caller) {
        return None;
    }
    let seat = word_at(body, 8);
    if !(seat < SEATS) {
        return None;
    }
    Some(Event::Visit {
        caller,
        seat: Seat(seat as u8),
    })
}

fn read_leave(body: &[u8]) -> Option<Event>
    ensures { option_map event_of result ≡ leave_in body.now }
{
    if body.len() != 8 {
        return None;
    }
    let caller = word_at(body, 0);
    if !is_caller(caller) {
        return None;
    }
    Some(Event::Leave { caller })
}

fn read_publish(body: &[u8]) -> Option<Event>
    ensures { option_map event_of result ≡ publish_in body.now }
{
    if body.len() != 24 {
        return None;
    }
    let caller = word_at(body, 0);
    if !is_caller(caller) {
        return None;
    }
    let seat = word_at(body, 8);
    if !(seat < SEATS) {
        return None;
    }
    let number = word_at(body, 16);
    if !(number < NUMBERS) {
        return None;
    }
    Some(Event::Publish {
        caller,
        seat: Seat(seat as u8),
        number: number as u32,
    })
}

/// How a receive with these flags and this limit takes its message; a limit without its flag is
/// none.
fn mode_of(flags: u64, limit: u64) -> Option<RecvMode>
    ensures { result ≡ mode_in flags limit }
{
    if !(flags < 8) {
        return None;
    }
    let flags = RecvFlags(flags);
    if flags.has_limit() {
        return Some(RecvMode {
            peek: flags.peeks(),
            drop_it: flags.drops(),
            limit: Some(limit.cast_signed()),
        });
    }
    if limit != 0 {
        return None;
    }
    Some(RecvMode {
        peek: flags.peeks(),
        drop_it: flags.drops(),
        limit: None,
    })
}

fn read_receive(body: &[u8]) -> Option<Event>
    ensures { option_map event_of result ≡ receive_in body.now }
{
    if body.len() != 24 {
        return None;
    }
    let caller = word_at(body, 0);
    if !is_caller(caller) {
        return None;
    }
    let mode = mode_of(word_at(body, 8), word_at(body, 16))?;
    Some(Event::Receive { caller, mode })
}

fn read_read(body: &[u8]) -> Option<Event>
    ensures { option_map event_of result ≡ read_in body.now }
{
    if body.len() != 24 {
        return None;
    }
    let caller = word_at(body, 0);
    if !is_caller(caller) {
        return None;
    }
    let number = word_at(body, 8);
    if !(number < NUMBERS) {
        return None;
    }
    let sealed = word_at(body, 16);
    if !(sealed < 2) {
        return None;
    }
    Some(Event::Read {
        caller,
        number: number as u32,
        sealed: sealed == 1,
    })
}

fn read_free(body: &[u8]) -> Option<Event>
    ensures { option_map event_of result ≡ free_in body.now }
{
    if body.len() != 16 {
        return None;
    }
    let caller = word_at(body, 0);
    if !is_caller(caller) {
        return None;
    }
    let number = word_at(body, 8);
    if !(number < NUMBERS) {
        return None;
    }
    Some(Event::Free {
        caller,
        number: number as u32,
    })
}

/// What an item says as an event other than a take.
#[tactic(auto, unfolding(crate::specs::Reading::event_in))]
fn read_other(kind: u64, body: &[u8]) -> Option<Event>
    ensures { option_map event_of result ≡ event_in kind body.now }
{
    match kind {
        VISIT => read_visit(body),
        LEAVE => read_leave(body),
        PUBLISH => read_publish(body),
        RECEIVE => read_receive(body),
        READ => read_read(body),
        FREE => read_free(body),
        _ => None,
    }
}

/// The take of a command, where its frame names the caller that stands before it.
fn take_with(first: u64, caller: u64, command: Command) -> Option<Event>
    ensures { option_map event_of result ≡ take_with first caller command }
{
    if caller == first {
        Some(Event::Take { caller, command })
    } else {
        None
    }
}

/// The take that a body says: a caller, and the whole frame of a command of its own.
fn read_take(alloc: Global, body: &[u8]) -> Result<Option<Event>, AllocError>
    ensures read { IfOk result (λ o.
        IfSome o (λ e. IsEventItem (record { kind = 32; body = body.now }) (event_of e))) }
    ensures none { IfOk result
        (λ o. IfNone o (IsNoEvent (record { kind = 32; body = body.now }))) }
{
    if body.len() < 8 {
        return Ok(None);
    }
    let (_, frame) = body.split_at(8);
    let Cut::Frame { size } = cut(frame) else {
        return Ok(None);
    };
    if size != frame.len() as u64 {
        return Ok(None);
    }
    match read_command(alloc, frame, Port::Replay) {
        Ok((caller, command)) => Ok(take_with(word_at(body, 0), caller, command)),
        Err(why) => match why {
            Refusal::OutOfMemory => Err(AllocError),
            _ => Ok(None),
        },
    }
}

/// The event that an item of this kind and body is, where it is one.
pub fn read_event(alloc: Global, kind: u64, body: &[u8]) -> Result<Option<Event>, AllocError>
    ensures read { IfOk result (λ o.
        IfSome o (λ e. IsEventItem (record { kind = kind; body = body.now }) (event_of e))) }
    ensures none { IfOk result
        (λ o. IfNone o (IsNoEvent (record { kind = kind; body = body.now }))) }
{
    if kind == TAKE {
        return read_take(alloc, body);
    }
    Ok(read_other(kind, body))
}

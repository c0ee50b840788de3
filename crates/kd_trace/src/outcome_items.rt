//! Reading the item of an answer.

ghost use Rattle.std.specs.Prelude.{◌≡◌, ◌≤◌, length, Ok, IfOk};
ghost use Rattle.kd_item.specs.Reading.{item_entry};
ghost use Rattle.kd_trace.specs.Reading.{got_in, is_refusal, left_by, left_in, outcome_in, plain_in, plain_of, refused_in, slice_in, visit_refused_in};

use crate::outcome::Outcome;
use kd_item::{Item, word_at};
use kd_types::{Blob, ReplyError};
use kd_wire::{Reply, head, read_reply};
use std::alloc::{AllocError, Global};

/// The kinds of items that are answers.
pub(crate) const PLAIN: u64 = 48;

pub(crate) const REFUSED: u64 = 49;

pub(crate) const SLICE: u64 = 50;

pub(crate) const VISIT_REFUSED: u64 = 51;

pub(crate) const LEFT: u64 = 52;

pub(crate) const GOT: u64 = 53;

pub(crate) const BYTES: u64 = 54;

/// One more than the greatest slice number that an answer can name.
const NUMBERS: u64 = 1 << 32;

fn plain_of(word: u64) -> Option<Outcome>
    ensures { result ≡ plain_of word }
{
    match word {
        1 => Some(Outcome::Taken),
        2 => Some(Outcome::Published),
        3 => Some(Outcome::Gone),
        4 => Some(Outcome::Freed),
        5 => Some(Outcome::Visited),
        _ => None,
    }
}

fn read_plain(body: &[u8]) -> Option<Outcome>
    ensures { result ≡ plain_in body.now }
{
    if body.len() == 8 {
        plain_of(word_at(body, 0))
    } else {
        None
    }
}

/// Whether a refusal has this number and this value; one that has no field has the value 0.
fn is_refusal(code: u64, value: u64) -> bool
    ensures { result ≡ is_refusal code value }
{
    match code {
        1 | 2 | 10 | 14 | 18 | 22 | 26 => true,
        3..=37 => value == 0,
        _ => false,
    }
}

fn read_refused(body: &[u8]) -> Option<Outcome>
    ensures { result ≡ refused_in body.now }
{
    if body.len() != 16 {
        return None;
    }
    let code = word_at(body, 0);
    let value = word_at(body, 8);
    if is_refusal(code, value) {
        Some(Outcome::Refused { code, value })
    } else {
        None
    }
}

fn read_visit_refused(body: &[u8]) -> Option<Outcome>
    ensures { result ≡ visit_refused_in body.now }
{
    if body.len() != 16 {
        return None;
    }
    let code = word_at(body, 0);
    let value = word_at(body, 8);
    if is_refusal(code, value) {
        Some(Outcome::VisitRefused { code, value })
    } else {
        None
    }
}

fn read_slice(body: &[u8]) -> Option<Outcome>
    ensures { result ≡ slice_in body.now }
{
    if body.len() != 8 {
        return None;
    }
    let number = word_at(body, 0);
    if number < NUMBERS {
        Some(Outcome::Slice {
            number: number as u32,
        })
    } else {
        None
    }
}

fn read_got(body: &[u8]) -> Option<Outcome>
    ensures { result ≡ got_in body.now }
{
    if body.len() != 32 {
        return None;
    }
    let number = word_at(body, 0);
    if number < NUMBERS {
        Some(Outcome::Got {
            number: number as u32,
            offset: word_at(body, 8),
            length: word_at(body, 16),
            dropped: word_at(body, 24),
        })
    } else {
        None
    }
}

/// The reply of a body, where it is one to this caller.
fn left_with(caller: u64, body: &[u8], reply: Reply) -> Option<Outcome>
    requires { 32 ≤ length body.now }
    ensures { result ≡ left_by caller body.now (Ok reply) }
{
    let head = head(body);
    if head.caller == caller {
        Some(Outcome::Left {
            command: head.command,
            reply,
        })
    } else {
        None
    }
}

/// The reply that a body spells, where it is one to this caller.
fn read_left(alloc: Global, caller: u64, body: &[u8]) -> Result<Option<Outcome>, AllocError>
    ensures { IfOk result (λ o. o ≡ left_in caller body.now) }
{
    match read_reply(alloc, body) {
        Ok((_, reply)) => Ok(left_with(caller, body, reply)),
        Err(ReplyError::OutOfMemory) => Err(AllocError),
        Err(_) => Ok(None),
    }
}

/// What an item says as the answer to an event of this caller, where it says one.
#[tactic(auto, unfolding(crate::specs::Reading::outcome_in))]
pub fn read_outcome(
    alloc: Global,
    caller: u64,
    item: Item<'_>,
) -> Result<Option<Outcome>, AllocError>
    ensures { IfOk result (λ o. o ≡ outcome_in caller (item_entry item.entry)) }
{
    Ok(match item.kind {
        PLAIN => read_plain(item.body),
        REFUSED => read_refused(item.body),
        SLICE => read_slice(item.body),
        VISIT_REFUSED => read_visit_refused(item.body),
        LEFT => read_left(alloc, caller, item.body)?,
        GOT => read_got(item.body),
        BYTES => Some(Outcome::Bytes(Blob::of(Vec::from_slice(alloc, item.body)?))),
        _ => None,
    })
}

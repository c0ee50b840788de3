//! Reading replies, over whatever pieces come.

ghost use Rattle.std.specs.Prelude.{◌≡◌, ℕ, ◌^◌, ◌<◌, ◌≤◌, ◌↔◌, IsTrue, length, vec_len, vec_capacity, IfOk, IfErr, OnOk};
ghost use Rattle.std.specs.Io.KnownBytes.{Consumes, IsAtEnd};
ghost use Rattle.kd_outside.specs.Causes.{HasCause};
ghost use Rattle.kd_wire.specs.Opcodes.{opcode_number};
ghost use Rattle.kd_wire.specs.Replies.{IsReplyTo, reply_frame, reply_length};
ghost use Rattle.kd_client.specs.Causes.{Came, HasNone, IsUnread, IsWhole, StopsShort};

use crate::error::ClientError;
use kd_item::word_at;
use kd_outside::{Failed, Link};
use kd_types::ReplyError;
use kd_wire::{Opcode, Reply, head, read_reply};
use std::alloc::Global;

/// The least reply: the four words of its head.
const HEAD: usize = 32;

/// The greatest reply that is read: twice a pool's greatest size, so that no slice is too long. It
/// bounds the memory that a peer can make a client take.
const LIMIT: u64 = 2_097_152;

/// Reads on until there are `total` bytes, or the link is at its end.
fn read_until<L: Link>(link: &mut L, bytes: &mut Vec<u8>, total: usize) -> Result<(), Failed>
    requires within { vec_len bytes.old ≤ total }
    requires room { total ≤ vec_capacity bytes.old }
    ensures came { Came (L.told link.old).reading.bytes (L.told link.new).reading.bytes
        bytes.old.items bytes.new.items }
    ensures bound { vec_len bytes.new ≤ total }
    ensures end { OnOk result
        (vec_len bytes.new < total → IsAtEnd (L.told link.new).reading.bytes) }
    ensures cause { HasCause (L.told link.old).reading.faults (L.told link.new).reading.faults
        result }
    ensures kept { (L.told link.new).writing ≡ (L.told link.old).writing }
{
    let mut buffer = [0u8; 4096];
    'reading: while bytes.len() < total {
        let room = buffer.len().min(total - bytes.len());
        let (part, _) = buffer.split_at_mut(room);
        let count = link.receive(part)?;
        if count == 0 {
            return Ok(());
        }
        bytes.extend_from_slice(part.split_at(count).0).unwrap();
    }
    Ok(())
}

/// Reads on until there are `total` bytes of what begins at this place.
fn read_to<L: Link>(
    link: &mut L,
    bytes: &mut Vec<u8>,
    total: usize,
    at: u64,
) -> Result<(), ClientError>
    requires within { vec_len bytes.old ≤ total }
    requires few { total ≤ 2097152 }
    requires place { at < 2 ^ 63 }
    ensures came { Came (L.told link.old).reading.bytes (L.told link.new).reading.bytes
        bytes.old.items bytes.new.items }
    ensures all { OnOk result (vec_len bytes.new ≡ total) }
    ensures err { IfErr result (λ e. StopsShort at total (L.told link.old).reading
        (L.told link.new).reading bytes.new.items e) }
    ensures faults { OnOk result
        ((L.told link.new).reading.faults ≡ (L.told link.old).reading.faults) }
    ensures kept { (L.told link.new).writing ≡ (L.told link.old).writing }
{
    bytes.reserve(total - bytes.len())?;
    read_until(link, bytes, total)?;
    if bytes.len() < total {
        return Err(ClientError::Ended {
            at: at + bytes.len() as u64,
        });
    }
    Ok(())
}

/// Reads as many bytes as their size word says, from this place on.
#[tactic(auto, using(crate::proofs::NoReply::stops_none))]
fn read_whole<L: Link>(link: &mut L, bytes: &mut Vec<u8>, at: u64) -> Result<(), ClientError>
    requires { at < 2 ^ 63 }
    ensures whole { OnOk result (IsWhole bytes.new.items) }
    ensures read { OnOk result (Consumes (L.told link.old).reading.bytes
        (L.told link.new).reading.bytes bytes.new.items) }
    ensures err { IfErr result (λ e. (command : ℕ) → HasNone command at
        (L.told link.old).reading (L.told link.new).reading e) }
    ensures faults { OnOk result
        ((L.told link.new).reading.faults ≡ (L.told link.old).reading.faults) }
    ensures kept { (L.told link.new).writing ≡ (L.told link.old).writing }
{
    bytes.clear();
    read_to(link, bytes, 8, at)?;
    let size = word_at(bytes, 0);
    if size < HEAD as u64 {
        return Err(ClientError::BadReply { at });
    }
    if size > LIMIT {
        return Err(ClientError::BadReply { at });
    }
    read_to(link, bytes, size as usize, at)?;
    Ok(())
}

/// Whether a reply's caller word is that of a session's client.
fn is_client(caller: u64) -> bool
    ensures fits { caller < 2 ^ 64 }
    ensures value { IsTrue result ↔ (caller ≡ 0) }
{
    caller == 0
}

/// The reply that these bytes spell, which begin at this place.
fn reply_of(alloc: Global, bytes: &[u8], opcode: Opcode, at: u64) -> Result<Reply, ClientError>
    requires { IsWhole bytes.now }
    ensures spelled { IfOk result (λ r. bytes.now ≡ reply_frame (opcode_number opcode) 0 r) }
    ensures answers { IfOk result (IsReplyTo (opcode_number opcode)) }
    ensures err { IfErr result (IsUnread (opcode_number opcode) at bytes.now) }
{
    let named = head(bytes);
    if named.command != opcode.number() {
        return Err(ClientError::BadReply { at });
    }
    match read_reply(alloc, bytes) {
        Ok((caller, reply)) => if is_client(caller) {
            Ok(reply)
        } else {
            Err(ClientError::BadReply { at })
        },
        Err(ReplyError::OutOfMemory) => Err(ClientError::OutOfMemory),
        Err(ReplyError::Bad { .. }) => Err(ClientError::BadReply { at }),
    }
}

/// Reads the reply to a command of this kind, which begins at this place. Its bytes are left.
#[tactic(auto, using(crate::proofs::Heads::length_of_reply))]
pub(crate) fn read_reply_to<L: Link>(
    alloc: Global,
    link: &mut L,
    bytes: &mut Vec<u8>,
    opcode: Opcode,
    at: u64,
) -> Result<Reply, ClientError>
    requires { at < 2 ^ 63 }
    ensures read { IfOk result (λ r. Consumes (L.told link.old).reading.bytes
        (L.told link.new).reading.bytes (reply_frame (opcode_number opcode) 0 r)) }
    ensures answers { IfOk result (IsReplyTo (opcode_number opcode)) }
    ensures size { IfOk result
        (λ r. vec_len bytes.new ≡ length (reply_frame (opcode_number opcode) 0 r)) }
    ensures few { IfOk result (λ r. reply_length r ≤ 2097152) }
    ensures long { OnOk result (vec_len bytes.new ≤ 2097152) }
    ensures err { IfErr result (HasNone (opcode_number opcode) at (L.told link.old).reading
        (L.told link.new).reading) }
    ensures faults { OnOk result
        ((L.told link.new).reading.faults ≡ (L.told link.old).reading.faults) }
    ensures kept { (L.told link.new).writing ≡ (L.told link.old).writing }
{
    read_whole(link, bytes, at)?;
    reply_of(alloc, bytes, opcode, at)
}

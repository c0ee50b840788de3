//! Replies as lines.

ghost use Rattle.std.specs.Prelude.{◌≡◌, ◌++◌, ◌≤◌, ◌<◌, ◌^◌, List, codes, length, OnOk};
ghost use Rattle.std.specs.List.{flat_map};
ghost use Rattle.kd_wire.specs.ReplyReading.{reply_in};
ghost use Rattle.kd_lines.specs.Marks.{field};
ghost use Rattle.kd_lines.specs.Replies.{listed_text, answer_text, head_text, reply_text, reply_line};

use crate::commands::put_caller;
use crate::images::put_slice;
use crate::marks::{put_field, put_quoted, put_text};
use crate::names::{put_command_name, put_refusal};
use kd_types::ReplyError;
use kd_wire::{ListedItem, Reply, head, read_reply};
use std::alloc::{AllocError, Global};

/// A line of a listing.
fn put_listed(out: &mut Vec<u8>, line: &ListedItem) -> Result<(), AllocError>
    ensures { OnOk result (out.new.items ≡ out.old.items ++ listed_text line.now) }
{
    put_text(out, " LISTED")?;
    put_field(out, "id", line.id.0)?;
    put_field(out, "standing", line.standing)?;
    put_quoted(out, line.name.bytes())
}

/// The lines of a listing, in order.
fn put_listing(out: &mut Vec<u8>, lines: &[ListedItem]) -> Result<(), AllocError>
    ensures { OnOk result (out.new.items ≡ out.old.items ++ flat_map listed_text lines.now) }
{
    'lines: for line in lines {
        put_listed(out, line)?;
    }
    Ok(())
}

/// A word of an answer, and a field.
fn put_ok_field(out: &mut Vec<u8>, name: &str, number: u64) -> Result<(), AllocError>
    ensures { OnOk result (out.new.items ≡ out.old.items ++ codes " ok" ++ field name.now number) }
{
    put_text(out, " ok")?;
    put_field(out, name, number)
}

/// What a reply gives, or why the command was refused.
fn put_answer(out: &mut Vec<u8>, alloc: Global, reply: &Reply) -> Result<(), AllocError>
    ensures { OnOk result (out.new.items ≡ out.old.items ++ answer_text reply.now) }
{
    match reply {
        Reply::Hello { id, size, hashes } => {
            put_ok_field(out, "id", id.0)?;
            put_field(out, "size", *size)?;
            put_field(out, "hashes", *hashes)
        }
        Reply::Recv {
            number,
            offset,
            length,
            dropped,
        } => {
            put_ok_field(out, "slice", *number)?;
            put_field(out, "offset", *offset)?;
            put_field(out, "length", *length)?;
            put_field(out, "dropped", *dropped)
        }
        Reply::Read { bytes } => {
            put_text(out, " ok")?;
            put_slice(out, alloc, bytes.bytes())
        }
        Reply::NameAcquire { queued } => {
            put_text(out, if *queued { " ok queued" } else { " ok owned" })
        }
        Reply::NameList { listed } => {
            put_text(out, " ok")?;
            put_listing(out, listed.items())
        }
        Reply::Tick { moment } => put_ok_field(out, "moment", moment.0),
        Reply::Seal { number } => put_ok_field(out, "seal", *number),
        Reply::Refused(refusal) => {
            put_text(out, " refused ")?;
            put_refusal(out, refusal)
        }
        _ => put_text(out, " ok"),
    }
}

/// The caller and the command of a frame or a reply, whatever they are.
pub(crate) fn put_head(out: &mut Vec<u8>, bytes: &[u8]) -> Result<(), AllocError>
    requires { 32 ≤ length bytes.now }
    ensures { OnOk result (out.new.items ≡ out.old.items ++ head_text bytes.now) }
{
    let head = head(bytes);
    put_caller(out, head.caller)?;
    put_command_name(out, head.command)
}

/// The place that breaks a reply's format, and its bytes.
fn put_broken(out: &mut Vec<u8>, at: u64, bytes: &[u8]) -> Result<(), AllocError>
    ensures { OnOk result (out.new.items
        ≡ out.old.items ++ reply_text bytes.now (Err (ReplyError.Bad at))) }
{
    put_text(out, " broken")?;
    put_field(out, "at", at)?;
    put_text(out, " FRAME")?;
    put_quoted(out, bytes)
}

/// What stands behind the head of a reply.
fn put_reply(out: &mut Vec<u8>, alloc: Global, bytes: &[u8]) -> Result<(), AllocError>
    ensures { OnOk result (out.new.items
        ≡ out.old.items ++ reply_text bytes.now (reply_in bytes.now)) }
{
    match read_reply(alloc, bytes) {
        Ok((_, reply)) => put_answer(out, alloc, &reply),
        Err(ReplyError::Bad { at }) => put_broken(out, at, bytes),
        Err(ReplyError::OutOfMemory) => Err(AllocError),
    }
}

/// A reply as a line.
pub(crate) fn put_reply_line(
    out: &mut Vec<u8>,
    alloc: Global,
    bytes: &[u8],
) -> Result<(), AllocError>
    requires { 32 ≤ length bytes.now }
    ensures { OnOk result (out.new.items ≡ out.old.items ++ reply_line bytes.now) }
{
    put_head(out, bytes)?;
    put_reply(out, alloc, bytes)?;
    put_text(out, "\n")
}

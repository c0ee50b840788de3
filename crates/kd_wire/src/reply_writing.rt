//! Writing replies.

ghost use Rattle.std.specs.Prelude.{◌≡◌, ◌+◌, ◌*◌, ◌^◌, ◌<◌, ◌≤◌, ◌≢◌, ◌++◌, length, vec_len, vec_capacity, OnOk, OnErr};
ghost use Rattle.kd_item.specs.Spelling.{words, spelling, item_length};
ghost use Rattle.kd_wire.specs.Replies.{IsReplyTo, code_of, listed_entry, listing_bytes, reply_words, tail_of, reply_frame, reply_length};

use crate::cutting::HEAD;
use crate::reply::{ListedItem, Reply};
use crate::writing::entry_length;
use kd_item::{padding, put_bytes, put_entry, put_words, put_zeros};
use kd_types::Refusal;
use std::alloc::AllocError;

/// How many bytes the lines take as items.
fn listing_length(lines: &[ListedItem]) -> usize
    requires { length (listing_bytes lines.now) < 2 ^ 63 }
    ensures { result ≡ length (listing_bytes lines.now) }
{
    let mut total = 0;
    for line in lines {
        total += entry_length(16 + line.name.bytes().len());
    }
    total
}

/// Adds a line for which there is room.
fn put_line(out: &mut Vec<u8>, line: &ListedItem)
    requires { vec_len out.old + item_length (16 + length line.now.name) ≤ vec_capacity out.old }
    ensures items { out.new.items ≡ out.old.items ++ spelling (listed_entry line.now) }
    ensures len { vec_len out.new ≡ vec_len out.old + item_length (16 + length line.now.name) }
    ensures room { vec_capacity out.old ≤ vec_capacity out.new }
{
    put_entry(out, 24, &[line.id.0, line.standing], line.name.bytes());
}

/// Adds lines for which there is room, in order.
fn put_listing(out: &mut Vec<u8>, lines: &[ListedItem])
    requires { vec_len out.old + length (listing_bytes lines.now) ≤ vec_capacity out.old }
    ensures { out.new.items ≡ out.old.items ++ listing_bytes lines.now }
{
    for line in lines {
        put_line(out, line);
    }
}

/// How many words a reply has behind its code.
fn word_count(reply: &Reply) -> usize
    ensures { result ≡ length (reply_words reply.now) }
{
    match reply {
        Reply::Recv { .. } => 4,
        Reply::Hello { .. } => 3,
        Reply::Read { .. }
        | Reply::NameAcquire { .. }
        | Reply::NameList { .. }
        | Reply::Tick { .. }
        | Reply::Seal { .. }
        | Reply::Refused(_) => 1,
        _ => 0,
    }
}

/// How many bytes follow the words of a reply.
fn tail_length(reply: &Reply) -> usize
    requires { length (tail_of reply.now) < 2 ^ 63 }
    ensures { result ≡ length (tail_of reply.now) }
{
    match reply {
        Reply::Read { bytes } => bytes.bytes().len() + padding(bytes.bytes().len()),
        Reply::NameList { listed } => listing_length(listed.items()),
        _ => 0,
    }
}

/// The code of a reply: 0 where the command is done.
fn code(reply: &Reply) -> u64
    requires { reply.now ≢ Reply.Refused Refusal.OutOfMemory }
    ensures { result ≡ code_of reply.now }
{
    match reply {
        Reply::Refused(refusal) => refusal.number(),
        _ => 0,
    }
}

/// Adds the words behind the code, for which there is room.
fn put_own_words(out: &mut Vec<u8>, reply: &Reply)
    requires { vec_len out.old + 8 * length (reply_words reply.now) ≤ vec_capacity out.old }
    ensures items { out.new.items ≡ out.old.items ++ words (reply_words reply.now) }
    ensures len { vec_len out.new ≡ vec_len out.old + 8 * length (reply_words reply.now) }
    ensures room { vec_capacity out.old ≤ vec_capacity out.new }
{
    match reply {
        Reply::Hello { id, size, hashes } => put_words(out, &[id.0, *size, *hashes]),
        Reply::Recv {
            number,
            offset,
            length,
            dropped,
        } => put_words(out, &[*number, *offset, *length, *dropped]),
        Reply::Read { bytes } => put_words(out, &[bytes.bytes().len() as u64]),
        Reply::NameAcquire { queued } => put_words(out, &[if *queued { 2 } else { 1 }]),
        Reply::NameList { listed } => put_words(out, &[listed.items().len() as u64]),
        Reply::Tick { moment } => put_words(out, &[moment.0]),
        Reply::Seal { number } => put_words(out, &[*number]),
        Reply::Refused(refusal) => put_words(out, &[refusal.value()]),
        _ => {}
    }
}

/// Adds what follows the words, for which there is room.
fn put_tail(out: &mut Vec<u8>, reply: &Reply)
    requires { vec_len out.old + length (tail_of reply.now) ≤ vec_capacity out.old }
    ensures { out.new.items ≡ out.old.items ++ tail_of reply.now }
{
    match reply {
        Reply::Read { bytes } => {
            put_bytes(out, bytes.bytes());
            put_zeros(out, padding(bytes.bytes().len()));
        }
        Reply::NameList { listed } => put_listing(out, listed.items()),
        _ => {}
    }
}

/// Appends the reply to a command of this number from this caller.
pub fn write_reply(
    out: &mut Vec<u8>,
    caller: u64,
    command: u64,
    reply: &Reply,
) -> Result<(), AllocError>
    // It is one of the command's own, or a refusal that has a number.
    requires answers { IsReplyTo command reply.now }
    // Its size fits a word.
    requires size { reply_length reply.now < 2 ^ 63 }
    ensures ok { OnOk result (out.new.items
        ≡ out.old.items ++ reply_frame command caller reply.now) }
    ensures err { OnErr result (out.new.items ≡ out.old.items) }
{
    let size = HEAD + 8 * word_count(reply) + tail_length(reply);
    out.reserve(size)?;
    put_words(out, &[size as u64, command, caller, code(reply)]);
    put_own_words(out, reply);
    put_tail(out, reply);
    Ok(())
}

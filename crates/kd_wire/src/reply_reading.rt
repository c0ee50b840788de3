//! Reading replies.

ghost use Rattle.std.specs.Prelude.{◌≡◌, ◌+◌, ◌*◌, ◌^◌, ◌<◌, ◌≤◌, [], length, Ok, IfOk, IfErr};
ghost use Rattle.kd_item.specs.Reading.{item_entry};
ghost use Rattle.kd_wire.specs.Frames.{command_word};
ghost use Rattle.kd_wire.specs.Replies.{IsReplyTo, reply_frame, reply_length};
ghost use Rattle.kd_wire.specs.ReplyReading.{IsBreak, head_break, words_break, with_words, acquired_in, run_of, read_in, line_in, lines_in, listing_in, answer_in, bare_refusal, refusal_from, refused_in, behind_head, reply_in};

use crate::cutting::{HEAD, head};
use crate::opcode::Opcode;
use crate::reading_items::is_text;
use crate::reply::{ListedItem, ListedItems, Reply};
use kd_item::{Item, are_zeros, first_item, padding, word_at};
use kd_types::{Blob, ConnId, Moment, Refusal, ReplyError, Text};
use std::alloc::{AllocError, Global};

/// The place in the head of a reply that breaks: its size word is the length of the bytes.
fn head_break(bytes: &[u8]) -> Option<usize>
    ensures { result ≡ head_break bytes.now }
{
    if bytes.len() < 8 {
        return Some(0);
    }
    if word_at(bytes, 0) != bytes.len() as u64 {
        return Some(0);
    }
    if bytes.len() < 16 {
        return Some(8);
    }
    if bytes.len() < 24 {
        return Some(16);
    }
    if bytes.len() < HEAD {
        return Some(24);
    }
    None
}

/// Where a reply breaks that is nothing but so many words behind its head: at the first word that
/// is missing, or at what is left over.
fn words_break(count: usize, bytes: &[u8]) -> Option<u64>
    requires few { count ≤ 4 }
    requires head { 32 ≤ length bytes.now }
    ensures { result ≡ words_break count bytes.now }
{
    let end = HEAD + 8 * count;
    if bytes.len() < end {
        let whole = (bytes.len() - HEAD) / 8;
        return Some((HEAD + 8 * whole) as u64);
    }
    if end < bytes.len() {
        return Some(end as u64);
    }
    None
}

/// A reply that is its head alone.
fn read_bare(bytes: &[u8], reply: Reply) -> Result<Reply, ReplyError>
    requires { 32 ≤ length bytes.now }
    ensures { result ≡ with_words 0 bytes.now reply }
{
    match words_break(0, bytes) {
        Some(at) => Err(ReplyError::Bad { at }),
        None => Ok(reply),
    }
}

/// The answer to HELLO.
fn read_hello(bytes: &[u8]) -> Result<Reply, ReplyError>
    requires { 32 ≤ length bytes.now }
    ensures { result ≡ answer_in Opcode.Hello bytes.now }
{
    match words_break(3, bytes) {
        Some(at) => Err(ReplyError::Bad { at }),
        None => Ok(Reply::Hello {
            id: ConnId(word_at(bytes, 32)),
            size: word_at(bytes, 40),
            hashes: word_at(bytes, 48),
        }),
    }
}

/// The answer to RECV.
fn read_received(bytes: &[u8]) -> Result<Reply, ReplyError>
    requires { 32 ≤ length bytes.now }
    ensures { result ≡ answer_in Opcode.Recv bytes.now }
{
    match words_break(4, bytes) {
        Some(at) => Err(ReplyError::Bad { at }),
        None => Ok(Reply::Recv {
            number: word_at(bytes, 32),
            offset: word_at(bytes, 40),
            length: word_at(bytes, 48),
            dropped: word_at(bytes, 56),
        }),
    }
}

/// The answer to TICK.
fn read_tick(bytes: &[u8]) -> Result<Reply, ReplyError>
    requires { 32 ≤ length bytes.now }
    ensures { result ≡ answer_in Opcode.Tick bytes.now }
{
    match words_break(1, bytes) {
        Some(at) => Err(ReplyError::Bad { at }),
        None => Ok(Reply::Tick {
            moment: Moment(word_at(bytes, 32)),
        }),
    }
}

/// The answer to SEAL.
fn read_sealed(bytes: &[u8]) -> Result<Reply, ReplyError>
    requires { 32 ≤ length bytes.now }
    ensures { result ≡ answer_in Opcode.Seal bytes.now }
{
    match words_break(1, bytes) {
        Some(at) => Err(ReplyError::Bad { at }),
        None => Ok(Reply::Seal {
            number: word_at(bytes, 32),
        }),
    }
}

/// The answer to NAME_ACQUIRE: 1 for the owner of the name, 2 for one that is queued.
fn read_acquired(bytes: &[u8]) -> Result<Reply, ReplyError>
    ensures { result ≡ acquired_in bytes.now }
{
    if bytes.len() < 40 {
        return Err(ReplyError::Bad { at: 32 });
    }
    let word = word_at(bytes, 32);
    if !(1 <= word && word <= 2) {
        return Err(ReplyError::Bad { at: 32 });
    }
    if 40 < bytes.len() {
        return Err(ReplyError::Bad { at: 40 });
    }
    Ok(Reply::NameAcquire { queued: word == 2 })
}

/// So many bytes, then zeros to a multiple of 8.
fn read_run(alloc: Global, count: u64, bytes: &[u8]) -> Result<Reply, ReplyError>
    requires { length bytes.now < 2 ^ 63 }
    ensures ok { IfOk result (λ r. run_of count bytes.now ≡ Ok r) }
    ensures bad { IfErr result (λ e. IsBreak e (run_of count bytes.now)) }
{
    if (bytes.len() as u64) < count {
        return Err(ReplyError::Bad { at: 40 });
    }
    let count = count as usize;
    let zeros = padding(count);
    if bytes.len() < count + zeros {
        return Err(ReplyError::Bad { at: 40 });
    }
    let (run, behind) = bytes.split_at(count);
    if !are_zeros(behind.split_at(zeros).0) {
        return Err(ReplyError::Bad { at: 40 });
    }
    if count + zeros < bytes.len() {
        return Err(ReplyError::Bad {
            at: (40 + count + zeros) as u64,
        });
    }
    Ok(Reply::Read {
        bytes: Blob::of(Vec::from_slice(alloc, run)?),
    })
}

/// What an item says as a line of a listing.
#[tactic(auto, unfolding(crate::specs::ReplyReading::line_in))]
fn read_line(alloc: Global, item: Item<'_>) -> Result<Option<ListedItem>, AllocError>
    ensures { IfOk result (λ o. o ≡ line_in (item_entry item.entry)) }
{
    if item.kind != 24 {
        return Ok(None);
    }
    if item.body.len() < 16 {
        return Ok(None);
    }
    let (_, name) = item.body.split_at(16);
    if !is_text(name) {
        return Ok(None);
    }
    Ok(Some(ListedItem {
        id: ConnId(word_at(item.body, 0)),
        standing: word_at(item.body, 8),
        name: Text::of(alloc, name)?,
    }))
}

/// So many lines from this place to the end of the bytes.
fn read_lines(
    alloc: Global,
    count: u64,
    start: usize,
    bytes: &[u8],
) -> Result<Vec<ListedItem>, ReplyError>
    requires { start + length bytes.now < 2 ^ 63 }
    ensures ok { IfOk result (λ v. lines_in count start [] bytes.now ≡ Ok v.items) }
    ensures bad { IfErr result (λ e. IsBreak e (lines_in count start [] bytes.now)) }
{
    let mut lines = Vec::new(alloc);
    let mut rest = bytes;
    let mut at = start;
    let mut left = count;
    'lines: while 0 < left {
        let Some((found, size)) = first_item(rest, at) else {
            return Err(ReplyError::Bad { at: at as u64 });
        };
        let Some(line) = read_line(alloc, found)? else {
            return Err(ReplyError::Bad { at: at as u64 });
        };
        lines.push(line)?;
        rest = rest.split_at(size).1;
        at += size;
        left -= 1;
    }
    if !rest.is_empty() {
        return Err(ReplyError::Bad { at: at as u64 });
    }
    Ok(lines)
}

/// The answer to NAME_LIST.
fn read_listing(alloc: Global, bytes: &[u8]) -> Result<Reply, ReplyError>
    requires { length bytes.now < 2 ^ 63 }
    ensures ok { IfOk result (λ r. listing_in bytes.now ≡ Ok r) }
    ensures bad { IfErr result (λ e. IsBreak e (listing_in bytes.now)) }
{
    if bytes.len() < 40 {
        return Err(ReplyError::Bad { at: 32 });
    }
    let lines = read_lines(alloc, word_at(bytes, 32), 40, bytes.split_at(40).1)?;
    Ok(Reply::NameList {
        listed: ListedItems::of(lines),
    })
}

/// The answer to READ.
fn read_read(alloc: Global, bytes: &[u8]) -> Result<Reply, ReplyError>
    requires { length bytes.now < 2 ^ 63 }
    ensures ok { IfOk result (λ r. read_in bytes.now ≡ Ok r) }
    ensures bad { IfErr result (λ e. IsBreak e (read_in bytes.now)) }
{
    if bytes.len() < 40 {
        return Err(ReplyError::Bad { at: 32 });
    }
    read_run(alloc, word_at(bytes, 32), bytes.split_at(40).1)
}

/// The answer of a command that is done.
fn read_answer(alloc: Global, opcode: Opcode, bytes: &[u8]) -> Result<Reply, ReplyError>
    requires head { 32 ≤ length bytes.now }
    requires bound { length bytes.now < 2 ^ 63 }
    ensures ok { IfOk result (λ r. answer_in opcode bytes.now ≡ Ok r) }
    ensures bad { IfErr result (λ e. IsBreak e (answer_in opcode bytes.now)) }
{
    match opcode {
        Opcode::Hello => read_hello(bytes),
        Opcode::Send => read_bare(bytes, Reply::Send),
        Opcode::Recv => read_received(bytes),
        Opcode::Read => read_read(alloc, bytes),
        Opcode::Free => read_bare(bytes, Reply::Free),
        Opcode::Byebye => read_bare(bytes, Reply::Byebye),
        Opcode::Close => read_bare(bytes, Reply::Close),
        Opcode::NameAcquire => read_acquired(bytes),
        Opcode::NameRelease => read_bare(bytes, Reply::NameRelease),
        Opcode::NameList => read_listing(alloc, bytes),
        Opcode::MatchAdd => read_bare(bytes, Reply::MatchAdd),
        Opcode::MatchRemove => read_bare(bytes, Reply::MatchRemove),
        Opcode::PolicySet => read_bare(bytes, Reply::PolicySet),
        Opcode::EndpointMake => read_bare(bytes, Reply::EndpointMake),
        Opcode::MakeBus => read_bare(bytes, Reply::MakeBus),
        Opcode::Tick => read_tick(bytes),
        Opcode::Seal => read_sealed(bytes),
        Opcode::Unseal => read_bare(bytes, Reply::Unseal),
        Opcode::Enter => read_bare(bytes, Reply::Enter),
    }
}

/// The refusal of this number that has no field.
fn bare_refusal(code: u64) -> Option<Refusal>
    ensures { result ≡ bare_refusal code }
{
    match code {
        3 => Some(Refusal::BadFlags),
        4 => Some(Refusal::MissingItem),
        5 => Some(Refusal::DoubledItem),
        6 => Some(Refusal::BadName),
        7 => Some(Refusal::NotPermitted),
        8 => Some(Refusal::NoSuchName),
        9 => Some(Refusal::NoSuchConnection),
        11 => Some(Refusal::NameTaken),
        12 => Some(Refusal::AlreadyOwned),
        13 => Some(Refusal::NotOwner),
        15 => Some(Refusal::PoolFull),
        16 => Some(Refusal::Quota),
        17 => Some(Refusal::NotStarted),
        19 => Some(Refusal::NoSuchPriority),
        20 => Some(Refusal::NoSuchSlice),
        21 => Some(Refusal::NotReceived),
        23 => Some(Refusal::BloomSize),
        24 => Some(Refusal::TooLong),
        25 => Some(Refusal::BroadcastMisuse),
        27 => Some(Refusal::BusExists),
        28 => Some(Refusal::WrongPrefix),
        29 => Some(Refusal::NoSuchEndpoint),
        30 => Some(Refusal::EndpointExists),
        31 => Some(Refusal::WrongState),
        32 => Some(Refusal::MessagesQueued),
        33 => Some(Refusal::NoSuchMatch),
        34 => Some(Refusal::NoSuchSeal),
        35 => Some(Refusal::BadCookie),
        36 => Some(Refusal::SlicesSpent),
        37 => Some(Refusal::TurnsSpent),
        _ => None,
    }
}

/// The refusal of this number and this value; the value of one that has no field is 0.
fn refusal_from(code: u64, value: u64) -> Option<Refusal>
    ensures { result ≡ refusal_from code value }
{
    match code {
        1 => Some(Refusal::Malformed { at: value }),
        2 => Some(Refusal::Unsupported { cmd: value }),
        10 => Some(Refusal::NameMoved {
            owner: ConnId(value),
        }),
        14 => Some(Refusal::TooMany { limit: value }),
        18 => Some(Refusal::NoMessage { dropped: value }),
        22 => Some(Refusal::Busy { slice: value }),
        26 => Some(Refusal::NoSuchBus { generation: value }),
        _ => { if value == 0 { bare_refusal(code) } else { None } }
    }
}

/// The refusal of this code, from 1.
fn read_refused(code: u64, bytes: &[u8]) -> Result<Reply, ReplyError>
    ensures { result ≡ refused_in code bytes.now }
{
    if 37 < code {
        return Err(ReplyError::Bad { at: 24 });
    }
    if bytes.len() < 40 {
        return Err(ReplyError::Bad { at: 32 });
    }
    let Some(refusal) = refusal_from(code, word_at(bytes, 32)) else {
        return Err(ReplyError::Bad { at: 32 });
    };
    if 40 < bytes.len() {
        return Err(ReplyError::Bad { at: 40 });
    }
    Ok(Reply::Refused(refusal))
}

/// What stands behind the head of a reply.
fn read_behind_head(alloc: Global, bytes: &[u8]) -> Result<Reply, ReplyError>
    requires head { 32 ≤ length bytes.now }
    requires bound { length bytes.now < 2 ^ 63 }
    ensures ok { IfOk result (λ r. behind_head bytes.now ≡ Ok r) }
    ensures bad { IfErr result (λ e. IsBreak e (behind_head bytes.now)) }
{
    let code = word_at(bytes, 24);
    if code != 0 {
        return read_refused(code, bytes);
    }
    let Some(opcode) = Opcode::of(head(bytes).command) else {
        return Err(ReplyError::Bad { at: 24 });
    };
    read_answer(alloc, opcode, bytes)
}

/// The caller and the reply that the bytes spell, all of them.
#[tactic(auto, unfolding(crate::specs::ReplyReading::reply_in))]
pub fn read_reply(alloc: Global, bytes: &[u8]) -> Result<(u64, Reply), ReplyError>
    // What is read is spelled so, and is an answer to the command that it names.
    ensures spelled { IfOk result (λ r. bytes.now ≡ reply_frame (command_word bytes.now) r.0 r.1) }
    ensures answers { IfOk result (λ r. IsReplyTo (command_word bytes.now) r.1) }
    ensures size { IfOk result (λ r. reply_length r.1 ≡ length bytes.now) }
    ensures read { IfOk result (λ r. reply_in bytes.now ≡ Ok r.1) }
    // The first place that breaks the format.
    ensures bad { IfErr result (λ e. IsBreak e (reply_in bytes.now)) }
{
    if let Some(at) = head_break(bytes) {
        return Err(ReplyError::Bad { at: at as u64 });
    }
    Ok((head(bytes).caller, read_behind_head(alloc, bytes)?))
}

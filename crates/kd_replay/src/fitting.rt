//! Whether a reply may be written.

ghost use Rattle.std.specs.Prelude.{◌≤◌, ◌<◌, ◌↔◌, ◌-◌, ◌^◌, length, min, IsTrue};
ghost use Rattle.kd_wire.specs.Replies.{IsReplyTo, listing_bytes, reply_length};

use kd_types::Refusal;
use kd_wire::{ListedItem, Reply};

/// The most bytes that a reply has behind its words.
const MOST_BYTES: u64 = 1 << 62;

/// The most bytes that a line takes beside its text: a head of 32, and up to 7 zeros.
const LINE: u64 = 40;

/// At least as many bytes as the lines take, or the greatest number there is.
fn lines_length(lines: &[ListedItem]) -> u64
    ensures { min (length (listing_bytes lines.now)) (2 ^ 64 - 1) ≤ result }
{
    let mut total = 0u64;
    'lines: for line in lines {
        total = total.saturating_add(LINE + line.name.bytes().len() as u64);
    }
    total
}

/// Whether the size of a reply is far below that of memory.
pub fn is_short(reply: &Reply) -> bool
    ensures { IsTrue result → reply_length reply.now < 2 ^ 63 }
{
    match reply {
        Reply::Read { bytes } => bytes.bytes().len() as u64 <= MOST_BYTES,
        Reply::NameList { listed } => lines_length(listed.items()) <= MOST_BYTES,
        _ => true,
    }
}

/// Whether a reply is one of the command with this number.
pub fn is_answer(command: u64, reply: &Reply) -> bool
    ensures { IsTrue result ↔ IsReplyTo command reply.now }
{
    match reply {
        Reply::Hello { .. } => command == 1,
        Reply::Send => command == 2,
        Reply::Recv { .. } => command == 3,
        Reply::Read { .. } => command == 4,
        Reply::Free => command == 5,
        Reply::Byebye => command == 6,
        Reply::Close => command == 7,
        Reply::NameAcquire { .. } => command == 8,
        Reply::NameRelease => command == 9,
        Reply::NameList { .. } => command == 10,
        Reply::MatchAdd => command == 11,
        Reply::MatchRemove => command == 12,
        Reply::PolicySet => command == 13,
        Reply::EndpointMake => command == 14,
        Reply::MakeBus => command == 15,
        Reply::Tick { .. } => command == 16,
        Reply::Seal { .. } => command == 17,
        Reply::Unseal => command == 18,
        Reply::Enter => command == 19,
        Reply::Refused(refusal) => *refusal != Refusal::OutOfMemory,
    }
}

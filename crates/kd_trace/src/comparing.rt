//! Whether two replies are the same.

ghost use Rattle.std.specs.Prelude.{◌≡◌, ◌↔◌, IsTrue};
ghost use Rattle.kd_types.specs.Refusal.{refusal_number};

use kd_types::{Blob, ConnId, Refusal};
use kd_wire::{ListedItem, Reply};

/// The number of a refusal; 0 for want of memory, which has none.
pub fn code_of(why: Refusal) -> u64
    ensures { result ≡ refusal_number why }
{
    match why {
        Refusal::OutOfMemory => 0,
        why => why.number(),
    }
}

/// Whether two refusals are the same: one that has another's number and value is it.
#[tactic(auto, using(crate::proofs::Refusals::same_refusal))]
fn same_refusal(one: Refusal, other: Refusal) -> bool
    ensures { IsTrue result ↔ (one ≡ other) }
{
    code_of(one) == code_of(other) && one.value() == other.value()
}

/// Whether two lines of listings are the same.
fn same_line(one: &ListedItem, other: &ListedItem) -> bool
    ensures { IsTrue result ↔ (one.now ≡ other.now) }
{
    one.id == other.id && one.standing == other.standing && one.name.bytes() == other.name.bytes()
}

/// Whether two listings are the same.
fn same_lines(one: &[ListedItem], other: &[ListedItem]) -> bool
    ensures { IsTrue result ↔ (one.now ≡ other.now) }
{
    let mut rest = other;
    'lines: for line in one {
        let Some((first, more)) = rest.split_first() else {
            return false;
        };
        if !same_line(line, first) {
            return false;
        }
        rest = more;
    }
    rest.is_empty()
}

/// Whether a reply is one to a HELLO, of these numbers.
fn is_hello(reply: &Reply, id: ConnId, size: u64, hashes: u64) -> bool
    ensures { IsTrue result ↔ (reply.now ≡ Reply.Hello id size hashes) }
{
    match reply {
        Reply::Hello {
            id: i,
            size: s,
            hashes: h,
        } => *i == id && *s == size && *h == hashes,
        _ => false,
    }
}

/// Whether a reply is one to a RECV, of these numbers.
fn is_received(reply: &Reply, number: u64, offset: u64, length: u64, dropped: u64) -> bool
    ensures { IsTrue result ↔ (reply.now ≡ Reply.Recv number offset length dropped) }
{
    match reply {
        Reply::Recv {
            number: n,
            offset: o,
            length: l,
            dropped: d,
        } => *n == number && *o == offset && *l == length && *d == dropped,
        _ => false,
    }
}

/// Whether a reply is one to a READ, of these bytes.
fn is_read(reply: &Reply, bytes: &Blob) -> bool
    ensures { IsTrue result ↔ (reply.now ≡ Reply.Read bytes.now) }
{
    match reply {
        Reply::Read { bytes: b } => b.bytes() == bytes.bytes(),
        _ => false,
    }
}

/// Whether a reply is a listing of these lines.
fn is_listing(reply: &Reply, lines: &[ListedItem]) -> bool
    ensures { IsTrue result ↔ (reply.now ≡ Reply.NameList lines.now) }
{
    match reply {
        Reply::NameList { listed } => same_lines(listed.items(), lines),
        _ => false,
    }
}

/// Whether a reply is this refusal.
fn is_refusal(reply: &Reply, why: Refusal) -> bool
    ensures { IsTrue result ↔ (reply.now ≡ Reply.Refused why) }
{
    match reply {
        Reply::Refused(refusal) => same_refusal(*refusal, why),
        _ => false,
    }
}

/// Whether two replies are the same.
pub fn same_reply(one: &Reply, other: &Reply) -> bool
    ensures { IsTrue result ↔ (one.now ≡ other.now) }
{
    match other {
        Reply::Hello { id, size, hashes } => is_hello(one, *id, *size, *hashes),
        Reply::Send => matches!(one, Reply::Send),
        Reply::Recv {
            number,
            offset,
            length,
            dropped,
        } => is_received(one, *number, *offset, *length, *dropped),
        Reply::Read { bytes } => is_read(one, bytes),
        Reply::Free => matches!(one, Reply::Free),
        Reply::Byebye => matches!(one, Reply::Byebye),
        Reply::Close => matches!(one, Reply::Close),
        Reply::NameAcquire { queued } =>
            matches!(one, Reply::NameAcquire { queued: q } if q == queued),
        Reply::NameRelease => matches!(one, Reply::NameRelease),
        Reply::NameList { listed } => is_listing(one, listed.items()),
        Reply::MatchAdd => matches!(one, Reply::MatchAdd),
        Reply::MatchRemove => matches!(one, Reply::MatchRemove),
        Reply::PolicySet => matches!(one, Reply::PolicySet),
        Reply::EndpointMake => matches!(one, Reply::EndpointMake),
        Reply::MakeBus => matches!(one, Reply::MakeBus),
        Reply::Tick { moment } => matches!(one, Reply::Tick { moment: m } if m == moment),
        Reply::Seal { number } => matches!(one, Reply::Seal { number: n } if n == number),
        Reply::Unseal => matches!(one, Reply::Unseal),
        Reply::Enter => matches!(one, Reply::Enter),
        Reply::Refused(why) => is_refusal(one, *why),
    }
}

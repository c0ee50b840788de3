//! Reading the items of a command.

ghost use Rattle.std.specs.Prelude.{◌≡◌, ◌+◌, ◌^◌, ◌<◌, ◌≤◌, ◌⊎◌, if◌then◌else◌, length, Some, None, Ok, Err, IfOk, IfErr};
ghost use Rattle.std.specs.Str.{is_utf8};
ghost use Rattle.kd_item.specs.Reading.{item_entry};
ghost use Rattle.kd_wire.specs.Reading.{text_item, id_item, change_item, change_item_in, id_item_in, filter_item_in, sealed_item_in, access_item_in, item_in, item_may_follow, item_behind, items_in};

use crate::item::WireItem;
use crate::kinds::{ACCESS, PAYLOAD, ends_in_group, how_many, is_one_of};
use kd_item::{Item, first_item, word_at};
use kd_types::{Blob, Refusal, Text};
use std::alloc::{AllocError, Global};

/// The greatest number of PAYLOADs of a message.
const PAYLOADS: usize = 16;

/// Whether the bytes are a text: UTF-8, with no closing zero.
pub(crate) fn is_text(bytes: &[u8]) -> bool
    ensures { result ≡ is_utf8 bytes.now }
{
    match std::str::from_utf8(bytes) {
        Ok(_) => true,
        Err(_) => false,
    }
}

/// A copy of the bytes.
fn read_bytes(alloc: Global, bytes: &[u8]) -> Result<Blob, AllocError>
    ensures { IfOk result (λ b. b ≡ bytes.now) }
{
    Ok(Blob::of(Vec::from_slice(alloc, bytes)?))
}

/// An item whose body is a text. A description has at most 255 bytes, as a name has.
fn text_item(kind: u64, text: Text) -> Option<WireItem>
    ensures { result ≡ text_item kind text }
{
    match kind {
        3 => Some(WireItem::DstName(text)),
        6 => Some(WireItem::Name(text)),
        8 => Some(WireItem::Bus(text)),
        9 => Some(WireItem::Endpoint(text)),
        10 => {
            if text.bytes().len() <= 255 {
                Some(WireItem::Description(text))
            } else {
                None
            }
        }
        _ => None,
    }
}

/// An item of one word.
fn id_item(kind: u64, id: u64) -> Option<WireItem>
    ensures { result ≡ id_item kind id }
{
    match kind {
        11 => Some(WireItem::Id(id)),
        12 => Some(WireItem::IdAdd(id)),
        13 => Some(WireItem::IdRemove(id)),
        _ => None,
    }
}

/// An item of two ids and a name.
fn change_item(kind: u64, old: u64, new: u64, name: Text) -> Option<WireItem>
    ensures { result ≡ change_item kind old new name }
{
    match kind {
        14 => Some(WireItem::NameAdd { old, new, name }),
        15 => Some(WireItem::NameRemove { old, new, name }),
        16 => Some(WireItem::NameChange { old, new, name }),
        _ => None,
    }
}

/// What an item of one word says.
fn id_item_in(kind: u64, body: &[u8]) -> Option<WireItem>
    ensures { result ≡ id_item_in kind body.now }
{
    if body.len() == 8 {
        id_item(kind, word_at(body, 0))
    } else {
        None
    }
}

/// What a filter says: a generation, and bits.
fn read_filter(alloc: Global, body: &[u8]) -> Result<Option<WireItem>, AllocError>
    ensures { IfOk result (λ o. o ≡ filter_item_in body.now) }
{
    if body.len() < 8 {
        return Ok(None);
    }
    let bits = read_bytes(alloc, body.split_at(8).1)?;
    Ok(Some(WireItem::Filter {
        generation: word_at(body, 0),
        bits,
    }))
}

/// What the range of a sealed message says.
fn sealed_item_in(body: &[u8]) -> Option<WireItem>
    ensures { result ≡ sealed_item_in body.now }
{
    if body.len() != 24 {
        return None;
    }
    Some(WireItem::Sealed {
        number: word_at(body, 0),
        start: word_at(body, 8),
        length: word_at(body, 16),
    })
}

/// What an access says.
fn access_item_in(body: &[u8]) -> Option<WireItem>
    ensures { result ≡ access_item_in body.now }
{
    if body.len() != 24 {
        return None;
    }
    Some(WireItem::Access {
        subject: word_at(body, 0),
        level: word_at(body, 8),
        id: word_at(body, 16),
    })
}

/// What an item says; None where its body isn't one of its kind.
#[tactic(auto, unfolding(crate::specs::Reading::item_in))]
fn read_item(alloc: Global, kind: u64, body: &[u8]) -> Result<Option<WireItem>, AllocError>
    ensures { IfOk result (λ o. o ≡ item_in kind body.now) }
{
    if kind == 1 {
        return Ok(Some(WireItem::Payload(read_bytes(alloc, body)?)));
    }
    if kind == 5 {
        return Ok(Some(WireItem::Mask(read_bytes(alloc, body)?)));
    }
    if kind == 4 {
        return read_filter(alloc, body);
    }
    if kind == 2 {
        return Ok(sealed_item_in(body));
    }
    if kind == 7 {
        return Ok(access_item_in(body));
    }
    if kind > 13 {
        return read_change(alloc, kind, body);
    }
    if kind > 10 {
        return Ok(id_item_in(kind, body));
    }
    if !is_text(body) {
        return Ok(None);
    }
    Ok(text_item(kind, Text::of(alloc, body)?))
}

/// What an item of two ids and a name says.
fn read_change(alloc: Global, kind: u64, body: &[u8]) -> Result<Option<WireItem>, AllocError>
    ensures { IfOk result (λ o. o ≡ change_item_in kind body.now) }
{
    if body.len() < 16 {
        return Ok(None);
    }
    let (_, name) = body.split_at(16);
    if !is_text(name) {
        return Ok(None);
    }
    Ok(change_item(
        kind,
        word_at(body, 0),
        word_at(body, 8),
        Text::of(alloc, name)?,
    ))
}

/// Whether an item of this kind may stand behind those before it: the command takes the kind, an
/// ACCESS belongs to a group, and there are no more than sixteen PAYLOADs.
pub(crate) fn may_follow(kinds: &[u64], before: &[WireItem], kind: u64) -> bool
    ensures { result ≡ item_may_follow kinds.now before.now kind }
{
    if !is_one_of(kinds, kind) {
        return false;
    }
    if kind == ACCESS {
        return ends_in_group(before);
    }
    if kind == PAYLOAD {
        return how_many(PAYLOAD, before) < PAYLOADS;
    }
    true
}

/// What an item says behind those before it; None where it may not stand there or its body isn't
/// one of its kind.
fn read_behind(
    alloc: Global,
    kinds: &[u64],
    before: &[WireItem],
    item: Item<'_>,
) -> Result<Option<WireItem>, AllocError>
    ensures { IfOk result (λ o. o ≡ item_behind kinds.now before.now (item_entry item.entry)) }
{
    if !may_follow(kinds, before, item.kind) {
        return Ok(None);
    }
    read_item(alloc, item.kind, item.body)
}

/// The items that the bytes from this place to the end of a frame spell, or the place of the first
/// that breaks the format.
pub(crate) fn read_items(
    alloc: Global,
    kinds: &[u64],
    start: usize,
    bytes: &[u8],
) -> Result<Vec<WireItem>, Refusal>
    requires { start + length bytes.now < 2 ^ 63 }
    ensures ok { IfOk result (λ v. items_in kinds.now start bytes.now ≡ Ok v.items) }
    ensures refused { IfErr result
        (λ r. (r ≡ Refusal.OutOfMemory) ⊎ (items_in kinds.now start bytes.now ≡ Err r)) }
{
    let mut items = Vec::new(alloc);
    let mut rest = bytes;
    let mut at = start;
    'items: while !rest.is_empty() {
        let Some((found, size)) = first_item(rest, at) else {
            return Err(Refusal::Malformed { at: at as u64 });
        };
        let Some(item) = read_behind(alloc, kinds, &items, found)? else {
            return Err(Refusal::Malformed { at: at as u64 });
        };
        items.push(item)?;
        rest = rest.split_at(size).1;
        at += size;
    }
    Ok(items)
}

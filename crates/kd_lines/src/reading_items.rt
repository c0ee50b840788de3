//! Items of lines.

use crate::parts::{Part, is};
use crate::tokens::LineError;
use kd_wire::WireItem;
use std::alloc::Global;

/// The names of items, and the numbers that each has.
const ITEMS: [(&str, &[&str]); 16] = [
    ("PAYLOAD", &[]),
    ("SEALED", &["seal", "start", "length"]),
    ("DST_NAME", &[]),
    ("FILTER", &["generation"]),
    ("MASK", &[]),
    ("NAME", &[]),
    ("ACCESS", &["user", "group", "world"]),
    ("BUS", &[]),
    ("ENDPOINT", &[]),
    ("DESCRIPTION", &[]),
    ("ID", &["id"]),
    ("ID_ADD", &["id"]),
    ("ID_REMOVE", &["id"]),
    ("NAME_ADD", &["old", "new"]),
    ("NAME_REMOVE", &["old", "new"]),
    ("NAME_CHANGE", &["old", "new"]),
];

/// The kind of an item of this name, from 1, where it has no other numbers than those of its kind.
fn kind_of(part: &Part<'_>) -> Option<u64> {
    let mut kind: u64 = 0;
    for (name, numbers) in ITEMS {
        kind = kind.saturating_add(1);
        if is(part.name(), name) {
            return if part.has_only(numbers) {
                Some(kind)
            } else {
                None
            };
        }
    }
    None
}

/// What an access allows: to see, to talk to, or to own.
fn level_of(part: &Part<'_>) -> Option<u64> {
    match part.marks() {
        [mark] if is(mark, "see") => Some(1),
        [mark] if is(mark, "talk") => Some(2),
        [mark] if is(mark, "own") => Some(3),
        _ => None,
    }
}

/// Who may do so: a user, a group, or the world.
fn subject_of(part: &Part<'_>) -> Option<(u64, u64)> {
    if part.has_number("user") {
        return Some((1, part.number("user")));
    }
    if part.has_number("group") {
        return Some((2, part.number("group")));
    }
    if part.has_number("world") {
        return Some((3, part.number("world")));
    }
    None
}

/// An access.
fn access_of(part: &Part<'_>) -> Result<WireItem, LineError> {
    let (Some((subject, id)), Some(level)) = (subject_of(part), level_of(part)) else {
        return Err(LineError::Bad);
    };
    Ok(WireItem::Access { subject, level, id })
}

/// An item without bytes.
fn bare_item(part: &Part<'_>, kind: u64) -> Result<WireItem, LineError> {
    if kind == 7 {
        return access_of(part);
    }
    if !part.marks().is_empty() {
        return Err(LineError::Bad);
    }
    let id = part.number("id");
    match kind {
        2 => Ok(WireItem::Sealed {
            number: part.number("seal"),
            start: part.number("start"),
            length: part.number("length"),
        }),
        11 => Ok(WireItem::Id(id)),
        12 => Ok(WireItem::IdAdd(id)),
        13 => Ok(WireItem::IdRemove(id)),
        _ => Err(LineError::Bad),
    }
}

/// An item that is a text, maybe with two ids.
fn text_item(alloc: Global, part: &Part<'_>, kind: u64) -> Result<WireItem, LineError> {
    let name = part.copy_text(alloc)?;
    let (old, new) = (part.number("old"), part.number("new"));
    match kind {
        3 => Ok(WireItem::DstName(name)),
        6 => Ok(WireItem::Name(name)),
        8 => Ok(WireItem::Bus(name)),
        9 => Ok(WireItem::Endpoint(name)),
        10 => Ok(WireItem::Description(name)),
        14 => Ok(WireItem::NameAdd { old, new, name }),
        15 => Ok(WireItem::NameRemove { old, new, name }),
        16 => Ok(WireItem::NameChange { old, new, name }),
        _ => Err(LineError::Bad),
    }
}

/// The item that a part says.
pub(crate) fn item_of(alloc: Global, part: Part<'_>) -> Result<WireItem, LineError> {
    let Some(kind) = kind_of(&part) else {
        return Err(LineError::Bad);
    };
    if !part.has_bytes() {
        return bare_item(&part, kind);
    }
    if !part.marks().is_empty() {
        return Err(LineError::Bad);
    }
    match kind {
        1 => Ok(WireItem::Payload(part.into_blob()?)),
        4 => Ok(WireItem::Filter {
            generation: part.number("generation"),
            bits: part.into_blob()?,
        }),
        5 => Ok(WireItem::Mask(part.into_blob()?)),
        _ => text_item(alloc, &part, kind),
    }
}

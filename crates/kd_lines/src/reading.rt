//! Commands of lines.

use crate::names::command_name;
use crate::parts::{Part, is, parts_of};
use crate::reading_items::item_of;
use crate::tokens::{LineError, Token, number_of, tokens_of, unquoted};
use kd_types::{
    Blob, Cookie, Creds, HelloFlags, ListFlags, Moment, NameFlags, RecvFlags, SendFlags, Text,
};
use kd_wire::{Command, Opcode, WireItem, WireItems, write_command};
use std::alloc::Global;

/// The command of this name.
fn opcode_of(name: &[u8]) -> Option<Opcode> {
    for number in 1..=19 {
        if let Some(opcode) = Opcode::of(number) {
            if is(name, command_name(opcode)) {
                return Some(opcode);
            }
        }
    }
    None
}

/// The numbers of a command.
fn numbers_of(opcode: Opcode) -> &'static [&'static str] {
    match opcode {
        Opcode::Hello => &["size", "send", "receive"],
        Opcode::Send => &["to", "from", "priority", "type", "cookie", "last"],
        Opcode::Recv => &["limit"],
        Opcode::Read | Opcode::Free => &["slice"],
        Opcode::MatchAdd | Opcode::MatchRemove => &["cookie"],
        Opcode::MakeBus => &["size", "hashes"],
        Opcode::Tick => &["moment"],
        Opcode::Unseal => &["seal"],
        Opcode::Enter => &["uid", "gid"],
        _ => &[],
    }
}

/// The flags of a command, and the bit of each.
fn flags_of(opcode: Opcode) -> &'static [(&'static str, u64)] {
    match opcode {
        Opcode::Hello => &[("+ACTIVATOR", 2), ("+HOLDER", 4), ("+MONITOR", 8)],
        Opcode::Send => &[("+EXPECT_REPLY", 1), ("+NO_AUTO_START", 2), ("+SIGNAL", 4)],
        Opcode::Recv => &[("+PEEK", 1), ("+DROP", 2), ("+PRIORITY", 4)],
        Opcode::Read => &[("+SHARED", 1)],
        Opcode::NameAcquire => &[("+REPLACE", 1), ("+ALLOW", 2), ("+QUEUE", 4)],
        Opcode::NameList => &[
            ("+UNIQUE", 1),
            ("+NAMES", 2),
            ("+ACTIVATORS", 4),
            ("+QUEUED", 8),
        ],
        Opcode::MatchAdd => &[("+REPLACE", 1)],
        Opcode::Enter => &[("+PRIVILEGED", 1)],
        _ => &[],
    }
}

/// The bit of a flag.
fn bit_of(opcode: Opcode, mark: &[u8]) -> Option<u64> {
    for (name, bit) in flags_of(opcode) {
        if is(mark, name) {
            return Some(*bit);
        }
    }
    None
}

/// The word of a command's flags.
fn flag_word(opcode: Opcode, marks: &[&[u8]]) -> Option<u64> {
    let mut word = 0;
    for mark in marks {
        word |= bit_of(opcode, mark)?;
    }
    Some(word)
}

/// The one item, a name.
fn the_name(items: Vec<WireItem>) -> Option<Text> {
    let mut items = items;
    match (items.pop(), items.is_empty()) {
        (Some(WireItem::Name(name)), true) => Some(name),
        _ => None,
    }
}

/// The one item, a bus.
fn the_bus(items: Vec<WireItem>) -> Option<Text> {
    let mut items = items;
    match (items.pop(), items.is_empty()) {
        (Some(WireItem::Bus(bus)), true) => Some(bus),
        _ => None,
    }
}

/// The one item, a payload.
fn the_payload(items: Vec<WireItem>) -> Option<Blob> {
    let mut items = items;
    match (items.pop(), items.is_empty()) {
        (Some(WireItem::Payload(payload)), true) => Some(payload),
        _ => None,
    }
}

/// A command without items.
fn bare_command(opcode: Opcode, flags: u64, head: &Part<'_>) -> Option<Command> {
    let number = head.number("slice");
    match opcode {
        Opcode::Recv => Some(Command::Recv {
            flags: RecvFlags(flags),
            limit: head.number("limit").cast_signed(),
        }),
        Opcode::Read => Some(Command::Read {
            sealed: flags == 1,
            number,
        }),
        Opcode::Free => Some(Command::Free { number }),
        Opcode::Byebye => Some(Command::Byebye),
        Opcode::Close => Some(Command::Close),
        Opcode::NameList => Some(Command::NameList {
            flags: ListFlags(flags),
        }),
        Opcode::MatchRemove => Some(Command::MatchRemove {
            cookie: Cookie(head.number("cookie")),
        }),
        Opcode::Tick => Some(Command::Tick {
            moment: Moment(head.number("moment")),
        }),
        Opcode::Unseal => Some(Command::Unseal {
            number: head.number("seal"),
        }),
        Opcode::Enter => Some(Command::Enter {
            creds: Creds {
                uid: u32::try_from(head.number("uid")).ok()?,
                gid: u32::try_from(head.number("gid")).ok()?,
                privileged: flags == 1,
            },
        }),
        _ => None,
    }
}

/// A command that has items.
fn command_with(
    opcode: Opcode,
    flags: u64,
    head: &Part<'_>,
    items: Vec<WireItem>,
) -> Option<Command> {
    match opcode {
        Opcode::Hello => Some(Command::Hello {
            flags: HelloFlags(flags),
            pool: u32::try_from(head.number("size")).ok()?,
            send_mask: head.number("send"),
            receive_mask: head.number("receive"),
            items: WireItems::of(items),
        }),
        Opcode::Send => Some(Command::Send {
            flags: SendFlags(flags),
            priority: head.number("priority").cast_signed(),
            dst: head.number("to"),
            source: head.number("from"),
            payload_type: head.number("type"),
            cookie: head.number("cookie"),
            last: head.number("last"),
            items: WireItems::of(items),
        }),
        Opcode::MatchAdd => Some(Command::MatchAdd {
            replace: flags == 1,
            cookie: Cookie(head.number("cookie")),
            items: WireItems::of(items),
        }),
        Opcode::PolicySet => Some(Command::PolicySet {
            items: WireItems::of(items),
        }),
        Opcode::EndpointMake => Some(Command::EndpointMake {
            items: WireItems::of(items),
        }),
        _ => named_command(opcode, flags, head, items),
    }
}

/// A command that has one item and no more.
fn named_command(
    opcode: Opcode,
    flags: u64,
    head: &Part<'_>,
    items: Vec<WireItem>,
) -> Option<Command> {
    match opcode {
        Opcode::NameAcquire => Some(Command::NameAcquire {
            flags: NameFlags(flags),
            name: the_name(items)?,
        }),
        Opcode::NameRelease => Some(Command::NameRelease {
            name: the_name(items)?,
        }),
        Opcode::MakeBus => Some(Command::MakeBus {
            size: u32::try_from(head.number("size")).ok()?,
            hashes: u32::try_from(head.number("hashes")).ok()?,
            bus: the_bus(items)?,
        }),
        Opcode::Seal => Some(Command::Seal {
            payload: the_payload(items)?,
        }),
        _ => None,
    }
}

/// The command of a line's parts.
fn command_of(alloc: Global, parts: Vec<Part<'_>>) -> Result<Command, LineError> {
    let mut parts = parts.into_iter();
    let Some(head) = parts.next() else {
        return Err(LineError::Bad);
    };
    let Some(opcode) = opcode_of(head.name()) else {
        return Err(LineError::Bad);
    };
    if head.has_bytes() || !head.has_only(numbers_of(opcode)) {
        return Err(LineError::Bad);
    }
    let Some(flags) = flag_word(opcode, head.marks()) else {
        return Err(LineError::Bad);
    };
    let mut items = Vec::new(alloc);
    for part in parts {
        items.push(item_of(alloc, part)?)?;
    }
    let command = if items.is_empty() {
        bare_command(opcode, flags, &head)
    } else {
        None
    };
    match command {
        Some(command) => Ok(command),
        None => command_with(opcode, flags, &head, items).ok_or(LineError::Bad),
    }
}

/// The caller of a line.
fn caller_of(word: &[u8]) -> Option<u64> {
    match word {
        [b'c', digits @ ..] => number_of(digits),
        _ => None,
    }
}

/// The bytes of a frame that was shown as refused: what stands in quotes at the line's end.
fn put_refused(out: &mut Vec<u8>, alloc: Global, tokens: &[Token<'_>]) -> Result<(), LineError> {
    match tokens.last() {
        Some(Token::Quoted(text)) => {
            out.extend_from_slice(&unquoted(alloc, text)?)?;
            Ok(())
        }
        _ => Err(LineError::Bad),
    }
}

/// Appends the frame of a line.
pub(crate) fn put_frame(out: &mut Vec<u8>, alloc: Global, line: &[u8]) -> Result<(), LineError> {
    let tokens = tokens_of(alloc, line)?;
    let [Token::Word(caller), rest @ ..] = tokens.as_slice() else {
        return Err(LineError::Bad);
    };
    if let [_, Token::Word(word), ..] = rest {
        if is(word, "refused") {
            return put_refused(out, alloc, rest);
        }
    }
    let Some(caller) = caller_of(caller) else {
        return Err(LineError::Bad);
    };
    let command = command_of(alloc, parts_of(alloc, rest)?)?;
    if !command.is_well_formed() {
        return Err(LineError::Bad);
    }
    write_command(out, caller, &command)?;
    Ok(())
}

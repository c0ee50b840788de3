//! Writing commands.

ghost use Rattle.std.specs.Prelude.{◌≡◌, ◌+◌, ◌*◌, ◌^◌, ◌<◌, ◌≤◌, ◌++◌, length, vec_len, vec_capacity, OnOk, OnErr};
ghost use Rattle.kd_item.specs.Spelling.{words, spelling, item_length};
ghost use Rattle.kd_wire.specs.Items.{wire_entry, spelled, wire_length};
ghost use Rattle.kd_wire.specs.Commands.{items_of, command_words};
ghost use Rattle.kd_wire.specs.Frames.{frame_of};
ghost use Rattle.kd_wire.specs.Refusals.{IsWellFormed};

use crate::command::Command;
use crate::cutting::HEAD;
use crate::item::WireItem;
use crate::opcode::MOST_WORDS;
use kd_item::{padding, put_entry, put_words};
use std::alloc::AllocError;

/// How many bytes an item with a body of so many bytes takes, its padding with it.
pub(crate) fn entry_length(body: usize) -> usize
    requires { body < 2 ^ 63 + 64 }
    ensures { result ≡ item_length body }
{
    16 + body + padding(16 + body)
}

/// How many bytes the items take.
fn items_length(items: &[WireItem]) -> usize
    requires { length (spelled items.now) < 2 ^ 63 }
    ensures { result ≡ length (spelled items.now) }
{
    let mut total = 0;
    for item in items {
        total += item.length();
    }
    total
}

/// Adds an item for which there is room.
fn put_item(out: &mut Vec<u8>, item: &WireItem)
    requires { vec_len out.old + wire_length item.now ≤ vec_capacity out.old }
    ensures items { out.new.items ≡ out.old.items ++ spelling (wire_entry item.now) }
    ensures len { vec_len out.new ≡ vec_len out.old + wire_length item.now }
    ensures room { vec_capacity out.old ≤ vec_capacity out.new }
{
    let kind = item.kind();
    let bytes = item.bytes();
    match item {
        WireItem::Sealed {
            number,
            start,
            length,
        } => put_entry(out, kind, &[*number, *start, *length], bytes),
        WireItem::Filter { generation, .. } => put_entry(out, kind, &[*generation], bytes),
        WireItem::Access { subject, level, id } => put_entry(
            out,
            kind,
            &[*subject, *level, *id],
            bytes,
        ),
        WireItem::Id(id) | WireItem::IdAdd(id) | WireItem::IdRemove(id) => put_entry(
            out,
            kind,
            &[*id],
            bytes,
        ),
        WireItem::NameAdd { old, new, .. }
        | WireItem::NameRemove { old, new, .. }
        | WireItem::NameChange { old, new, .. } => put_entry(out, kind, &[*old, *new], bytes),
        _ => put_entry(out, kind, &[], bytes),
    }
}

/// Adds items for which there is room, in order.
fn put_items(out: &mut Vec<u8>, items: &[WireItem])
    requires { vec_len out.old + length (spelled items.now) ≤ vec_capacity out.old }
    ensures { out.new.items ≡ out.old.items ++ spelled items.now }
{
    for item in items {
        put_item(out, item);
    }
}

/// How many bytes the items of a command take.
fn items_length_of(command: &Command) -> usize
    requires { length (spelled (items_of command.now)) < 2 ^ 63 }
    ensures { result ≡ length (spelled (items_of command.now)) }
{
    match command {
        Command::Hello { items, .. }
        | Command::Send { items, .. }
        | Command::MatchAdd { items, .. }
        | Command::PolicySet { items }
        | Command::EndpointMake { items } => items_length(items.items()),
        Command::NameAcquire { name, .. } => entry_length(name.bytes().len()),
        Command::NameRelease { name } => entry_length(name.bytes().len()),
        Command::MakeBus { bus, .. } => entry_length(bus.bytes().len()),
        Command::Seal { payload } => entry_length(payload.bytes().len()),
        _ => 0,
    }
}

/// Adds the items of a command, for which there is room.
fn put_items_of(out: &mut Vec<u8>, command: &Command)
    requires { vec_len out.old + length (spelled (items_of command.now)) ≤ vec_capacity out.old }
    ensures { out.new.items ≡ out.old.items ++ spelled (items_of command.now) }
{
    match command {
        Command::Hello { items, .. }
        | Command::Send { items, .. }
        | Command::MatchAdd { items, .. }
        | Command::PolicySet { items }
        | Command::EndpointMake { items } => put_items(out, items.items()),
        Command::NameAcquire { name, .. } => put_entry(out, 6, &[], name.bytes()),
        Command::NameRelease { name } => put_entry(out, 6, &[], name.bytes()),
        Command::MakeBus { bus, .. } => put_entry(out, 8, &[], bus.bytes()),
        Command::Seal { payload } => put_entry(out, 1, &[], payload.bytes()),
        _ => {}
    }
}

/// Adds the command's own words, for which there is room.
fn put_own_words(out: &mut Vec<u8>, command: &Command, items_length: usize)
    requires items { items_length ≡ length (spelled (items_of command.now)) }
    requires bound { items_length < 2 ^ 63 }
    requires room { vec_len out.old + 8 * length (command_words command.now)
        ≤ vec_capacity out.old }
    ensures items { out.new.items ≡ out.old.items ++ words (command_words command.now) }
    ensures len { vec_len out.new ≡ vec_len out.old + 8 * length (command_words command.now) }
    ensures room { vec_capacity out.old ≤ vec_capacity out.new }
{
    let mut room = [0; MOST_WORDS];
    let (own, _) = room.split_at_mut(command.opcode().words());
    command.put_own(own, items_length);
    put_words(out, own);
}

/// Appends the frame of a command from this caller.
pub fn write_command(out: &mut Vec<u8>, caller: u64, command: &Command) -> Result<(), AllocError>
    requires { IsWellFormed command.now }
    ensures ok { OnOk result (out.new.items ≡ out.old.items ++ frame_of caller command.now) }
    ensures err { OnErr result (out.new.items ≡ out.old.items) }
{
    let items_length = items_length_of(command);
    let opcode = command.opcode();
    let size = HEAD + 8 * opcode.words() + items_length;
    out.reserve(size)?;
    put_words(
        out,
        &[size as u64, opcode.number(), caller, command.flags()],
    );
    put_own_words(out, command, items_length);
    put_items_of(out, command);
    Ok(())
}

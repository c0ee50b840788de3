//! Commands as lines.

ghost use Rattle.std.specs.Prelude.{◌≡◌, ◌++◌, List, take, codes, decimal, OnOk};
ghost use Rattle.std.specs.List.{flat_map};
ghost use Rattle.kd_wire.specs.Commands.{items_of};
ghost use Rattle.kd_lines.specs.Marks.{named};
ghost use Rattle.kd_lines.specs.Commands.{reply_flag, start_flag, signal_flag, way_text, sense_text, flags_text, flag_word, subject_name, level_name, item_text, fields_text, start_text, body_text, command_line};

use crate::marks::{
    put_change, put_field, put_flag, put_flag_of, put_number, put_quoted, put_signed_field,
    put_some_field, put_some_id_field, put_text, put_word_id, put_word_text,
};
use crate::names::command_name;
use kd_wire::{Command, Opcode, WireItem};
use std::alloc::AllocError;

/// Whether a message's sender waits for a reply.
#[tactic(auto, unfolding(crate::specs::Commands::reply_flag))]
fn put_reply_flag(out: &mut Vec<u8>, word: u64) -> Result<(), AllocError>
    ensures { OnOk result (out.new.items ≡ out.old.items ++ reply_flag word) }
{
    put_flag_of(out, word, "EXPECT_REPLY", 1)
}

/// Whether an activator is not to be started by a message.
#[tactic(auto, unfolding(crate::specs::Commands::start_flag))]
fn put_start_flag(out: &mut Vec<u8>, word: u64) -> Result<(), AllocError>
    ensures { OnOk result (out.new.items ≡ out.old.items ++ start_flag word) }
{
    put_flag_of(out, word, "NO_AUTO_START", 2)
}

/// Whether a message is a signal.
#[tactic(auto, unfolding(crate::specs::Commands::signal_flag))]
fn put_signal_flag(out: &mut Vec<u8>, word: u64) -> Result<(), AllocError>
    ensures { OnOk result (out.new.items ≡ out.old.items ++ signal_flag word) }
{
    put_flag_of(out, word, "SIGNAL", 4)
}

/// The flags of a command that are set in a word.
pub(crate) fn put_flags(out: &mut Vec<u8>, opcode: Opcode, word: u64) -> Result<(), AllocError>
    ensures { OnOk result (out.new.items ≡ out.old.items ++ flags_text opcode word) }
{
    match opcode {
        Opcode::Hello => {
            put_flag_of(out, word, "ACTIVATOR", 2)?;
            put_flag_of(out, word, "HOLDER", 4)?;
            put_flag_of(out, word, "MONITOR", 8)
        }
        Opcode::Send => {
            put_reply_flag(out, word)?;
            put_start_flag(out, word)?;
            put_signal_flag(out, word)
        }
        Opcode::Recv => {
            put_flag_of(out, word, "PEEK", 1)?;
            put_flag_of(out, word, "DROP", 2)?;
            put_flag_of(out, word, "PRIORITY", 4)
        }
        Opcode::Read => put_flag_of(out, word, "SHARED", 1),
        Opcode::NameAcquire => {
            put_flag_of(out, word, "REPLACE", 1)?;
            put_flag_of(out, word, "ALLOW", 2)?;
            put_flag_of(out, word, "QUEUE", 4)
        }
        Opcode::NameList => {
            put_flag_of(out, word, "UNIQUE", 1)?;
            put_flag_of(out, word, "NAMES", 2)?;
            put_flag_of(out, word, "ACTIVATORS", 4)?;
            put_flag_of(out, word, "QUEUED", 8)
        }
        Opcode::MatchAdd => put_flag_of(out, word, "REPLACE", 1),
        _ => Ok(()),
    }
}

/// The word in which a command's flags stand.
fn flag_word(command: &Command) -> u64
    ensures { result ≡ flag_word command.now }
{
    match command {
        Command::Send { flags, .. } => flags.word(),
        _ => command.flags(),
    }
}

/// Who may do something with a name.
fn put_subject(out: &mut Vec<u8>, subject: u64) -> Result<(), AllocError>
    ensures { OnOk result (out.new.items ≡ out.old.items ++ subject_name subject) }
{
    match subject {
        1 => put_text(out, "user"),
        2 => put_text(out, "group"),
        3 => put_text(out, "world"),
        _ => put_number(out, subject),
    }
}

/// What may be done with it.
fn put_level(out: &mut Vec<u8>, level: u64) -> Result<(), AllocError>
    ensures { OnOk result (out.new.items ≡ out.old.items ++ level_name level) }
{
    match level {
        1 => put_text(out, "see"),
        2 => put_text(out, "talk"),
        3 => put_text(out, "own"),
        _ => put_number(out, level),
    }
}

/// The numbers of an access.
fn put_access(out: &mut Vec<u8>, subject: u64, level: u64, id: u64) -> Result<(), AllocError>
    ensures { OnOk result (out.new.items
        ≡ out.old.items ++ named (subject_name subject) (decimal id) ++ codes " "
        ++ level_name level) }
{
    put_text(out, " ")?;
    put_subject(out, subject)?;
    put_text(out, "=")?;
    put_number(out, id)?;
    put_text(out, " ")?;
    put_level(out, level)
}

/// An item: its kind, its numbers, its bytes.
pub(crate) fn put_item(out: &mut Vec<u8>, item: &WireItem) -> Result<(), AllocError>
    ensures { OnOk result (out.new.items ≡ out.old.items ++ item_text item.now) }
{
    match item {
        WireItem::Payload(bytes) => put_word_text(out, " PAYLOAD", bytes.bytes()),
        WireItem::Sealed {
            number,
            start,
            length,
        } => {
            put_text(out, " SEALED")?;
            put_field(out, "seal", *number)?;
            put_field(out, "start", *start)?;
            put_field(out, "length", *length)
        }
        WireItem::DstName(name) => put_word_text(out, " DST_NAME", name.bytes()),
        WireItem::Filter { generation, bits } => {
            put_text(out, " FILTER")?;
            put_field(out, "generation", *generation)?;
            put_quoted(out, bits.bytes())
        }
        WireItem::Mask(bits) => put_word_text(out, " MASK", bits.bytes()),
        WireItem::Name(name) => put_word_text(out, " NAME", name.bytes()),
        WireItem::Access { subject, level, id } => {
            put_text(out, " ACCESS")?;
            put_access(out, *subject, *level, *id)
        }
        WireItem::Bus(name) => put_word_text(out, " BUS", name.bytes()),
        WireItem::Endpoint(label) => put_word_text(out, " ENDPOINT", label.bytes()),
        WireItem::Description(words) => put_word_text(out, " DESCRIPTION", words.bytes()),
        WireItem::Id(id) => put_word_id(out, " ID", *id),
        WireItem::IdAdd(id) => put_word_id(out, " ID_ADD", *id),
        WireItem::IdRemove(id) => put_word_id(out, " ID_REMOVE", *id),
        WireItem::NameAdd { old, new, name } => put_change(
            out,
            " NAME_ADD",
            *old,
            *new,
            name.bytes(),
        ),
        WireItem::NameRemove { old, new, name } => put_change(
            out,
            " NAME_REMOVE",
            *old,
            *new,
            name.bytes(),
        ),
        WireItem::NameChange { old, new, name } => put_change(
            out,
            " NAME_CHANGE",
            *old,
            *new,
            name.bytes(),
        ),
    }
}

/// Items in order.
fn put_list(out: &mut Vec<u8>, items: &[WireItem]) -> Result<(), AllocError>
    ensures { OnOk result (out.new.items ≡ out.old.items ++ flat_map item_text items.now) }
{
    'items: for item in items {
        put_item(out, item)?;
    }
    Ok(())
}

/// The items of a command.
fn put_items(out: &mut Vec<u8>, command: &Command) -> Result<(), AllocError>
    ensures { OnOk result (out.new.items
        ≡ out.old.items ++ flat_map item_text (items_of command.now)) }
{
    match command {
        Command::Hello { items, .. }
        | Command::Send { items, .. }
        | Command::MatchAdd { items, .. }
        | Command::PolicySet { items }
        | Command::EndpointMake { items } => put_list(out, items.items()),
        Command::NameAcquire { name, .. } | Command::NameRelease { name } => put_word_text(
            out,
            " NAME",
            name.bytes(),
        ),
        Command::MakeBus { bus, .. } => put_word_text(out, " BUS", bus.bytes()),
        Command::Seal { payload } => put_word_text(out, " PAYLOAD", payload.bytes()),
        _ => Ok(()),
    }
}

/// Whom a message is for, and whom it is from.
#[tactic(auto, unfolding(crate::specs::Commands::way_text))]
pub(crate) fn put_way(
    out: &mut Vec<u8>,
    dst: u64,
    source: u64,
    priority: i64,
) -> Result<(), AllocError>
    ensures { OnOk result (out.new.items ≡ out.old.items ++ way_text dst source priority) }
{
    put_some_id_field(out, "to", dst)?;
    put_some_field(out, "from", source)?;
    put_signed_field(out, "priority", priority)
}

/// What it means to its two ends.
#[tactic(auto, unfolding(crate::specs::Commands::sense_text))]
pub(crate) fn put_sense(
    out: &mut Vec<u8>,
    payload_type: u64,
    cookie: u64,
    last: u64,
) -> Result<(), AllocError>
    ensures { OnOk result (out.new.items ≡ out.old.items ++ sense_text payload_type cookie last) }
{
    put_some_field(out, "type", payload_type)?;
    put_some_field(out, "cookie", cookie)?;
    put_some_field(out, "last", last)
}

/// The command's own numbers.
fn put_fields(out: &mut Vec<u8>, command: &Command) -> Result<(), AllocError>
    ensures { OnOk result (out.new.items ≡ out.old.items ++ fields_text command.now) }
{
    match command {
        Command::Hello {
            pool,
            send_mask,
            receive_mask,
            ..
        } => {
            put_field(out, "size", u64::from(*pool))?;
            put_some_field(out, "send", *send_mask)?;
            put_some_field(out, "receive", *receive_mask)
        }
        Command::Send {
            priority,
            dst,
            source,
            payload_type,
            cookie,
            last,
            ..
        } => {
            put_way(out, *dst, *source, *priority)?;
            put_sense(out, *payload_type, *cookie, *last)
        }
        Command::Recv { limit, .. } => put_signed_field(out, "limit", *limit),
        Command::Read { number, .. } | Command::Free { number } => put_field(out, "slice", *number),
        Command::MatchAdd { cookie, .. } | Command::MatchRemove { cookie } => put_field(
            out, "cookie", cookie.0,
        ),
        Command::MakeBus { size, hashes, .. } => {
            put_field(out, "size", u64::from(*size))?;
            put_field(out, "hashes", u64::from(*hashes))
        }
        Command::Tick { moment } => put_field(out, "moment", moment.0),
        Command::Unseal { number } => put_field(out, "seal", *number),
        Command::Enter { creds } => {
            put_flag(out, "PRIVILEGED", creds.privileged)?;
            put_field(out, "uid", u64::from(creds.uid))?;
            put_field(out, "gid", u64::from(creds.gid))
        }
        _ => Ok(()),
    }
}

/// The caller of a line.
pub(crate) fn put_caller(out: &mut Vec<u8>, caller: u64) -> Result<(), AllocError>
    ensures { OnOk result (out.new.items
        ≡ out.old.items ++ codes "c" ++ decimal caller ++ codes " ") }
{
    put_text(out, "c")?;
    put_number(out, caller)?;
    put_text(out, " ")
}

/// The flags of a command, its numbers, its items.
#[tactic(auto, unfolding(crate::specs::Commands::body_text))]
fn put_body(out: &mut Vec<u8>, command: &Command) -> Result<(), AllocError>
    ensures { OnOk result (out.new.items ≡ out.old.items ++ body_text command.now) }
{
    put_flags(out, command.opcode(), flag_word(command))?;
    put_fields(out, command)?;
    put_items(out, command)
}

/// A command from this caller.
pub(crate) fn put_command(
    out: &mut Vec<u8>,
    caller: u64,
    command: &Command,
) -> Result<(), AllocError>
    ensures { OnOk result (out.new.items ≡ out.old.items ++ command_line caller command.now) }
{
    put_caller(out, caller)?;
    put_text(out, command_name(command.opcode()))?;
    put_body(out, command)?;
    put_text(out, "\n")
}

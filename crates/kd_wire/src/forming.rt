//! Whether a command has a frame.

ghost use Rattle.std.specs.Prelude.{◌≡◌, ◌+◌, ◌*◌, ◌≤◌, ◌&&◌, [], length, nat_le, Some, None, if◌then◌else◌};
ghost use Rattle.std.specs.Str.{is_utf8};
ghost use Rattle.kd_item.specs.Spelling.{item_length};
ghost use Rattle.kd_wire.specs.Commands.{opcode_in, flags_of, command_words, items_of};
ghost use Rattle.kd_wire.specs.Items.{spelled};
ghost use Rattle.kd_wire.specs.Opcodes.{word_count};
ghost use Rattle.kd_wire.specs.Reading.{has_form, stand};
ghost use Rattle.kd_wire.specs.Refusals.{flaw_of};
ghost use Rattle.kd_wire.specs.WellFormed.{is_well_formed};

use crate::command::Command;
use crate::cutting::{HEAD, LIMIT};
use crate::item::WireItem;
use crate::judging::{flaw, has_bad_word, has_unknown_flag};
use crate::kinds::kinds_of;
use crate::opcode::{MOST_WORDS, Opcode};
use crate::reading_items::{is_text, may_follow};
use crate::writing::entry_length;
use kd_types::Refusal;

/// How many bytes the items take; None where they are more than a frame has.
fn length_within(items: &[WireItem]) -> Option<usize>
    ensures { result
        ≡ (if nat_le (length (spelled items.now)) 131072 then Some (length (spelled items.now))
        else None) }
{
    let mut total = 0;
    'items: for item in items {
        let length = item.length();
        if length > LIMIT - total {
            return None;
        }
        total += length;
    }
    Some(total)
}

/// Whether an item has the form of its kind: a text is UTF-8, and a description has at most 255
/// bytes.
fn has_form(item: &WireItem) -> bool
    ensures { result ≡ has_form item.now }
{
    match item {
        WireItem::DstName(text)
        | WireItem::Name(text)
        | WireItem::Bus(text)
        | WireItem::Endpoint(text)
        | WireItem::NameAdd { name: text, .. }
        | WireItem::NameRemove { name: text, .. }
        | WireItem::NameChange { name: text, .. } => is_text(text.bytes()),
        WireItem::Description(text) => is_text(text.bytes()) && text.bytes().len() <= 255,
        _ => true,
    }
}

/// Whether the items have their forms, and each may stand behind those before it.
fn all_stand(kinds: &[u64], items: &[WireItem]) -> bool
    ensures { result ≡ stand kinds.now [] items.now }
{
    let mut place = 0;
    'standing: for item in items {
        let (before, _) = items.split_at(place);
        if !(may_follow(kinds, before, item.kind()) && has_form(item)) {
            return false;
        }
        place += 1;
    }
    true
}

/// Whether a command with so many bytes of items is no longer than a frame.
fn is_short(opcode: Opcode, items_length: usize) -> bool
    ensures { result ≡ nat_le (32 + 8 * word_count opcode + items_length) 131072 }
{
    items_length <= LIMIT - HEAD - 8 * opcode.words()
}

/// Whether a command whose one item is this text is no longer than a frame, and the text is UTF-8.
fn is_short_text(opcode: Opcode, text: &[u8]) -> bool
    ensures { result
        ≡ (nat_le (32 + 8 * word_count opcode + item_length (length text.now)) 131072
        && is_utf8 text.now) }
{
    is_short(opcode, entry_length(text.len())) && is_text(text)
}

/// What is wrong with the values of a command, whose items are these.
fn flaw_in(command: &Command, items: &[WireItem], items_length: usize) -> Option<Refusal>
    requires items { items.now ≡ items_of command.now }
    requires length { items_length ≡ length (spelled items.now) }
    requires bound { items_length ≤ 131072 }
    ensures { result ≡ flaw_of (opcode_in command.now) (flags_of command.now)
        (command_words command.now) items.now }
{
    let opcode = command.opcode();
    let mut room = [0; MOST_WORDS];
    let (own, _) = room.split_at_mut(opcode.words());
    command.put_own(own, items_length);
    flaw(opcode, command.flags(), own, items)
}

/// Whether a command, whose items are these, has a frame.
fn has_frame(command: &Command, items: &[WireItem]) -> bool
    requires { items.now ≡ items_of command.now }
    ensures { result ≡ is_well_formed command.now }
{
    let Some(length) = length_within(items) else {
        return false;
    };
    let opcode = command.opcode();
    is_short(opcode, length)
        && all_stand(kinds_of(opcode, command.flags()), items)
        && flaw_in(command, items, length).is_none()
}

impl Command {
    /// Whether it has a frame: of at most 131,072 bytes, with items that may stand in it, and with
    /// no value that is refused. It takes no memory.
    pub fn is_well_formed(&self) -> bool
        ensures { result ≡ is_well_formed self.now }
    {
        match self {
            Command::Hello { items, .. }
            | Command::Send { items, .. }
            | Command::MatchAdd { items, .. }
            | Command::PolicySet { items }
            | Command::EndpointMake { items } => has_frame(self, items.items()),
            Command::NameAcquire { flags, name } => is_short_text(Opcode::NameAcquire, name.bytes())
                && !has_unknown_flag(Opcode::NameAcquire, flags.word()),
            Command::NameRelease { name } => is_short_text(Opcode::NameRelease, name.bytes()),
            Command::MakeBus { size, hashes, bus } => is_short_text(Opcode::MakeBus, bus.bytes())
                && !has_bad_word(Opcode::MakeBus, 0, &[u64::from(*size), u64::from(*hashes)]),
            Command::Seal { payload } => is_short(
                Opcode::Seal,
                entry_length(payload.bytes().len()),
            ),
            _ => has_frame(self, &[]),
        }
    }
}

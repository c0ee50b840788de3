//! Reading commands.

ghost use Rattle.std.specs.Prelude.{◌≡◌, ◌+◌, ◌*◌, ◌^◌, ◌<◌, ◌≤◌, true, IsTrue, [], ◌∷◌, length, map, drop, IfOk, IfErr, OnOk};
ghost use Rattle.std.specs.Int.{w64, cast_unsigned};
ghost use Rattle.std.specs.Int.RustNames.{FitsSigned};
ghost use Rattle.kd_wire.specs.Typed.{HasSigned, IsTyped};
ghost use Rattle.kd_item.specs.Spelling.{number};
ghost use Rattle.kd_wire.specs.Ports.{takes_caller, takes_opcode};
ghost use Rattle.kd_wire.specs.Opcodes.{opcode_number, word_count};
ghost use Rattle.kd_wire.specs.Items.{kind_of, spelled};
ghost use Rattle.kd_wire.specs.Commands.{bit, opcode_in, flags_of, command_words, items_of};
ghost use Rattle.kd_wire.specs.Frames.{cut_of, frame_of, frame_length, command_word};
ghost use Rattle.kd_wire.specs.Refusals.{words_from, own_words, has_broken_words, AreParts, IsWellFormed, refusal_in, refusal_of, IsWhy};
ghost use Rattle.kd_wire.specs.WellFormed.{is_well_formed};

use crate::command::Command;
use crate::cutting::{HEAD, head};
use crate::frame::Cut;
use crate::item::{WireItem, WireItems};
use crate::judging::flaw_read;
use crate::kinds::kinds_of;
use crate::opcode::Opcode;
use crate::port::Port;
use crate::reading_items::read_items;
use kd_item::word_at;
use kd_types::{
    Blob, Cookie, Creds, HelloFlags, ListFlags, Moment, NameFlags, RecvFlags, Refusal, SendFlags,
    Text,
};
use std::alloc::Global;

/// Whether a command's words don't fit its frame, or the first word of a message isn't the size of
/// its header and items.
fn has_broken_words(opcode: Opcode, frame: &[u8]) -> bool
    requires { 32 ≤ length frame.now }
    ensures { result ≡ has_broken_words opcode frame.now }
{
    match opcode {
        Opcode::Send => frame.len() < 96 || word_at(frame, 32) != (frame.len() - HEAD) as u64,
        _ => frame.len() < HEAD + 8 * opcode.words(),
    }
}

/// The one NAME among the items.
fn the_name(items: Vec<WireItem>) -> Text
    requires { map kind_of items.items ≡ 6 ∷ [] }
    ensures { items.items ≡ WireItem.Name result ∷ [] }
{
    let mut items = items;
    match items.pop() {
        Some(WireItem::Name(name)) => name,
        _ => unreachable!(),
    }
}

/// The one BUS among the items.
fn the_bus(items: Vec<WireItem>) -> Text
    requires { map kind_of items.items ≡ 8 ∷ [] }
    ensures { items.items ≡ WireItem.Bus result ∷ [] }
{
    let mut items = items;
    match items.pop() {
        Some(WireItem::Bus(name)) => name,
        _ => unreachable!(),
    }
}

/// The one PAYLOAD among the items.
fn the_payload(items: Vec<WireItem>) -> Blob
    requires { map kind_of items.items ≡ 1 ∷ [] }
    ensures { items.items ≡ WireItem.Payload result ∷ [] }
{
    let mut items = items;
    match items.pop() {
        Some(WireItem::Payload(bytes)) => bytes,
        _ => unreachable!(),
    }
}

/// The two's complement number of a word.
fn signed(word: u64) -> i64
    ensures word { cast_unsigned w64 result ≡ word }
    ensures fits { FitsSigned w64 result }
{
    word.cast_signed()
}

/// Whether a word of one bit is set.
fn is_set(word: u64) -> bool
    requires { word ≤ 1 }
    ensures { bit result ≡ word }
{
    word == 1
}

/// The message of these words and items.
fn message_of(own: &[u8], items: Vec<WireItem>) -> Command
    requires whole { 64 ≤ length own.now }
    requires sized { number own.now ≡ 64 + length (spelled items.items) }
    ensures opcode { opcode_in result ≡ Opcode.Send }
    ensures flags { flags_of result ≡ 0 }
    ensures words { command_words result ≡ words_from 8 0 own.now }
    ensures items { items_of result ≡ items.items }
    ensures signed { HasSigned result }
{
    Command::Send {
        flags: SendFlags(word_at(own, 8)),
        priority: signed(word_at(own, 16)),
        dst: word_at(own, 24),
        source: word_at(own, 32),
        payload_type: word_at(own, 40),
        cookie: word_at(own, 48),
        last: word_at(own, 56),
        items: WireItems::of(items),
    }
}

/// The credentials in these words.
fn creds_of(own: &[u8]) -> Creds
    requires whole { 24 ≤ length own.now }
    requires uid { number own.now < 2 ^ 32 }
    requires gid { number (drop 8 own.now) < 2 ^ 32 }
    requires privileged { number (drop 16 own.now) ≤ 1 }
    ensures uid { result.uid ≡ number own.now }
    ensures gid { result.gid ≡ number (drop 8 own.now) }
    ensures privileged { bit result.privileged ≡ number (drop 16 own.now) }
{
    Creds {
        uid: word_at(own, 0) as u32,
        gid: word_at(own, 8) as u32,
        privileged: is_set(word_at(own, 16)),
    }
}

/// The command of these parts, which were judged.
fn command_of(opcode: Opcode, flags: u64, own: &[u8], items: Vec<WireItem>) -> Command
    requires whole { 8 * word_count opcode ≤ length own.now }
    requires parts { AreParts opcode flags (own_words opcode own.now) items.items }
    ensures opcode { opcode_in result ≡ opcode }
    ensures flags { flags_of result ≡ flags }
    ensures words { command_words result ≡ own_words opcode own.now }
    ensures items { items_of result ≡ items.items }
    ensures signed { HasSigned result }
{
    match opcode {
        Opcode::Hello => Command::Hello {
            flags: HelloFlags(flags),
            pool: word_at(own, 0) as u32,
            send_mask: word_at(own, 8),
            receive_mask: word_at(own, 16),
            items: WireItems::of(items),
        },
        Opcode::Send => message_of(own, items),
        Opcode::Recv => Command::Recv {
            flags: RecvFlags(flags),
            limit: signed(word_at(own, 0)),
        },
        Opcode::Read => Command::Read {
            sealed: is_set(flags),
            number: word_at(own, 0),
        },
        Opcode::Free => Command::Free {
            number: word_at(own, 0),
        },
        Opcode::Byebye => Command::Byebye,
        Opcode::Close => Command::Close,
        Opcode::NameAcquire => Command::NameAcquire {
            flags: NameFlags(flags),
            name: the_name(items),
        },
        Opcode::NameRelease => Command::NameRelease {
            name: the_name(items),
        },
        Opcode::NameList => Command::NameList {
            flags: ListFlags(flags),
        },
        Opcode::MatchAdd => Command::MatchAdd {
            replace: is_set(flags),
            cookie: Cookie(word_at(own, 0)),
            items: WireItems::of(items),
        },
        Opcode::MatchRemove => Command::MatchRemove {
            cookie: Cookie(word_at(own, 0)),
        },
        Opcode::PolicySet => Command::PolicySet {
            items: WireItems::of(items),
        },
        Opcode::EndpointMake => Command::EndpointMake {
            items: WireItems::of(items),
        },
        Opcode::MakeBus => Command::MakeBus {
            size: word_at(own, 0) as u32,
            hashes: word_at(own, 8) as u32,
            bus: the_bus(items),
        },
        Opcode::Tick => Command::Tick {
            moment: Moment(word_at(own, 0)),
        },
        Opcode::Seal => Command::Seal {
            payload: the_payload(items),
        },
        Opcode::Unseal => Command::Unseal {
            number: word_at(own, 0),
        },
        Opcode::Enter => Command::Enter {
            creds: creds_of(own),
        },
    }
}

/// The caller and the command of a frame that names this command.
fn read_as(
    alloc: Global,
    frame: &[u8],
    port: Port,
    opcode: Opcode,
) -> Result<(u64, Command), Refusal>
    requires frame { cut_of frame.now ≡ Cut.Frame (length frame.now) }
    requires command { command_word frame.now ≡ opcode_number opcode }
    ensures spelled { IfOk result (λ r. frame.now ≡ frame_of r.0 r.1) }
    ensures caller { IfOk result (λ r. takes_caller port r.0 ≡ true) }
    ensures command { IfOk result (λ r. opcode_in r.1 ≡ opcode) }
    ensures well_formed { IfOk result (λ r. IsWellFormed r.1) }
    ensures typed { IfOk result (λ r. IsTyped r.1) }
    ensures accepted { OnOk result (refusal_in port opcode frame.now ≡ None) }
    ensures refused { IfErr result (λ r. IsWhy r (refusal_in port opcode frame.now)) }
{
    let caller = head(frame).caller;
    if !port.takes_caller(caller) {
        return Err(Refusal::Malformed { at: 16 });
    }
    if has_broken_words(opcode, frame) {
        return Err(Refusal::Malformed { at: 32 });
    }
    let flags = word_at(frame, 24);
    let start = HEAD + 8 * opcode.words();
    let items = read_items(
        alloc,
        kinds_of(opcode, flags),
        start,
        frame.split_at(start).1,
    )?;
    let own = frame.split_at(HEAD).1;
    if let Some(refusal) = flaw_read(opcode, flags, own, &items) {
        return Err(refusal);
    }
    Ok((caller, command_of(opcode, flags, own, items)))
}

/// The caller and the command of a whole frame, or the first of its refusals: Unsupported,
/// Malformed, DoubledItem, MissingItem, BadFlags, in this order.
pub fn read_command(alloc: Global, frame: &[u8], port: Port) -> Result<(u64, Command), Refusal>
    requires { cut_of frame.now ≡ Cut.Frame (length frame.now) }
    ensures spelled { IfOk result (λ r. frame.now ≡ frame_of r.0 r.1) }
    ensures caller { IfOk result (λ r. takes_caller port r.0 ≡ true) }
    ensures command { IfOk result (λ r. takes_opcode port (opcode_in r.1) ≡ true) }
    ensures well_formed { IfOk result (λ r. IsWellFormed r.1) }
    ensures typed { IfOk result (λ r. IsTyped r.1) }
    ensures judged { IfOk result (λ r. IsTrue (is_well_formed r.1)) }
    ensures size { IfOk result (λ r. frame_length r.1 ≡ length frame.now) }
    ensures accepted { OnOk result (refusal_of port frame.now ≡ None) }
    ensures refused { IfErr result (λ r. IsWhy r (refusal_of port frame.now)) }
{
    let command = head(frame).command;
    let Some(opcode) = Opcode::of(command) else {
        return Err(Refusal::Unsupported { cmd: command });
    };
    if !port.takes_opcode(opcode) {
        return Err(Refusal::Unsupported { cmd: command });
    }
    read_as(alloc, frame, port, opcode)
}

//! The names of commands and refusals.

ghost use Rattle.std.specs.Prelude.{◌≡◌, ◌++◌, OnOk};
ghost use Rattle.kd_lines.specs.Names.{command_name, number_name, refusal_name, refusal_text};

use crate::marks::{put_field, put_number, put_text};
use kd_types::Refusal;
use kd_wire::Opcode;
use std::alloc::AllocError;

/// The name of a command.
#[tactic(auto, unfolding(crate::specs::Names::command_name))]
pub(crate) fn command_name(opcode: Opcode) -> &'static str
    ensures { result.now ≡ command_name opcode }
{
    match opcode {
        Opcode::Hello => "HELLO",
        Opcode::Send => "SEND",
        Opcode::Recv => "RECV",
        Opcode::Read => "READ",
        Opcode::Free => "FREE",
        Opcode::Byebye => "BYEBYE",
        Opcode::Close => "CLOSE",
        Opcode::NameAcquire => "NAME_ACQUIRE",
        Opcode::NameRelease => "NAME_RELEASE",
        Opcode::NameList => "NAME_LIST",
        Opcode::MatchAdd => "MATCH_ADD",
        Opcode::MatchRemove => "MATCH_REMOVE",
        Opcode::PolicySet => "POLICY_SET",
        Opcode::EndpointMake => "ENDPOINT_MAKE",
        Opcode::MakeBus => "MAKE_BUS",
        Opcode::Tick => "TICK",
        Opcode::Seal => "SEAL",
        Opcode::Unseal => "UNSEAL",
        Opcode::Enter => "ENTER",
    }
}

/// Appends the name of the command of this number; the number itself where no command has it.
pub(crate) fn put_command_name(out: &mut Vec<u8>, number: u64) -> Result<(), AllocError>
    ensures { OnOk result (out.new.items ≡ out.old.items ++ number_name number) }
{
    match Opcode::of(number) {
        Some(opcode) => put_text(out, command_name(opcode)),
        None => put_number(out, number),
    }
}

/// The name of a refusal.
#[tactic(auto, unfolding(crate::specs::Names::refusal_name))]
fn refusal_name(refusal: &Refusal) -> &'static str
    ensures { result.now ≡ refusal_name refusal.now }
{
    match refusal {
        Refusal::Malformed { .. } => "Malformed",
        Refusal::Unsupported { .. } => "Unsupported",
        Refusal::BadFlags => "BadFlags",
        Refusal::MissingItem => "MissingItem",
        Refusal::DoubledItem => "DoubledItem",
        Refusal::BadName => "BadName",
        Refusal::NotPermitted => "NotPermitted",
        Refusal::NoSuchName => "NoSuchName",
        Refusal::NoSuchConnection => "NoSuchConnection",
        Refusal::NameMoved { .. } => "NameMoved",
        Refusal::NameTaken => "NameTaken",
        Refusal::AlreadyOwned => "AlreadyOwned",
        Refusal::NotOwner => "NotOwner",
        Refusal::TooMany { .. } => "TooMany",
        Refusal::PoolFull => "PoolFull",
        Refusal::Quota => "Quota",
        Refusal::NotStarted => "NotStarted",
        Refusal::NoMessage { .. } => "NoMessage",
        Refusal::NoSuchPriority => "NoSuchPriority",
        Refusal::NoSuchSlice => "NoSuchSlice",
        Refusal::NotReceived => "NotReceived",
        Refusal::Busy { .. } => "Busy",
        Refusal::BloomSize => "BloomSize",
        Refusal::TooLong => "TooLong",
        Refusal::BroadcastMisuse => "BroadcastMisuse",
        Refusal::NoSuchBus { .. } => "NoSuchBus",
        Refusal::BusExists => "BusExists",
        Refusal::WrongPrefix => "WrongPrefix",
        Refusal::NoSuchEndpoint => "NoSuchEndpoint",
        Refusal::EndpointExists => "EndpointExists",
        Refusal::WrongState => "WrongState",
        Refusal::MessagesQueued => "MessagesQueued",
        Refusal::NoSuchMatch => "NoSuchMatch",
        Refusal::NoSuchSeal => "NoSuchSeal",
        Refusal::BadCookie => "BadCookie",
        Refusal::SlicesSpent => "SlicesSpent",
        Refusal::TurnsSpent => "TurnsSpent",
        Refusal::OutOfMemory => "OutOfMemory",
    }
}

/// Appends a refusal, with its field where it has one.
pub(crate) fn put_refusal(out: &mut Vec<u8>, refusal: &Refusal) -> Result<(), AllocError>
    ensures { OnOk result (out.new.items ≡ out.old.items ++ refusal_text refusal.now) }
{
    put_text(out, refusal_name(refusal))?;
    match refusal {
        Refusal::Malformed { at } => put_field(out, "at", *at),
        Refusal::Unsupported { cmd } => put_field(out, "command", *cmd),
        Refusal::NameMoved { owner } => put_field(out, "owner", owner.0),
        Refusal::TooMany { limit } => put_field(out, "limit", *limit),
        Refusal::NoMessage { dropped } => put_field(out, "dropped", *dropped),
        Refusal::Busy { slice } => put_field(out, "slice", *slice),
        Refusal::NoSuchBus { generation } => put_field(out, "generation", *generation),
        _ => Ok(()),
    }
}

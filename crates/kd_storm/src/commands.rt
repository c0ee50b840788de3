//! The commands of a load.
ghost use Rattle.std.specs.Prelude.{◌≡◌, ◌<◌, IfOk, IsTrue};
ghost use Rattle.kd_wire.specs.WellFormed.{is_well_formed};
ghost use Rattle.kd_load.specs.Bus.{AreFilters, IsTarget, command_of, hello_command, rule_command};

use crate::filters::Filters;
use kd_load::{Message, Target};
use kd_types::{Blob, Cookie, HelloFlags, SendFlags};
use kd_wire::{Command, WireItem, WireItems};
use std::alloc::{AllocError, Global};

/// The destination of what goes to all.
const ANY: u64 = u64::MAX;

/// A HELLO with a pool of 1,048,576 bytes, and no metadata.
fn plain_hello(alloc: Global) -> Command
    ensures { result ≡ hello_command }
{
    let Some(flags) = HelloFlags::of(0) else {
        unreachable!()
    };
    Command::Hello {
        flags,
        pool: 1_048_576,
        send_mask: 0,
        receive_mask: 0,
        items: WireItems::of(Vec::new(alloc)),
    }
}

/// A MATCH_ADD with the mask of the digit of this id.
fn plain_rule(alloc: Global, filters: &Filters, id: u64) -> Result<Command, AllocError>
    ensures { IfOk result (λ x. x ≡ rule_command filters.now id) }
{
    let mask = Vec::from_slice(alloc, filters.of((id % 8) as u8))?;
    let mut items = Vec::with_capacity(alloc, 1)?;
    items.push_reserved(WireItem::Mask(Blob::of(mask)));
    Ok(Command::MatchAdd {
        replace: false,
        cookie: Cookie(0),
        items: WireItems::of(items),
    })
}

/// A SEND with the number of the message, and to all with the filter of its digit.
fn plain_sending(alloc: Global, filters: &Filters, message: &Message) -> Result<Command, AllocError>
    requires { IsTarget 16 message.now.target }
    ensures { IfOk result (λ x. x ≡ command_of filters.now message.now) }
{
    let Some(flags) = SendFlags::of(0) else {
        unreachable!()
    };
    let payload = Vec::from_slice(alloc, &message.number.to_le_bytes())?;
    let mut items = Vec::with_capacity(alloc, 2)?;
    items.push_reserved(WireItem::Payload(Blob::of(payload)));
    let dst = match message.target {
        Target::All { digit } => {
            let bits = Vec::from_slice(alloc, filters.of(digit))?;
            items.push_reserved(WireItem::Filter {
                generation: 0,
                bits: Blob::of(bits),
            });
            ANY
        }
        Target::One { id } => id,
    };
    Ok(Command::Send {
        flags,
        priority: 0,
        dst,
        source: 0,
        payload_type: 0,
        cookie: 0,
        last: 0,
        items: WireItems::of(items),
    })
}

/// The HELLO of each connection: a pool of 1,048,576 bytes, and no metadata.
pub fn hello(alloc: Global) -> Command
    ensures command { result ≡ hello_command }
    ensures form { IsTrue (is_well_formed result) }
{
    plain_hello(alloc)
}

/// The rule of the connection of this id: the mask of its digit's string.
pub fn rule(alloc: Global, filters: &Filters, id: u64) -> Result<Command, AllocError>
    requires { AreFilters filters.now }
    ensures command { IfOk result (λ x. x ≡ rule_command filters.now id) }
    ensures form { IfOk result (λ x. IsTrue (is_well_formed x)) }
{
    plain_rule(alloc, filters, id)
}

/// The SEND of a message: its payload is the eight bytes of its number, the lowest first; to all it
/// has the filter of its digit, of generation 0.
pub fn sending(alloc: Global, filters: &Filters, message: &Message) -> Result<Command, AllocError>
    requires filters { AreFilters filters.now }
    requires target { IsTarget 16 message.now.target }
    ensures command { IfOk result (λ x. x ≡ command_of filters.now message.now) }
    ensures form { IfOk result (λ x. IsTrue (is_well_formed x)) }
{
    plain_sending(alloc, filters, message)
}

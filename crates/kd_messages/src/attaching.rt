//! What a receiver is told of a sender.

ghost use Rattle.std.specs.Prelude.{◌≡◌, IfOk};
ghost use Rattle.kd_commands.specs.Messages.{attached, is_attached, when};
ghost use Rattle.kd_messages.specs.Sending.{TellsNames, names_attached};

use kd_commands::Conn;
use kd_image::Attached;
use kd_tables::Desk;
use kd_types::{Text, TextList};
use std::alloc::{AllocError, Global};

/// The kinds of metadata, as bits of the masks of connections.
const CREDS: u64 = 1;

const NAMES: u64 = 2;

const DESCRIPTION: u64 = 4;

const MOMENT: u64 = 8;

/// Whether both ends asked for this kind of metadata.
fn is_attached(sender: &Conn, receiver: &Conn, kind: u64) -> bool
    ensures { result ≡ is_attached sender.now receiver.now kind }
{
    sender.send_mask & kind == kind && receiver.receive_mask & kind == kind
}

/// The sender's description, where it is attached.
fn description_for(
    alloc: Global,
    sender: &Conn,
    receiver: &Conn,
) -> Result<Option<Text>, AllocError>
    ensures { IfOk result
        (λ text. text ≡ when (is_attached sender.now receiver.now 4) sender.now.description) }
{
    if !is_attached(sender, receiver, DESCRIPTION) {
        return Ok(None);
    }
    match &sender.description {
        Some(text) => Ok(Some(Text::of(alloc, text.bytes())?)),
        None => Ok(None),
    }
}

/// The names that the sender lets the bus attach.
pub(crate) fn names_to_tell(
    desk: &Desk,
    alloc: Global,
    sender: &Conn,
) -> Result<Vec<Text>, AllocError>
    ensures { IfOk result (λ names. TellsNames desk.now sender.now names.items) }
{
    if sender.send_mask & NAMES == NAMES {
        desk.registry.names_of(alloc, sender.id)
    } else {
        Ok(Vec::new(alloc))
    }
}

/// The names that are attached: those that the receiver may see.
fn names_for(
    desk: &Desk,
    alloc: Global,
    sender: &Conn,
    names: &[Text],
    receiver: &Conn,
) -> Result<Vec<Text>, AllocError>
    requires names { TellsNames desk.now sender.now names.now }
    ensures { IfOk result
        (λ seen. seen.items ≡ names_attached desk.now sender.now receiver.now) }
{
    let mut seen = Vec::new(alloc);
    if !is_attached(sender, receiver, NAMES) {
        return Ok(seen);
    }
    'names: for name in names {
        if desk.may_see_name(receiver, name) {
            seen.push(Text::of(alloc, name.bytes())?)?;
        }
    }
    Ok(seen)
}

/// What the receiver is told of the sender, as far as both ends asked for it.
#[tactic(auto, unfolding(kd_commands::specs::Messages::attached))]
pub(crate) fn attached(
    desk: &Desk,
    alloc: Global,
    sender: &Conn,
    names: &[Text],
    receiver: &Conn,
) -> Result<Attached, AllocError>
    requires names { TellsNames desk.now sender.now names.now }
    ensures { IfOk result (λ a. a ≡ attached desk.now sender.now receiver.now) }
{
    let creds = if is_attached(sender, receiver, CREDS) {
        Some(sender.creds)
    } else {
        None
    };
    let names = names_for(desk, alloc, sender, names, receiver)?;
    let description = description_for(alloc, sender, receiver)?;
    let moment = if is_attached(sender, receiver, MOMENT) {
        Some(desk.moment)
    } else {
        None
    };
    Ok(Attached {
        creds,
        names: TextList::of(names),
        description,
        moment,
    })
}

//! The sealed bytes that a message takes along.

ghost use Rattle.std.specs.Prelude.{◌≡◌, option_map, IfOk};
ghost use Rattle.kd_messages.specs.Sending.{Judges, refusals_of_share, share_of};
ghost use Rattle.kd_said.specs.Said.{named_of};

use kd_commands::Conn;
use kd_image::Message;
use kd_said::Named;
use kd_seal::Sealed;
use kd_tables::Desk;
use kd_types::Refusal;

/// A message, and the sealed bytes that it takes along.
#[derive(Drop)]
pub(crate) struct Parcel {
    pub(crate) message: Message,
    pub(crate) share: Option<Sealed>,
}

/// The bytes of the range that a message of the sender names, if it names one; `NoSuchSeal`
/// where the sender has no seal of the number, or the range isn't inside it.
pub(crate) fn share_of(
    desk: &Desk,
    sender: &Conn,
    named: Option<Named>,
) -> Result<Option<Sealed>, Refusal>
    ensures judged { Judges
        (refusals_of_share desk.now sender.now (option_map named_of named)) result }
    ensures share { IfOk result
        (λ bytes. bytes ≡ share_of desk.now sender.now (option_map named_of named)) }
{
    let Some(Named { number, range }) = named else {
        return Ok(None);
    };
    let share = desk
        .seals
        .share(sender.id, number, range.start, range.length)?;
    Ok(Some(share))
}

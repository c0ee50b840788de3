//! Whom a broadcast is for.

ghost use Rattle.std.specs.Prelude.{◌≡◌, length, map, false, IfErr, IfOk};
ghost use Rattle.kd_registry.specs.Changes.{names_of};
ghost use Rattle.kd_image.specs.Images.{any};
ghost use Rattle.kd_commands.specs.Audience.{audience, broadcast, is_shown, is_told};
ghost use Rattle.kd_messages.specs.Sending.{letter_offer};

use crate::offers::{Letter, Offers, offer_where};
use crate::sending::ANY;
use crate::sharing::Parcel;
use kd_bloom::Bits;
use kd_commands::Conn;
use kd_match::Subject;
use kd_tables::Desk;
use kd_types::{Kind, OwnerChange, Refusal, Text};
use std::alloc::Global;

/// Whether an ordinary connection is shown the broadcast of a sender that owns these names: it
/// asks for it by a rule, and may send to the sender. Without a rule nothing else is looked at.
/// What a subject of a rule may borrow is named, though a message borrows no change of a name:
/// the borrow checker asks for it.
#[tactic(auto, unfolding(kd_commands::specs::Audience::is_shown))]
fn is_shown_broadcast(
    desk: &Desk,
    sender: &Conn,
    names: &[Text],
    filter: &Bits,
    generation: u64,
    conn: &Conn,
) -> bool
    requires filter { length filter.now ≡ desk.now.rules.size }
    requires names { names.now ≡ names_of desk.now.registry sender.now.id }
    ensures { result
        ≡ is_shown desk.now
        (broadcast sender.now (record { generation = generation; bits = filter.now }))
        conn.now }
{
    let _change: Option<&OwnerChange> = None;
    let subject = Subject::Message {
        source: sender.id,
        names,
        filter,
        generation,
    };
    !(conn.id == sender.id)
        && desk.matches.admits(conn.id, &subject)
        && desk.talks_by(conn, sender, names)
}

/// Whether the connection is told the broadcast: a monitor is, and an ordinary connection that
/// is shown it.
fn hears(
    desk: &Desk,
    sender: &Conn,
    names: &[Text],
    filter: &Bits,
    generation: u64,
    conn: &Conn,
) -> bool
    requires filter { length filter.now ≡ desk.now.rules.size }
    requires names { names.now ≡ names_of desk.now.registry sender.now.id }
    ensures { result
        ≡ is_told desk.now
        (broadcast sender.now (record { generation = generation; bits = filter.now }))
        conn.now }
{
    match conn.kind {
        Kind::Monitor => true,
        Kind::Ordinary => is_shown_broadcast(desk, sender, names, filter, generation, conn),
        Kind::Activator | Kind::Holder => false,
    }
}

/// The offers of a broadcast, by rising seat. What its sender owns is looked up once.
pub(crate) fn broadcast_offers(
    desk: &Desk,
    alloc: Global,
    sender: &Conn,
    parcel: Parcel,
    filter: &Bits,
    generation: u64,
) -> Result<Offers, Refusal>
    requires filter { length filter.now ≡ desk.now.rules.size }
    ensures ok { IfOk result (λ o.
        o
        ≡ map (letter_offer desk.now sender.now parcel.message parcel.share any false)
        (audience desk.now
        (broadcast sender.now (record { generation = generation; bits = filter.now })))) }
    ensures err { IfErr result (λ e. e ≡ Refusal.OutOfMemory) }
{
    let names = desk.registry.names_of(alloc, sender.id)?;
    let letter = Letter::of(alloc, parcel, names, ANY)?;
    let mut offers = Offers::new(alloc);
    'receivers: for conn in &desk.conns {
        let told = hears(desk, sender, &letter.names, filter, generation, conn);
        offer_where(desk, alloc, &mut offers, sender, &letter, conn, told)?;
    }
    Ok(offers)
}

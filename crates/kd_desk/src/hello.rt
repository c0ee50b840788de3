//! HELLO: what it comes to when a caller becomes a connection.

ghost use Rattle.std.specs.Prelude.{◌≡◌, ◌<◌, ◌^◌, ◌%◌, ◌++◌, [], ◌∷◌, Some, false, unwrap_or, IfOk, OnOk, IsTrue};
ghost use Rattle.std.specs.List.{list_any};
ghost use Rattle.kd_model.specs.Words.{first_that_holds};
ghost use Rattle.kd_match.specs.Rules.{result_of};
ghost use Rattle.kd_wire.specs.Refusals.{is_bad_access};
ghost use Rattle.kd_acts.specs.State.{raise};
ghost use Rattle.kd_commands.specs.Items.{endpoint_in};
ghost use Rattle.kd_commands.specs.Hello.{arrival, endpoint_of, free_seat, hello, is_free, kind_asked, newcomer};
ghost use Rattle.kd_commands.specs.Plans.{notices};
ghost use Rattle.kd_desk.specs.Arriving.{IsBrought, are_many, asked, is_ill_brought, is_ruled_out, is_taken, owned_first, owner_with, refusals_of_newcomer};
ghost use Rattle.kd_tables.specs.Drafts.{HasRoomFor, PlanResult, parts_with};

use crate::naming::moved_posts;
use crate::planning::itself;
use kd_commands::Conn;
use kd_messages::{News, is_monitor, tell};
use kd_name::is_name;
use kd_policy::{ENTRIES, Entry, Owner};
use kd_said::{activator_name, description_of, endpoint_in, entries_in, has_ill_named};
use kd_tables::{Brought, Change, Desk, Part, Plan, SEATS};
use kd_types::{ConnId, Creds, HelloFlags, Kind, OwnerChange, Refusal, Seat, Text};
use kd_wire::{Reply, WireItem, WireItems};
use std::alloc::{AllocError, Global};

/// What a caller asks for that wants to become a connection.
#[derive(Debug, Drop)]
pub(crate) struct Wanted {
    /// What it wants to be.
    pub flags: HelloFlags,
    /// The size of its pool in bytes; 0 for a policy holder, which has none.
    pub size: u32,
    /// Which metadata may be attached to what it sends.
    pub send_mask: u64,
    /// Which metadata it wants attached to what it receives.
    pub receive_mask: u64,
    /// The endpoint that it comes by, its description, and the name or the policy that it brings.
    pub items: WireItems,
}

/// What a caller wants to be.
fn kind_asked(flags: HelloFlags) -> Kind
    ensures { result ≡ kind_asked flags }
{
    if flags.activator() {
        Kind::Activator
    } else if flags.holder() {
        Kind::Holder
    } else if flags.monitor() {
        Kind::Monitor
    } else {
        Kind::Ordinary
    }
}

/// What a newcomer of the kind brings.
fn brought_by(alloc: Global, kind: Kind, items: &[WireItem]) -> Result<Brought, AllocError>
    requires numbers { list_any is_bad_access items.now ≡ false }
    ensures { IfOk result (λ b. IsBrought kind items.now b) }
{
    match kind {
        Kind::Activator => Ok(Brought::Name(activator_name(alloc, items)?)),
        Kind::Holder => Ok(Brought::Entries(entries_in(alloc, items)?)),
        Kind::Ordinary | Kind::Monitor => Ok(Brought::Nothing),
    }
}

/// Whether the name of an activator is none, or a pattern of a holder.
fn is_ill_brought(brought: &Brought) -> bool
    ensures { result ≡ is_ill_brought brought.now }
{
    match brought {
        Brought::Nothing => false,
        Brought::Name(name) => !is_name(name.bytes()),
        Brought::Entries(entries) => has_ill_named(entries),
    }
}

/// Whether a holder brings more entries than one owner may have.
fn are_many(brought: &Brought) -> bool
    ensures { result ≡ are_many brought.now }
{
    match brought {
        Brought::Entries(entries) => ENTRIES < entries.len(),
        Brought::Nothing | Brought::Name(_) => false,
    }
}

/// Whether nobody has the seat, and it doesn't wait for its own caller.
fn is_free(desk: &Desk, seat: Seat) -> bool
    ensures { result ≡ is_free desk.now seat }
{
    !desk.occupied(seat) && !desk.blocked(seat)
}

/// The lowest free seat.
fn free_seat(desk: &Desk) -> Option<Seat>
    ensures { result ≡ free_seat desk.now }
{
    'seats: for number in 0..64 {
        if is_free(desk, Seat(number)) {
            return Some(Seat(number));
        }
    }
    None
}

/// The endpoint that the items name: the default one where they name none.
fn endpoint_of(desk: &Desk, items: &[WireItem]) -> Option<u8>
    ensures { result ≡ endpoint_of desk.now (endpoint_in items.now) }
{
    match endpoint_in(items) {
        Some(label) => desk.endpoints.find(label.bytes()),
        None => Some(0),
    }
}

/// The connection that comes by this endpoint on this seat, if nothing refuses it.
#[tactic(auto, unfolding(kd_commands::specs::Hello::newcomer))]
fn newcomer(
    desk: &Desk,
    alloc: Global,
    creds: &Creds,
    wanted: &Wanted,
    endpoint: u8,
    seat: Seat,
) -> Result<Conn, AllocError>
    requires endpoint { endpoint_of desk.now (endpoint_in wanted.now.items) ≡ Some endpoint }
    requires seat { seat ≡ unwrap_or (free_seat desk.now) 0 }
    ensures { IfOk result (λ c. c ≡ newcomer desk.now creds.now (asked wanted.now)) }
{
    Ok(Conn {
        id: ConnId(desk.next_id),
        seat,
        creds: *creds,
        endpoint,
        kind: kind_asked(wanted.flags),
        size: wanted.size,
        send_mask: wanted.send_mask,
        receive_mask: wanted.receive_mask,
        description: description_of(alloc, wanted.items.items())?,
    })
}

/// Whether a newcomer isn't allowed what it wants: an activator to own its name, a holder and a
/// monitor to be what they want to be.
fn is_ruled_out(desk: &Desk, conn: &Conn, brought: &Brought) -> bool
    ensures { result ≡ is_ruled_out desk.now conn.now brought.now }
{
    match brought {
        Brought::Nothing => {
            is_monitor(conn) && (!desk.is_privileged(&conn.creds) || conn.endpoint != 0)
        }
        Brought::Name(name) => !desk.may_own(conn, name),
        Brought::Entries(_) => !desk.is_privileged(&conn.creds),
    }
}

/// Whether the name that an activator brings is none, or has an activator.
fn is_taken(desk: &Desk, brought: &Brought) -> bool
    ensures { result ≡ is_taken desk.now brought.now }
{
    match brought {
        Brought::Name(name) => desk.registry.may_activate(name.bytes()).is_err(),
        Brought::Nothing | Brought::Entries(_) => false,
    }
}

/// Why the newcomer doesn't come.
#[tactic(auto, unfolding(crate::specs::Arriving::refusals_of_newcomer))]
fn judge_newcomer(desk: &Desk, conn: &Conn, brought: &Brought) -> Result<(), Refusal>
    ensures { result
        ≡ result_of (first_that_holds (refusals_of_newcomer desk.now conn.now brought.now)) }
{
    if is_ill_brought(brought) {
        return Err(Refusal::BadName);
    }
    if is_ruled_out(desk, conn, brought) {
        return Err(Refusal::NotPermitted);
    }
    if is_taken(desk, brought) {
        return Err(Refusal::NameTaken);
    }
    if are_many(brought) {
        return Err(Refusal::TooMany { limit: 256 });
    }
    if free_seat(desk).is_none() {
        return Err(Refusal::TooMany { limit: 64 });
    }
    Ok(())
}

/// Whether there is room for what a newcomer brings, as there always is.
fn has_room_for(desk: &Desk, id: ConnId, brought: &Brought) -> bool
    ensures { IsTrue result → HasRoomFor desk.now.registry desk.now.policy id brought.now }
{
    match brought {
        Brought::Nothing => true,
        Brought::Name(_) => desk.registry.has_room(),
        Brought::Entries(_) => desk.policy.has_room(Owner::Conn(id)),
    }
}

/// The others are told of the newcomer, unless it is a monitor. What a notice may borrow is
/// named, though this one borrows none of it: the borrow checker asks for it.
fn tell_arrival(
    desk: &Desk,
    alloc: Global,
    parts: &mut Vec<Part>,
    conn: &Conn,
) -> Result<(), AllocError>
    ensures { OnOk result (parts_with [] parts.new.items
        ≡ parts_with [] parts.old.items ++ notices desk.now (arrival conn.now)) }
{
    let _change: Option<&OwnerChange> = None;
    if is_monitor(conn) {
        return Ok(());
    }
    tell(desk, alloc, parts, &News::Came(conn.id), &[])
}

/// Who owns the name when an activator has it.
fn owner_with(desk: &Desk, name: &Text, id: ConnId) -> ConnId
    ensures { result ≡ owner_with desk.now.registry name.now id }
{
    match desk.registry.owner(name.bytes()) {
        Some((owner, _)) => owner,
        None => id,
    }
}

/// The posts of the notice that a newcomer owns its name, where nobody does.
fn first_owner_posts(
    desk: &Desk,
    alloc: Global,
    id: ConnId,
    brought: &Brought,
) -> Result<Vec<Part>, AllocError>
    ensures { IfOk result (λ parts.
        parts_with [] parts.items ≡ notices desk.now (owned_first desk.now id brought.now)) }
{
    match brought {
        Brought::Name(name) => {
            let (old, new) = (desk.owner_id(name), owner_with(desk, name, id));
            moved_posts(desk, alloc, name, old, new)
        }
        Brought::Nothing | Brought::Entries(_) => Ok(Vec::new(alloc)),
    }
}

/// The visits of a HELLO: its pool is raised, and the others are told.
fn arrival_parts(
    desk: &Desk,
    alloc: Global,
    conn: &Conn,
    brought: &Brought,
) -> Result<Vec<Part>, AllocError>
    ensures { IfOk result (λ parts.
        parts_with [] parts.items
        ≡ record { seat = conn.now.seat; act = raise conn.now.size }
        ∷ notices desk.now (arrival conn.now ++ owned_first desk.now conn.now.id brought.now)) }
{
    let mut parts = Vec::new(alloc);
    parts.push(Part::Raise {
        seat: conn.seat,
        size: conn.size,
    })?;
    tell_arrival(desk, alloc, &mut parts, conn)?;
    let mut posts = first_owner_posts(desk, alloc, conn.id, brought)?;
    parts.append(&mut posts)?;
    Ok(parts)
}

/// A caller becomes a connection of the kind that it asks for, by the endpoint that it names:
/// on the lowest free seat, with its pool, and the others are told. Where the desk had no room
/// for it, which can't come about, memory is wanting.
pub(crate) fn plan_hello(
    desk: &Desk,
    alloc: Global,
    creds: &Creds,
    wanted: Wanted,
) -> Result<Plan, Refusal>
    requires eights { wanted.size % 8 ≡ 0 }
    requires numbers { list_any is_bad_access wanted.items ≡ false }
    requires ids { desk.now.next_id < 2 ^ 63 }
    ensures { PlanResult desk.now (hello desk.now creds.now (asked wanted)) result }
{
    let Some(endpoint) = endpoint_of(desk, wanted.items.items()) else {
        return Err(Refusal::NoSuchEndpoint);
    };
    let seat = free_seat(desk).unwrap_or(Seat(0));
    let conn = newcomer(desk, alloc, creds, &wanted, endpoint, seat)?;
    let brought = brought_by(alloc, conn.kind, wanted.items.items())?;
    judge_newcomer(desk, &conn, &brought)?;
    if SEATS <= desk.conns.len() {
        return Err(Refusal::OutOfMemory);
    }
    if !has_room_for(desk, conn.id, &brought) {
        return Err(Refusal::OutOfMemory);
    }
    let parts = arrival_parts(desk, alloc, &conn, &brought)?;
    let (id, after) = (conn.id, itself(&conn));
    Ok(Plan {
        parts,
        contents: Vec::new(alloc),
        reply: Reply::Hello {
            id,
            size: u64::from(desk.param.size),
            hashes: u64::from(desk.param.hashes),
        },
        change: Change::Arrives { conn, brought },
        after,
    })
}

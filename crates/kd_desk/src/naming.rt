//! Names: acquiring and releasing them.

ghost use Rattle.std.specs.Prelude.{◌≡◌, ◌<◌, ◌%◌, ◌++◌, [], IfOk, Ok, Some};
ghost use Rattle.std.specs.List.{AllByRecursion};
ghost use Rattle.kd_registry.specs.Claims.{owner_id};
ghost use Rattle.kd_tables.specs.Drafts.{PlanResult, IsVisitable, StandByOffers, parts_with};
ghost use Rattle.kd_commands.specs.Names.{activator_in, handover, is_queued, name_acquire, name_release, seat_of_id};
ghost use Rattle.kd_commands.specs.State.{conn_of};
ghost use Rattle.kd_desk.specs.Owners.{IsOwnerThen, acquire_judged, hidden, moved, owner_by, release_judged};
ghost use Rattle.kd_commands.specs.Plans.{notices};

use kd_commands::{Conn, WhoKind};
use kd_messages::owner_posts;
use kd_name::is_name;
use kd_registry::Verdict;
use kd_tables::{Change, Desk, Part, Plan};
use kd_types::{ConnId, NameFlags, OwnerChange, Refusal, Seat, Text};
use kd_wire::Reply;
use std::alloc::{AllocError, Global};

/// Whether the connection waits in the queue.
fn is_queued(verdict: Verdict) -> bool
    ensures { result ≡ is_queued verdict }
{
    matches!(verdict, Verdict::Queued)
}

/// The activator whose place is taken, if one has the name.
fn activator_in(verdict: &Verdict) -> Option<ConnId>
    ensures { result ≡ activator_in verdict.now }
{
    match verdict {
        Verdict::Owner { activator, .. } => *activator,
        Verdict::Queued => None,
    }
}

/// Who owns the name after an acquire.
fn owner_by(verdict: &Verdict, conn: &Conn, before: ConnId) -> ConnId
    ensures { result ≡ owner_by verdict.now conn.now.id before }
{
    match verdict {
        Verdict::Owner { .. } => conn.id,
        Verdict::Queued => before,
    }
}

/// The refusal of a release: who may not see a name isn't told that others own it.
fn hidden(refusal: Refusal, sees: bool) -> Refusal
    ensures { result ≡ hidden refusal sees }
{
    match refusal {
        Refusal::NotOwner if !sees => Refusal::NoSuchName,
        _ => refusal,
    }
}

/// The posts of the notice of a name's new owner, where it isn't the old one.
#[tactic(auto, using(kd_tables::proofs::Visits::nothing_offered))]
pub(crate) fn moved_posts(
    desk: &Desk,
    alloc: Global,
    name: &Text,
    old: ConnId,
    new: ConnId,
) -> Result<Vec<Part>, AllocError>
    ensures posts { IfOk result
        (λ parts. parts_with [] parts.items ≡ notices desk.now (moved old new name.now)) }
    ensures visitable { IfOk result (λ parts. AllByRecursion IsVisitable parts.items) }
    ensures contents { IfOk result (λ parts. StandByOffers [] parts.items) }
{
    if old == new {
        return Ok(Vec::new(alloc));
    }
    let name = Text::of(alloc, name.bytes())?;
    owner_posts(desk, alloc, &OwnerChange { name, old, new })
}

/// What the registry answers a connection that asks for a name, where it may own it.
#[tactic(auto, unfolding(crate::specs::Owners::acquire_judged))]
fn judge_acquire(
    desk: &Desk,
    conn: &Conn,
    flags: NameFlags,
    name: &Text,
) -> Result<Verdict, Refusal>
    ensures { result ≡ acquire_judged desk.now conn.now flags name.now }
{
    if !is_name(name.bytes()) {
        return Err(Refusal::BadName);
    }
    if !desk.may_own(conn, name) {
        return Err(Refusal::NotPermitted);
    }
    desk.registry.ask(conn.id, name.bytes(), flags)
}

/// Who owns the name when the connection has released it.
fn judge_release(desk: &Desk, conn: &Conn, name: &Text) -> Result<ConnId, Refusal>
    ensures judged { result ≡ release_judged desk.now conn.now name.now }
    ensures answer { IfOk result (IsOwnerThen desk.now conn.now name.now) }
{
    match desk.registry.may_release(conn.id, name.bytes()) {
        Ok(owner) => Ok(owner),
        Err(refusal) => Err(hidden(refusal, desk.may_see_name(conn, name))),
    }
}

/// The seat and the size of the pool of an activator, which is connected.
fn activator_pool(desk: &Desk, id: ConnId) -> (Seat, u32)
    ensures seat { result.0 ≡ seat_of_id desk.now id }
    ensures low { result.0 < 64 }
    ensures words { result.1 % 8 ≡ 0 }
{
    match desk.conn_of(id) {
        Some(conn) => (conn.seat, conn.size),
        None => (Seat(0), 0),
    }
}

/// Puts the handover before the posts: what waits for an activator whose place is taken is
/// drained from its pool, and settles in that of the new owner.
fn handed_over(
    desk: &Desk,
    alloc: Global,
    conn: &Conn,
    verdict: &Verdict,
    mut posts: Vec<Part>,
) -> Result<Vec<Part>, AllocError>
    requires seat { conn.now.seat < 64 }
    requires visitable { AllByRecursion IsVisitable posts.items }
    requires contents { StandByOffers [] posts.items }
    ensures parts { IfOk result (λ parts. parts_with [] parts.items
        ≡ handover desk.now conn.now (activator_in verdict.now) ++ parts_with [] posts.items) }
    ensures visitable { IfOk result (λ parts. AllByRecursion IsVisitable parts.items) }
    ensures contents { IfOk result (λ parts. StandByOffers [] parts.items) }
{
    let Some(id) = activator_in(verdict) else {
        return Ok(posts);
    };
    let (seat, size) = activator_pool(desk, id);
    let mut parts = Vec::with_capacity(alloc, posts.len())?;
    parts.push(Part::Drain { seat, size })?;
    parts.push(Part::Settle { seat: conn.seat })?;
    parts.append(&mut posts)?;
    Ok(parts)
}

/// What it comes to that the connection asks for the name: it owns it or waits in the queue,
/// and if it is the new owner, all are told that may see it. Where it takes the place of an
/// activator, what waits there is handed over to it.
pub(crate) fn plan_acquire(
    desk: &Desk,
    alloc: Global,
    conn: &Conn,
    flags: NameFlags,
    name: Text,
) -> Result<Plan, Refusal>
    requires live { conn_of desk.now conn.now.id ≡ Some conn.now }
    ensures { PlanResult desk.now (name_acquire desk.now conn.now flags name) result }
{
    let verdict = judge_acquire(desk, conn, flags, &name)?;
    if !desk.registry.has_room() {
        return Err(Refusal::OutOfMemory);
    }
    let old = desk.owner_id(&name);
    let new = owner_by(&verdict, conn, old);
    let posts = moved_posts(desk, alloc, &name, old, new)?;
    let parts = handed_over(desk, alloc, conn, &verdict, posts)?;
    Ok(Plan {
        parts,
        contents: Vec::new(alloc),
        reply: Reply::NameAcquire {
            queued: is_queued(verdict),
        },
        change: Change::Acquires {
            id: conn.id,
            flags,
            name,
            verdict,
        },
        after: WhoKind::Conn {
            id: conn.id,
            seat: conn.seat,
        },
    })
}

/// What it comes to that the connection gives up its claim on the name: if it was the owner,
/// all are told of the next one that may see the name.
pub(crate) fn plan_release(
    desk: &Desk,
    alloc: Global,
    conn: &Conn,
    name: Text,
) -> Result<Plan, Refusal>
    ensures { PlanResult desk.now (name_release desk.now conn.now name) result }
{
    let new = judge_release(desk, conn, &name)?;
    let old = desk.owner_id(&name);
    let parts = moved_posts(desk, alloc, &name, old, new)?;
    Ok(Plan {
        parts,
        contents: Vec::new(alloc),
        reply: Reply::NameRelease,
        change: Change::Releases { id: conn.id, name },
        after: WhoKind::Conn {
            id: conn.id,
            seat: conn.seat,
        },
    })
}

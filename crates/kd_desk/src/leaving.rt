//! Leaving: what it comes to when a connection goes.

ghost use Rattle.std.specs.Prelude.{◌≡◌, ◌++◌, [], ◌∷◌, map, OnOk, Ok, Some};
ghost use Rattle.kd_model.specs.Words.{those};
ghost use Rattle.kd_registry.specs.Changes.{changes_without};
ghost use Rattle.kd_replies.specs.declared.request.Request.{Request};
ghost use Rattle.kd_replies.specs.Requests.{is_dead_without};
ghost use Rattle.kd_commands.specs.Audience.{new_owner, reply_dead};
ghost use Rattle.kd_tables.specs.Drafts.{PlanResult, parts_with};
ghost use Rattle.kd_commands.specs.Leaving.{byebye, close_conn, leave_one, leaving_notices, without_conns};
ghost use Rattle.kd_commands.specs.Plans.{notices};
ghost use Rattle.kd_commands.specs.State.{conn_of};
ghost use Rattle.kd_messages.specs.News.{without_leavers};

use kd_commands::{Conn, WhoKind};
use kd_messages::{News, tell};
use kd_tables::{Change, Desk, Part, Plan};
use kd_types::{ConnId, Kind, OwnerChange, Refusal};
use kd_wire::Reply;
use std::alloc::{AllocError, Global};

/// The connection says that it goes; it stays where messages wait for it.
#[tactic(auto, unfolding(kd_commands::specs::Leaving::byebye))]
pub(crate) fn plan_byebye(desk: &Desk, alloc: Global, conn: &Conn) -> Result<Plan, Refusal>
    requires live { conn_of desk.now conn.now.id ≡ Some conn.now }
    ensures { PlanResult desk.now (Ok (byebye desk.now conn.now)) result }
{
    plan_leave(desk, alloc, conn, false, Reply::Byebye)
}

/// The connection goes, whatever waits.
#[tactic(auto, unfolding(kd_commands::specs::Leaving::close_conn))]
pub(crate) fn plan_close(desk: &Desk, alloc: Global, conn: &Conn) -> Result<Plan, Refusal>
    requires live { conn_of desk.now conn.now.id ≡ Some conn.now }
    ensures { PlanResult desk.now (Ok (close_conn desk.now conn.now)) result }
{
    plan_leave(desk, alloc, conn, true, Reply::Close)
}

fn plan_leave(
    desk: &Desk,
    alloc: Global,
    conn: &Conn,
    force: bool,
    reply: Reply,
) -> Result<Plan, Refusal>
    requires live { conn_of desk.now conn.now.id ≡ Some conn.now }
    ensures { PlanResult desk.now (Ok (leave_one desk.now reply force conn.now)) result }
{
    let mut parts = Vec::with_capacity(alloc, desk.conns.len())?;
    parts.push(Part::Close {
        seat: conn.seat,
        force,
    })?;
    tell_leave(desk, alloc, &mut parts, conn)?;
    Ok(Plan {
        parts,
        contents: Vec::new(alloc),
        reply,
        change: Change::Leaves(conn.id),
        after: WhoKind::Fresh,
    })
}

/// The posts of what the others are told, by the desk without the connection. What a notice may
/// borrow is named, though the last one borrows none of it: the borrow checker asks for it.
fn tell_leave(
    desk: &Desk,
    alloc: Global,
    parts: &mut Vec<Part>,
    conn: &Conn,
) -> Result<(), AllocError>
    ensures { OnOk result (parts_with [] parts.new.items ≡ parts_with [] parts.old.items
        ++ notices (without_conns desk.now (conn.now.id ∷ [])) (leaving_notices desk.now (conn.now ∷ []))) }
{
    let _change: Option<&OwnerChange> = None;
    let leavers = [conn.id];
    tell_owners(desk, alloc, parts, &leavers)?;
    tell_dead(desk, alloc, parts, &leavers)?;
    match conn.kind {
        Kind::Monitor => Ok(()),
        Kind::Ordinary | Kind::Activator | Kind::Holder => {
            tell(desk, alloc, parts, &News::Left(conn.id), &leavers)
        }
    }
}

/// The posts of the names whose owner leaves, in byte order.
pub(crate) fn tell_owners(
    desk: &Desk,
    alloc: Global,
    parts: &mut Vec<Part>,
    leavers: &[ConnId],
) -> Result<(), AllocError>
    ensures { OnOk result (parts_with [] parts.new.items ≡ parts_with [] parts.old.items
        ++ notices (without_leavers leavers.now desk.now)
        (map new_owner (changes_without desk.now.registry leavers.now))) }
{
    let changes = desk.registry.changes_without(alloc, leavers)?;
    'changes: for change in changes {
        tell(desk, alloc, parts, &News::Owner(&change), leavers)?;
    }
    Ok(())
}

/// The posts to those that wait for a reply of one that leaves, by asker and cookie.
pub(crate) fn tell_dead(
    desk: &Desk,
    alloc: Global,
    parts: &mut Vec<Part>,
    leavers: &[ConnId],
) -> Result<(), AllocError>
    ensures { OnOk result (parts_with [] parts.new.items ≡ parts_with [] parts.old.items
        ++ notices (without_leavers leavers.now desk.now)
        (map (λ (q : Request). reply_dead q.asker q.cookie)
        (those (is_dead_without leavers.now) desk.now.requests))) }
{
    let _change: Option<&OwnerChange> = None;
    let dead = desk.replies.dead_without(alloc, leavers)?;
    'dead: for request in &dead {
        let news = News::Dead {
            asker: request.asker,
            cookie: request.cookie,
        };
        tell(desk, alloc, parts, &news, leavers)?;
    }
    Ok(())
}

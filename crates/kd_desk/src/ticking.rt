//! The moment: what it comes to when it goes on.

ghost use Rattle.std.specs.Prelude.{◌≡◌, ◌++◌, [], map, max, OnOk, Ok};
ghost use Rattle.kd_replies.specs.declared.request.Request.{Request};
ghost use Rattle.kd_replies.specs.Requests.{due};
ghost use Rattle.kd_commands.specs.Audience.{reply_timeout};
ghost use Rattle.kd_commands.specs.Plans.{notices};
ghost use Rattle.kd_commands.specs.Tick.{tick};
ghost use Rattle.kd_tables.specs.Drafts.{PlanResult, parts_with};

use crate::planning::itself;
use kd_commands::Conn;
use kd_messages::{News, tell};
use kd_tables::{Change, Desk, Part, Plan};
use kd_types::{Moment, OwnerChange, Refusal};
use kd_wire::Reply;
use std::alloc::{AllocError, Global};

/// The later of two moments.
fn later(one: Moment, other: Moment) -> Moment
    ensures { result ≡ max one other }
{
    if one < other { other } else { one }
}

/// The moment goes on, and never back. The requests that are due go, and those that asked are
/// told.
pub(crate) fn plan_tick(
    desk: &Desk,
    alloc: Global,
    conn: &Conn,
    moment: Moment,
) -> Result<Plan, Refusal>
    ensures { PlanResult desk.now (Ok (tick desk.now conn.now moment)) result }
{
    let now = later(desk.moment, moment);
    let mut parts = Vec::new(alloc);
    tell_due(desk, alloc, &mut parts, now)?;
    Ok(Plan {
        parts,
        contents: Vec::new(alloc),
        reply: Reply::Tick { moment: now },
        change: Change::Passes(now),
        after: itself(conn),
    })
}

/// The posts to those that wait in vain, by deadline, asker and cookie. What a notice may
/// borrow is named, though this one borrows none of it: the borrow checker asks for it.
fn tell_due(
    desk: &Desk,
    alloc: Global,
    parts: &mut Vec<Part>,
    now: Moment,
) -> Result<(), AllocError>
    ensures { OnOk result (parts_with [] parts.new.items ≡ parts_with [] parts.old.items
        ++ notices desk.now
        (map (λ (q : Request). reply_timeout q.asker q.cookie) (due now desk.now.requests))) }
{
    let _change: Option<&OwnerChange> = None;
    let due = desk.replies.due(alloc, now)?;
    'due: for request in &due {
        let news = News::Late {
            asker: request.asker,
            cookie: request.cookie,
        };
        tell(desk, alloc, parts, &news, &[])?;
    }
    Ok(())
}

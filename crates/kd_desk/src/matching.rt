//! Rules: what a connection asks to be shown.

ghost use Rattle.std.specs.Prelude.{◌≡◌};
ghost use Rattle.kd_match.specs.Rules.{result_of};
ghost use Rattle.kd_model.specs.Words.{first_that_holds};
ghost use Rattle.kd_commands.specs.Matches.{match_add, match_refusals, match_remove};
ghost use Rattle.kd_tables.specs.Drafts.{PlanResult};

use crate::planning::{itself, quiet};
use kd_bloom::Param;
use kd_commands::Conn;
use kd_said::{conditions_in, has_bad_mask, has_bad_name};
use kd_tables::{Change, Desk, Plan};
use kd_types::{Cookie, Refusal};
use kd_wire::{Reply, WireItem, WireItems};
use std::alloc::Global;

/// The most items of a rule: one with more is refused, so that a broadcast's test stays short.
const CONDITIONS: usize = 16;

/// The parameter of the bus's filters, which is that of its rules.
fn filters(desk: &Desk) -> Param
    ensures { result.size ≡ desk.now.rules.size }
{
    desk.param
}

/// Why a connection gets no rule of these items. The names are judged before the masks, and
/// all before a mask is cut.
#[tactic(auto, unfolding(kd_commands::specs::Matches::match_refusals, kd_match::specs::Rules::rule_refusal))]
fn judge_rule(
    desk: &Desk,
    conn: &Conn,
    replace: bool,
    cookie: Cookie,
    items: &[WireItem],
) -> Result<(), Refusal>
    ensures { result
        ≡ result_of (first_that_holds (match_refusals desk.now conn.now replace cookie items.now)) }
{
    if has_bad_name(items) {
        return Err(Refusal::BadName);
    }
    if has_bad_mask(items, filters(desk)) {
        return Err(Refusal::BloomSize);
    }
    if CONDITIONS < items.len() {
        return Err(Refusal::TooMany { limit: 16 });
    }
    desk.matches.may_add(conn.id, cookie, &[], replace)
}

/// The connection has a rule more, in place of those of its cookie where it replaces them.
pub(crate) fn plan_match_add(
    desk: &Desk,
    alloc: Global,
    conn: &Conn,
    replace: bool,
    cookie: Cookie,
    items: WireItems,
) -> Result<Plan, Refusal>
    ensures { PlanResult desk.now (match_add desk.now conn.now replace cookie items) result }
{
    judge_rule(desk, conn, replace, cookie, items.items())?;
    if desk.matches.is_full() {
        return Err(Refusal::OutOfMemory);
    }
    let conditions = conditions_in(alloc, items, filters(desk))?;
    let change = Change::AddsRule {
        id: conn.id,
        cookie,
        conditions,
        replace,
    };
    Ok(quiet(alloc, Reply::MatchAdd, change, itself(conn)))
}

/// Every rule of the connection with the cookie goes; `NoSuchMatch` where it has none.
pub(crate) fn plan_match_remove(
    desk: &Desk,
    alloc: Global,
    conn: &Conn,
    cookie: Cookie,
) -> Result<Plan, Refusal>
    ensures { PlanResult desk.now (match_remove desk.now conn.now cookie) result }
{
    desk.matches.may_remove(conn.id, cookie)?;
    let change = Change::RemovesRules {
        id: conn.id,
        cookie,
    };
    Ok(quiet(alloc, Reply::MatchRemove, change, itself(conn)))
}

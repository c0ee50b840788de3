//! A command's plan: who may give what.

ghost use Rattle.std.specs.Prelude.{◌≡◌, ◌<◌, ◌^◌, ◌||◌, Some, true, IsTrue};
ghost use Rattle.kd_wire.specs.WellFormed.{is_well_formed};
ghost use Rattle.kd_tables.specs.Drafts.{PlanResult, quiet_draft};
ghost use Rattle.kd_commands.specs.Plans.{itself};
ghost use Rattle.kd_commands.specs.State.{conn_of, is_activator, is_monitor};
ghost use Rattle.kd_commands.specs.Step.{from_conn, from_fresh, from_gone, from_keeper, from_old_keeper, plan};
ghost use Rattle.kd_commands.specs.declared.conn.Conn as conn;

use crate::closing::plan_close_endpoint;
use crate::endpoints::plan_endpoint_make;
use crate::granting::plan_policy_set;
use crate::hello::{Wanted, plan_hello};
use crate::leaving::{plan_byebye, plan_close};
use crate::listing::plan_name_list;
use crate::matching::{plan_match_add, plan_match_remove};
use crate::naming::{plan_acquire, plan_release};
use crate::sealing::{plan_seal, plan_unseal};
use crate::ticking::plan_tick;
use kd_commands::{Conn, Sent, Who, WhoKind};
use kd_messages::plan_send;
use kd_policy::Owner;
use kd_tables::{Change, Desk, Plan};
use kd_types::{Creds, Kind, Refusal, Seat};
use kd_wire::{Command, Reply};
use std::alloc::Global;

/// A plan that visits nobody.
pub(crate) fn quiet(alloc: Global, reply: Reply, change: Change, after: WhoKind) -> Plan
    ensures { result ≡ quiet_draft reply change after }
{
    Plan {
        parts: Vec::new(alloc),
        contents: Vec::new(alloc),
        reply,
        change,
        after,
    }
}

/// What a connection stays.
pub(crate) fn itself(conn: &Conn) -> WhoKind
    ensures { result ≡ itself conn.now }
{
    WhoKind::Conn {
        id: conn.id,
        seat: conn.seat,
    }
}

/// What a command comes to, for whoever gives it. A refusal is the first that holds: a caller
/// that may not give it at all is in the `WrongState`, and then the command's own come in their
/// order. Which bus a command names isn't the desk's, which doesn't know the name of its own.
/// Nothing changes; the plan takes all memory of the command, or the refusal is `OutOfMemory`.
#[tactic(auto, unfolding(kd_commands::specs::Step::plan))]
pub fn plan(desk: &Desk, alloc: Global, who: &Who, cmd: Command) -> Result<Plan, Refusal>
    requires form { IsTrue (is_well_formed cmd) }
    requires ids { desk.now.next_id < 2 ^ 63 }
    ensures { PlanResult desk.now (plan desk.now who.now cmd) result }
{
    match who.member {
        WhoKind::Fresh => from_fresh(desk, alloc, &who.creds, cmd),
        WhoKind::Conn { id, seat } => match desk.conn_of(id) {
            Some(conn) => from_conn(desk, alloc, conn, cmd),
            None => from_gone(desk, alloc, seat, cmd),
        },
        WhoKind::Keeper(endpoint) => from_keeper(desk, alloc, endpoint, cmd),
        WhoKind::Old(Some(seat)) => from_gone(desk, alloc, seat, cmd),
        WhoKind::Old(None) => from_old_keeper(desk, alloc, cmd),
    }
}

/// Whoever is nothing yet. What it says of itself in an ENTER isn't the desk's.
#[tactic(auto, using(kd_tables::proofs::Visits::nothing_offered), unfolding(kd_tables::specs::Drafts::drafted, kd_tables::specs::Drafts::applied, kd_tables::specs::Drafts::Fits))]
fn from_fresh(desk: &Desk, alloc: Global, creds: &Creds, cmd: Command) -> Result<Plan, Refusal>
    requires form { IsTrue (is_well_formed cmd) }
    requires ids { desk.now.next_id < 2 ^ 63 }
    ensures { PlanResult desk.now (from_fresh desk.now creds.now cmd) result }
{
    match cmd {
        Command::Hello {
            flags,
            pool,
            send_mask,
            receive_mask,
            items,
        } => plan_hello(
            desk,
            alloc,
            creds,
            Wanted {
                flags,
                size: pool,
                send_mask,
                receive_mask,
                items,
            },
        ),
        Command::EndpointMake { items } => plan_endpoint_make(desk, alloc, creds, items.items()),
        Command::Enter { .. } => Ok(quiet(alloc, Reply::Enter, Change::Nothing, WhoKind::Fresh)),
        Command::Close => Ok(quiet(alloc, Reply::Close, Change::Nothing, WhoKind::Fresh)),
        _ => Err(Refusal::WrongState),
    }
}

/// A live connection.
fn from_conn(desk: &Desk, alloc: Global, conn: &Conn, cmd: Command) -> Result<Plan, Refusal>
    requires form { IsTrue (is_well_formed cmd) }
    requires live { conn_of desk.now conn.now.id ≡ Some conn.now }
    ensures { PlanResult desk.now (from_conn desk.now conn.now cmd) result }
{
    match conn.kind {
        Kind::Ordinary => from_ordinary(desk, alloc, conn, cmd),
        Kind::Holder => from_holder(desk, alloc, conn, cmd),
        Kind::Activator | Kind::Monitor => from_other(desk, alloc, conn, cmd),
    }
}

/// A live policy holder.
fn from_holder(desk: &Desk, alloc: Global, conn: &Conn, cmd: Command) -> Result<Plan, Refusal>
    requires form { IsTrue (is_well_formed cmd) }
    requires live { conn_of desk.now conn.now.id ≡ Some conn.now }
    requires holder { conn.now.kind ≡ Kind.Holder }
    ensures { PlanResult desk.now (from_conn desk.now conn.now cmd) result }
{
    match cmd {
        Command::Byebye => plan_byebye(desk, alloc, conn),
        Command::Close => plan_close(desk, alloc, conn),
        Command::NameList { flags } => plan_name_list(desk, alloc, conn, flags),
        Command::Tick { moment } => plan_tick(desk, alloc, conn, moment),
        Command::PolicySet { items } => {
            plan_policy_set(
                desk,
                alloc,
                &Owner::Conn(conn.id),
                itself(conn),
                items.items(),
            )
        }
        _ => Err(Refusal::WrongState),
    }
}

/// A live activator or monitor, which neither sends nor owns names by itself.
fn from_other(desk: &Desk, alloc: Global, conn: &Conn, cmd: Command) -> Result<Plan, Refusal>
    requires live { conn_of desk.now conn.now.id ≡ Some conn.now }
    requires other { (is_activator conn.now.kind || is_monitor conn.now.kind) ≡ true }
    ensures { PlanResult desk.now (from_conn desk.now conn.now cmd) result }
{
    match cmd {
        Command::Byebye => plan_byebye(desk, alloc, conn),
        Command::Close => plan_close(desk, alloc, conn),
        Command::NameList { flags } => plan_name_list(desk, alloc, conn, flags),
        Command::Tick { moment } => plan_tick(desk, alloc, conn, moment),
        _ => Err(Refusal::WrongState),
    }
}

/// A live ordinary connection.
fn from_ordinary(desk: &Desk, alloc: Global, conn: &Conn, cmd: Command) -> Result<Plan, Refusal>
    requires live { conn_of desk.now conn.now.id ≡ Some conn.now }
    requires ordinary { conn.now.kind ≡ Kind.Ordinary }
    ensures { PlanResult desk.now (from_conn desk.now conn.now cmd) result }
{
    match cmd {
        Command::Byebye => plan_byebye(desk, alloc, conn),
        Command::Close => plan_close(desk, alloc, conn),
        Command::NameList { flags } => plan_name_list(desk, alloc, conn, flags),
        Command::Tick { moment } => plan_tick(desk, alloc, conn, moment),
        Command::Send {
            flags,
            priority,
            dst,
            payload_type,
            cookie,
            last,
            items,
            ..
        } => plan_send(
            desk,
            alloc,
            conn,
            Sent {
                flags,
                priority,
                dst,
                payload_type,
                cookie,
                last,
                items,
            },
        ),
        Command::NameAcquire { flags, name } => plan_acquire(desk, alloc, conn, flags, name),
        Command::NameRelease { name } => plan_release(desk, alloc, conn, name),
        Command::MatchAdd {
            replace,
            cookie,
            items,
        } => plan_match_add(desk, alloc, conn, replace, cookie, items),
        Command::MatchRemove { cookie } => plan_match_remove(desk, alloc, conn, cookie),
        Command::Seal { payload } => plan_seal(desk, alloc, conn, payload),
        Command::Unseal { number } => plan_unseal(desk, alloc, conn, number),
        _ => Err(Refusal::WrongState),
    }
}

/// The keeper of an endpoint.
fn from_keeper(desk: &Desk, alloc: Global, endpoint: u8, cmd: Command) -> Result<Plan, Refusal>
    requires form { IsTrue (is_well_formed cmd) }
    ensures { PlanResult desk.now (from_keeper desk.now endpoint cmd) result }
{
    match cmd {
        Command::PolicySet { items } => {
            let owner = Owner::Endpoint(endpoint);
            plan_policy_set(
                desk,
                alloc,
                &owner,
                WhoKind::Keeper(endpoint),
                items.items(),
            )
        }
        Command::Close => plan_close_endpoint(desk, alloc, endpoint),
        _ => Err(Refusal::WrongState),
    }
}

/// A connection that others closed.
#[tactic(auto, using(kd_tables::proofs::Visits::nothing_offered), unfolding(kd_tables::specs::Drafts::drafted, kd_tables::specs::Drafts::applied, kd_tables::specs::Drafts::Fits))]
fn from_gone(desk: &Desk, alloc: Global, seat: Seat, cmd: Command) -> Result<Plan, Refusal>
    ensures { PlanResult desk.now (from_gone desk.now seat cmd) result }
{
    let reply = match cmd {
        Command::Byebye => Reply::Byebye,
        Command::Close => Reply::Close,
        _ => return Err(Refusal::WrongState),
    };
    Ok(quiet(alloc, reply, Change::Unblocks(seat), WhoKind::Fresh))
}

/// A keeper of an endpoint of a bus that was removed since.
#[tactic(auto, using(kd_tables::proofs::Visits::nothing_offered), unfolding(kd_tables::specs::Drafts::drafted, kd_tables::specs::Drafts::applied, kd_tables::specs::Drafts::Fits))]
fn from_old_keeper(desk: &Desk, alloc: Global, cmd: Command) -> Result<Plan, Refusal>
    ensures { PlanResult desk.now (from_old_keeper desk.now cmd) result }
{
    match cmd {
        Command::Close => Ok(quiet(alloc, Reply::Close, Change::Nothing, WhoKind::Fresh)),
        _ => Err(Refusal::WrongState),
    }
}

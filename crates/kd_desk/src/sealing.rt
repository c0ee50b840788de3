//! Seals: bytes that never change, under numbers of their own.

ghost use Rattle.kd_tables.specs.Drafts.{PlanResult};
ghost use Rattle.kd_commands.specs.Seals.{seal, unseal};

use crate::planning::{itself, quiet};
use kd_commands::Conn;
use kd_seal::Sealed;
use kd_tables::{Change, Desk, Plan};
use kd_types::{Blob, Refusal};
use kd_wire::Reply;
use std::alloc::Global;

/// The last number that a seal is given, 2 to the 63 less 1: no connection lives to seal so often.
const LAST: u64 = 9_223_372_036_854_775_807;

/// The connection's bytes are sealed under its next number; `TooLong` where they are more than
/// a message has, `TooMany` where it has as many seals as one may have.
pub(crate) fn plan_seal(
    desk: &Desk,
    alloc: Global,
    conn: &Conn,
    payload: Blob,
) -> Result<Plan, Refusal>
    ensures { PlanResult desk.now (seal desk.now conn.now payload) result }
{
    let number = desk.seals.may_seal(conn.id, payload.bytes().len() as u64)?;
    // There is room for what all connections may have.
    if !desk.seals.has_room(conn.id) {
        return Err(Refusal::OutOfMemory);
    }
    if number > LAST {
        return Err(Refusal::OutOfMemory);
    }
    let sealed = Sealed::of(payload.into_vec())?;
    let change = Change::Seals {
        id: conn.id,
        sealed,
    };
    Ok(quiet(alloc, Reply::Seal { number }, change, itself(conn)))
}

/// The number of one of the connection's seals goes; `NoSuchSeal` where it has none of the
/// number.
pub(crate) fn plan_unseal(
    desk: &Desk,
    alloc: Global,
    conn: &Conn,
    number: u64,
) -> Result<Plan, Refusal>
    ensures { PlanResult desk.now (unseal desk.now conn.now number) result }
{
    desk.seals.may_unseal(conn.id, number)?;
    let change = Change::Unseals {
        id: conn.id,
        number,
    };
    Ok(quiet(alloc, Reply::Unseal, change, itself(conn)))
}

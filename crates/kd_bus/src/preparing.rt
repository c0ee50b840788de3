//! What a command needs before its first visit.
ghost use Rattle.std.specs.Prelude.{◌≡◌, ◌≢◌, ◌<◌, ◌^◌, ◌&&◌, Err, IfErr, IfOk, IsTrue, not};
ghost use Rattle.kd_tables.specs.Drafts.{PlanResult};
ghost use Rattle.kd_wire.specs.WellFormed.{is_well_formed};
ghost use Rattle.kd_holds.specs.Handing.{AreInOrder};
ghost use Rattle.kd_histories.specs.Slots.{finds_bus, planned, seeks_bus};
ghost use Rattle.kd_world.specs.Planner.{is_fresh};
ghost use Rattle.kd_bus.specs.Ready.{IsReady};

use kd_desk::{Desk, Out, Plan, Who, WhoKind};
use kd_holds::{Hand, Made, Pending};
use kd_types::Refusal;
use kd_wire::Command;
use std::alloc::Global;

/// No plan that fits in memory has more parts: each takes 16 bytes or more, and 2^46 bytes are 64
/// tebibytes. With so many turns more a pass stays below 2^43.
const PARTS: usize = 1 << 42;

/// What a command needs, taken before its first visit.
#[derive(Drop)]
pub(crate) struct Prepared {
    pub(crate) plan: Plan,
    pub(crate) made: Made,
    pub(crate) outs: Vec<Out>,
    pub(crate) generations: Vec<u64>,
    pub(crate) pendings: Vec<Pending>,
    /// That of a connection which the command may make.
    pub(crate) hand: Hand,
}

/// Whether the command gives its caller to a bus.
pub(crate) fn seeks_bus(cmd: &Command) -> bool
    ensures { result ≡ seeks_bus cmd.now }
{
    matches!(cmd, Command::Hello { .. } | Command::EndpointMake { .. })
}

/// Whether a slot of this generation has a bus, and the one that was aimed at.
fn finds_bus(generation: u64, aim: Option<u64>) -> bool
    ensures { result ≡ finds_bus generation aim }
{
    match aim {
        None => generation % 2 == 1,
        Some(aim) => generation % 2 == 1 && aim == generation,
    }
}

/// Whether the caller is nothing yet.
fn is_fresh(member: &WhoKind) -> bool
    ensures { result ≡ is_fresh member.now }
{
    matches!(member, WhoKind::Fresh)
}

/// Whether a caller that is nothing yet gives itself to a bus that isn't there.
fn is_astray(generation: u64, aim: Option<u64>, who: &Who, cmd: &Command) -> bool
    ensures { result
        ≡ (is_fresh who.now.member && (seeks_bus cmd.now && not (finds_bus generation aim))) }
{
    is_fresh(&who.member) && (seeks_bus(cmd) && !finds_bus(generation, aim))
}

/// What the desk of a slot answers to a command, whose pass is aimed at a bus or isn't.
fn plan(
    alloc: Global,
    generation: u64,
    desk: &Desk,
    aim: Option<u64>,
    who: &Who,
    cmd: Command,
) -> Result<Plan, Refusal>
    requires form { IsTrue (is_well_formed cmd) }
    requires ids { desk.now.next_id < 2 ^ 63 }
    ensures planned { PlanResult desk.now (planned generation aim desk.now who.now cmd) result }
    ensures order { IfOk result (λ p. AreInOrder p.parts) }
{
    if is_astray(generation, aim, who, &cmd) {
        return Err(Refusal::NoSuchBus { generation });
    }
    kd_desk::plan(desk, alloc, who, cmd)
}

/// All that a command needs, or why it is refused.
pub(crate) fn prepare(
    alloc: Global,
    generation: u64,
    desk: &Desk,
    aim: Option<u64>,
    who: &Who,
    cmd: Command,
) -> Result<Prepared, Refusal>
    requires form { IsTrue (is_well_formed cmd) }
    requires ids { desk.now.next_id < 2 ^ 63 }
    ensures ready { IfOk result (IsReady generation desk.now aim who.now cmd) }
    ensures refused { IfErr result (λ e.
        e ≢ Refusal.OutOfMemory → planned generation aim desk.now who.now cmd ≡ Err e) }
{
    let plan = match plan(alloc, generation, desk, aim, who, cmd) {
        Ok(plan) => plan,
        Err(why) => return Err(why),
    };
    let count = plan.parts().len();
    if count > PARTS {
        return Err(Refusal::OutOfMemory);
    }
    let made = Made::of(alloc, &plan)?;
    let outs = Vec::with_capacity(alloc, count)?;
    let generations = Vec::with_capacity(alloc, count)?;
    let pendings = Vec::with_capacity(alloc, count)?;
    let hand = Hand::make(alloc)?;
    Ok(Prepared {
        plan,
        made,
        outs,
        generations,
        pendings,
        hand,
    })
}

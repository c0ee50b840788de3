//! A command is carried out, or turned away, and its pass leaves the desk.
ghost use Rattle.std.specs.Prelude.{◌≡◌, ◌≢◌, ◌≤◌, ◌^◌, Err, None, [], false};
ghost use Rattle.kd_wire.specs.declared.reply.Reply as reply;
ghost use Rattle.kd_hands.specs.Fits.{Stood};
ghost use Rattle.kd_hands.specs.Views.{part};
ghost use Rattle.kd_histories.specs.Puts.{BusFact, IsOwn};
ghost use Rattle.kd_histories.specs.Slots.{planned, seeks_bus, slot_of};
ghost use Rattle.kd_bus.specs.Leaving.{IsOutcome, Leaves, LeavesDesk, becomes};
ghost use Rattle.kd_bus.specs.Ready.{IsReady};
ghost use Rattle.kd_bus.specs.Sight.{IsIdle};
ghost use Rattle.kd_bus.specs.Visited.{HasDesk};
ghost use Rattle.kd_histories.specs.Turns.{idle};

use crate::locked::{Locked, Slot};
use crate::pendings::keep_all;
use crate::preparing::Prepared;
use crate::slip::{Given, Slip};
use crate::visiting::visit_all;
use kd_desk::{Plan, WhoKind};
use kd_holds::{Hand, Pending};
use kd_turn::gate::Gate;
use kd_turn::pass::Pass;
use kd_types::Refusal;
use kd_wire::Reply;
use std::alloc::Global;
use std::snapshot::Snapshot;
use std::sync::Wait;

/// What a command came to.
#[derive(Drop)]
pub(crate) struct Outcome {
    /// Its refusal, by the desk or by the pool of its first visit.
    pub(crate) why: Option<Refusal>,
    pub(crate) reply: Reply,
    /// What its caller is now.
    pub(crate) becomes: WhoKind,
    pub(crate) pendings: Vec<Pending>,
    /// For the connection that it may have made; None where it was refused by the desk.
    pub(crate) hand: Option<Hand>,
}

/// What a caller is when its plan is done; after a refusal that ended all, what it was.
fn becomes(plan: &Plan, was: &WhoKind, why: &Option<Refusal>) -> WhoKind
    ensures { result ≡ becomes plan.now was.now why.now }
{
    match why {
        Some(_) => *was,
        None => plan.after(),
    }
}

/// The reply to a command that was refused.
fn refused(why: &Refusal) -> Reply
    ensures { result ≡ reply.Reply.Refused why.now }
{
    Reply::Refused(*why)
}

/// Visits what a command asks for, and leaves the desk with what it came to.
pub(crate) fn carry_out<R: Wait>(
    rt: &R,
    gate: &Gate<Locked>,
    pass: &mut Pass<Locked>,
    slot: Slot,
    given: Given,
    was: &WhoKind,
    prepared: Prepared,
) -> Outcome
    requires desk { HasDesk gate.now pass.old }
    requires shut { pass.old.view.opened ≡ [] }
    requires stood { Stood BusFact pass.old.view }
    requires value { slot_of (part pass.old.view 0).seen ≡ slot }
    requires was { was.now ≡ given.who.value.member }
    requires own { IsOwn (part pass.old.view 0).own slot.generation was.now }
    requires aim { seeks_bus given.command.value ≡ false → given.aim.value ≡ None }
    requires ready { IsReady slot.generation slot.desk given.aim.value given.who.value
        given.command.value prepared }
    requires turns { pass.old.view.turns ≤ 2 ^ 42 }
    ensures idle { IsIdle gate.now pass.new }
    ensures leaves { Leaves slot given.aim.value given.who.value given.command.value result.reply
        result.becomes result.pendings.items pass.old.view pass.new.view }
    ensures outcome { IsOutcome given.who.value result }
{
    let Slot {
        generation,
        mut desk,
    } = slot;
    let Prepared {
        mut plan,
        mut made,
        mut outs,
        mut generations,
        mut pendings,
        hand,
    } = prepared;
    visit_all(
        rt,
        gate,
        pass,
        &plan,
        &mut made,
        &mut outs,
        &mut generations,
    );
    let why = plan.refusal(&outs);
    let becomes = becomes(&plan, was, &why);
    let whole = Snapshot::of(&plan);
    keep_all(&mut pendings, &mut plan, &outs, &generations);
    let reply = desk.finish(plan, &outs);
    let slip = Slip::left(generation, given, whole, &made, &outs, &reply, &becomes);
    pass.put(gate, 0, Locked::Desk(Slot { generation, desk }), slip);
    Outcome {
        why,
        reply,
        becomes,
        pendings,
        hand: Some(hand),
    }
}

/// Leaves the desk with the refusal of a command.
pub(crate) fn turn_away(
    alloc: Global,
    gate: &Gate<Locked>,
    pass: &mut Pass<Locked>,
    slot: Slot,
    given: Given,
    was: &WhoKind,
    why: Refusal,
) -> Outcome
    requires desk { HasDesk gate.now pass.old }
    requires shut { pass.old.view.opened ≡ [] }
    requires value { slot_of (part pass.old.view 0).seen ≡ slot }
    requires was { was.now ≡ given.who.value.member }
    requires own { IsOwn (part pass.old.view 0).own slot.generation was.now }
    requires aim { seeks_bus given.command.value ≡ false → given.aim.value ≡ None }
    requires memory { why ≢ Refusal.OutOfMemory }
    requires refused { planned slot.generation given.aim.value slot.desk given.who.value
        given.command.value ≡ Err why }
    ensures idle { IsIdle gate.now pass.new }
    ensures leaves { Leaves slot given.aim.value given.who.value given.command.value result.reply
        result.becomes result.pendings.items pass.old.view pass.new.view }
    ensures outcome { IsOutcome given.who.value result }
{
    let slip = Slip::refused(slot.generation, given, &why, was);
    pass.put(gate, 0, Locked::Desk(slot), slip);
    let reply = refused(&why);
    Outcome {
        why: Some(why),
        reply,
        becomes: *was,
        pendings: Vec::new(alloc),
        hand: None,
    }
}

/// Leaves the desk with nothing, where memory was wanted.
pub(crate) fn give_up(gate: &Gate<Locked>, pass: &mut Pass<Locked>, slot: Slot)
    requires desk { HasDesk gate.now pass.old }
    requires shut { pass.old.view.opened ≡ [] }
    requires value { slot_of (part pass.old.view 0).seen ≡ slot }
    ensures idle { IsIdle gate.now pass.new }
    ensures leaves { LeavesDesk idle pass.old.view pass.new.view }
{
    pass.put(gate, 0, Locked::Desk(slot), Slip::idle());
}

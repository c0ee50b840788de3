//! A pass gives a command.
ghost use Rattle.std.specs.Prelude.{◌≡◌, ◌≢◌, ◌<◌, ◌^◌, Err, IfErr, IfOk, IsTrue, OnErr, [], false, true};
ghost use Rattle.kd_wire.specs.WellFormed.{is_well_formed};
ghost use Rattle.kd_wire.specs.declared.command.Command as wire;
ghost use Rattle.kd_wire.specs.declared.reply.Reply as reply;
ghost use Rattle.kd_bus.specs.declared.member.Maker as code;
ghost use Rattle.kd_bus.specs.declared.member.Member as members;
ghost use Rattle.kd_bus.specs.Commands.{Commands, Runs, WantsMemory, is_close, is_spent};
ghost use Rattle.kd_bus.specs.Leaving.{IsOutcome, aim_left, aim_of};
ghost use Rattle.kd_bus.specs.Members.{MemberBelongs, kind_made, member_after, who_of};
ghost use Rattle.kd_bus.specs.Sight.{IsIdle};

use crate::bus::{Bus, BusPass};
use crate::leaving::{Outcome, carry_out, give_up, turn_away};
use crate::locked::Locked;
use crate::member::Member;
use crate::preparing::{prepare, seeks_bus};
use crate::receiving::TURNS;
use crate::slip::Given;
use kd_holds::Pending;
use kd_turn::gate::Gate;
use kd_turn::pass::Pass;
use kd_types::{Kind, Refusal};
use kd_wire::{Command, Reply};
use std::alloc::{AllocError, Global};
use std::snapshot::Snapshot;
use std::sync::Wait;

/// Where a command is aimed: only who seeks a bus is aimed at one.
fn aim_of(cmd: &Command, aim: Option<u64>) -> Option<u64>
    ensures { result ≡ aim_of cmd.now aim }
{
    if seeks_bus(cmd) { aim } else { None }
}

/// Where a pass is aimed behind a command.
fn aim_left(cmd: &Command, aim: Option<u64>) -> Option<u64>
    ensures { result ≡ aim_left cmd.now aim }
{
    if seeks_bus(cmd) { None } else { aim }
}

/// The kind of the connection that a command makes.
fn kind_made(cmd: &Command) -> Kind
    ensures { result ≡ kind_made cmd.now }
{
    let Command::Hello { flags, .. } = cmd else {
        return Kind::Ordinary;
    };
    if flags.activator() {
        Kind::Activator
    } else if flags.holder() {
        Kind::Holder
    } else if flags.monitor() {
        Kind::Monitor
    } else {
        Kind::Ordinary
    }
}

/// Whether the command closes what its caller is.
fn is_close(cmd: &Command) -> bool
    ensures { result ≡ is_close cmd.now }
{
    matches!(cmd, Command::Close)
}

/// Whether a pass of so many turns takes none more for the command.
fn is_spent(turns: u64, cmd: &Command) -> bool
    ensures { result ≡ is_spent turns cmd.now }
{
    turns >= TURNS && !is_close(cmd)
}

/// Takes the desk for a command, and leaves it with what it came to, by the slot's bus of which
/// generation; where memory was wanted, with nothing.
fn run<R: Wait>(
    rt: &R,
    alloc: Global,
    gate: &Gate<Locked>,
    pass: &mut Pass<Locked>,
    aim: Option<u64>,
    member: &Member,
    cmd: Command,
) -> Result<(u64, Outcome), AllocError>
    requires idle { IsIdle gate.now pass.old }
    requires own { MemberBelongs pass.old.view member.now }
    requires form { IsTrue (is_well_formed cmd) }
    requires turns { pass.old.view.turns < 2 ^ 42 }
    ensures idle { IsIdle gate.now pass.new }
    ensures runs { IfOk result (λ r.
        Runs cmd aim member.now r.0 r.1.reply r.1.becomes r.1.pendings.items pass.old.view
        pass.new.view) }
    ensures outcome { IfOk result (λ r. IsOutcome (who_of r.0 member.now) r.1) }
    ensures own { IfOk result (λ r.
        MemberBelongs pass.new.view
        (member_after r.0 (kind_made cmd) r.1.becomes member.now)) }
    ensures wanting { OnErr result (WantsMemory pass.old.view pass.new.view) }
    ensures own_still { OnErr result (MemberBelongs pass.new.view member.now) }
{
    let Locked::Desk(slot) = pass.take(rt, gate, 0) else {
        unreachable!()
    };
    let generation = slot.generation;
    let aim = aim_of(&cmd, aim);
    let who = member.who(generation);
    let given = Given {
        aim: Snapshot::of(&aim),
        who: Snapshot::of(&who),
        command: Snapshot::of(&cmd),
    };
    let prepared = match prepare(alloc, generation, &slot.desk, aim, &who, cmd) {
        Ok(prepared) => prepared,
        Err(why) => {
            if why == Refusal::OutOfMemory {
                give_up(gate, pass, slot);
                return Err(AllocError);
            }
            let outcome = turn_away(alloc, gate, pass, slot, given, &who.member, why);
            return Ok((generation, outcome));
        }
    };
    let outcome = carry_out(rt, gate, pass, slot, given, &who.member, prepared);
    Ok((generation, outcome))
}

impl Bus {
    /// Gives a command to the bus of the slot, for a member of this pass, whose call makes of it
    /// what the command does: one turn on the desk, and one on the pool of each part that the
    /// command asks for, while the desk is held. What it placed is answered as pending, for this
    /// pass to publish. A refusal is the desk's, where it stood when the pass took it, or that of
    /// the pool of the first visit; `TurnsSpent` after 2^40 turns of the pass, but for a CLOSE.
    /// All memory is taken before the first visit, and `OutOfMemory` leaves all as it was.
    pub fn command<R: Wait>(
        &self,
        rt: &R,
        alloc: Global,
        pass: &mut BusPass,
        member: &mut Member,
        cmd: Command,
    ) -> Result<(Reply, Vec<Pending>), Refusal>
        requires gate { pass.old.gate ≡ self.now.id }
        requires own { MemberBelongs pass.old.view member.old }
        requires form { IsTrue (is_well_formed cmd) }
        requires maker { (m : code.Maker) → member.old ≡ members.Member.Maker m
            → is_close cmd ≡ false }
        requires turns { pass.old.view.turns < 2 ^ 42 }
        ensures gate { pass.new.gate ≡ pass.old.gate }
        ensures own { MemberBelongs pass.new.view member.new }
        ensures spent { is_spent pass.old.view.turns cmd ≡ true
            → (result ≡ Err Refusal.TurnsSpent) × (pass.new ≡ pass.old)
            × (member.new ≡ member.old) }
        ensures done { IfOk result (λ r.
            Commands cmd member.old member.new r.0 r.1.items pass.old pass.new) }
        ensures refused { IfErr result (λ why.
            is_spent pass.old.view.turns cmd ≡ false → why ≢ Refusal.OutOfMemory
            → Commands cmd member.old member.new (reply.Reply.Refused why) [] pass.old pass.new) }
        ensures wanting { result ≡ Err Refusal.OutOfMemory
            → WantsMemory pass.old.view pass.new.view × (pass.new.aim ≡ pass.old.aim) }
        ensures same { OnErr result (member.new ≡ member.old) }
    {
        if is_spent(pass.turns(), &cmd) {
            return Err(Refusal::TurnsSpent);
        }
        let kind = kind_made(&cmd);
        let aim = aim_left(&cmd, pass.aim);
        let ran = run(rt, alloc, &self.gate, &mut pass.pass, pass.aim, member, cmd);
        let Ok((generation, outcome)) = ran else {
            return Err(Refusal::OutOfMemory);
        };
        pass.aim = aim;
        let Outcome {
            why,
            reply,
            becomes,
            pendings,
            hand,
        } = outcome;
        if let Some(why) = why {
            return Err(why);
        }
        let Some(hand) = hand else { unreachable!() };
        member.turn(generation, kind, &becomes, hand);
        Ok((reply, pendings))
    }
}

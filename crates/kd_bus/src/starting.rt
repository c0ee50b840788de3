//! A bus begins in a slot; the one that was there before goes.
ghost use Rattle.std.specs.Prelude.{◌≡◌, ◌≤◌, ◌<◌, ◌+◌, ◌^◌, ℕ, IfOk, OnErr, true, List, []};
ghost use Rattle.kd_acts.specs.State as state;
ghost use Rattle.kd_commands.specs.State.{opening_desk};
ghost use Rattle.kd_hands.specs.Fits.{Stood};
ghost use Rattle.kd_hands.specs.Views.{part};
ghost use Rattle.kd_histories.specs.Puts.{BusFact};
ghost use Rattle.kd_histories.specs.Turns as turns;
ghost use Rattle.kd_histories.specs.Slots.{next_odd, seats_behind, slot_of};
ghost use Rattle.kd_holds.specs.Handing.{IsMadeFor};
ghost use Rattle.kd_bus.specs.Commands.{WantsMemory};
ghost use Rattle.kd_bus.specs.Members.{MemberBelongs};
ghost use Rattle.kd_bus.specs.Sight.{IsIdle};
ghost use Rattle.kd_bus.specs.declared.member.Member as members;
ghost use Rattle.kd_bus.specs.Begins.{Begins, Starts, is_taken, shut_below};
ghost use Rattle.kd_bus.specs.Visited.{AreVisits, HasDesk, HasVisit};

use crate::bus::{Bus, BusPass};
use crate::leaving::give_up;
use crate::locked::{Locked, Slot};
use crate::slip::Slip;
use crate::visiting::visit;
use kd_bloom::Param;
use kd_desk::{Desk, Part, Plan, Who, WhoKind};
use kd_holds::Made;
use kd_turn::gate::Gate;
use kd_turn::pass::Pass;
use kd_types::{Creds, Seat};
use kd_wire::Command;
use std::alloc::{AllocError, Global};
use std::sync::Wait;

/// Whether a live connection has the seat, or it waits for its caller.
fn is_taken(desk: &Desk, seat: Seat) -> bool
    requires { seat < 64 }
    ensures { result ≡ is_taken desk.now seat }
{
    desk.blocked(seat) || desk.occupied(seat)
}

/// The seats that are taken at a desk wait for their callers at the next one.
fn block_all(next: &mut Desk, desk: &Desk)
    requires { next.old.blocked ≡ [] }
    ensures { next.new ≡ record next.old { blocked = seats_behind desk.now } }
{
    'seats: for seat in 0..64u8 {
        if is_taken(desk, Seat(seat)) {
            next.block(Seat(seat));
        }
    }
}

/// Closes the pool of a seat, whatever waits in it, while the desk is held.
fn shut<R: Wait>(
    rt: &R,
    gate: &Gate<Locked>,
    pass: &mut Pass<Locked>,
    seat: Seat,
    plan: &Plan,
    made: &mut Made,
)
    requires desk { HasDesk gate.now pass.old }
    requires seat { seat < 64 }
    requires made { IsMadeFor made.old [] }
    requires turns { pass.old.view.turns < 2 ^ 43 }
    ensures desk { HasDesk gate.now pass.new }
    ensures shut { (o : state.Answer) × (generation : ℕ)
        × HasVisit seat (state.close true) o generation pass.old.view pass.new.view }
    ensures made { IsMadeFor made.new [] }
{
    let part = Part::Close { seat, force: true };
    let _ = visit(rt, gate, pass, &part, plan, 0, made);
}

/// Closes the pools of all connections of the desk, while it is held.
fn shut_all<R: Wait>(
    rt: &R,
    gate: &Gate<Locked>,
    pass: &mut Pass<Locked>,
    desk: &Desk,
    plan: &Plan,
    made: &mut Made,
)
    requires desk { HasDesk gate.now pass.old }
    requires made { IsMadeFor made.old [] }
    requires turns { pass.old.view.turns + 64 ≤ 2 ^ 43 }
    ensures desk { HasDesk gate.now pass.new }
    ensures shut { (entries : List turns.Did)
        × AreVisits (shut_below 64 desk.now) entries pass.old.view pass.new.view }
{
    'seats: for seat in 0..64u8 {
        if desk.occupied(Seat(seat)) {
            shut(rt, gate, pass, Seat(seat), plan, made);
        }
    }
}

/// A plan that asks for nothing, and the memory for it.
fn nothing_planned(alloc: Global, desk: &Desk) -> Result<(Plan, Made), AllocError>
    requires ids { desk.now.next_id < 2 ^ 63 }
    ensures { IfOk result (λ r. IsMadeFor r.1 []) }
{
    let nobody = Who {
        creds: Creds {
            uid: 0,
            gid: 0,
            privileged: false,
        },
        member: WhoKind::Fresh,
    };
    let Ok(plan) = kd_desk::plan(desk, alloc, &nobody, Command::Close) else {
        return Err(AllocError);
    };
    let made = Made::of(alloc, &plan)?;
    Ok((plan, made))
}

/// The generation of the next bus.
fn next_odd(generation: u64) -> u64
    requires { generation < 2 ^ 63 }
    ensures { result ≡ next_odd generation }
{
    generation + 1 + generation % 2
}

/// What a new bus needs, taken before the first visit.
#[derive(Drop)]
struct NewBus {
    creator: u32,
    param: Param,
    next: Desk,
    plan: Plan,
    made: Made,
}

/// Closes all pools of the desk that is held, and leaves it to a new bus.
fn begin<R: Wait>(
    rt: &R,
    gate: &Gate<Locked>,
    pass: &mut Pass<Locked>,
    slot: Slot,
    new: NewBus,
) -> u64
    requires desk { HasDesk gate.now pass.old }
    requires shut { pass.old.view.opened ≡ [] }
    requires stood { Stood BusFact pass.old.view }
    requires value { slot_of (part pass.old.view 0).seen ≡ slot }
    requires generation { slot.generation < 2 ^ 63 }
    requires next { new.next ≡ opening_desk new.creator new.param.size new.param.hashes }
    requires made { IsMadeFor new.made [] }
    requires turns { pass.old.view.turns + 64 ≤ 2 ^ 43 }
    ensures idle { IsIdle gate.now pass.new }
    ensures begins { Begins slot result new.creator new.param.size new.param.hashes
        pass.old.view pass.new.view }
{
    let Slot { generation, desk } = slot;
    let NewBus {
        creator,
        param,
        mut next,
        plan,
        mut made,
    } = new;
    shut_all(rt, gate, pass, &desk, &plan, &mut made);
    block_all(&mut next, &desk);
    let generation = next_odd(generation);
    let slip = Slip::started(generation, creator, &param);
    pass.put(
        gate,
        0,
        Locked::Desk(Slot {
            generation,
            desk: next,
        }),
        slip,
    );
    generation
}

/// What a new bus needs.
fn new_bus(alloc: Global, desk: &Desk, creator: u32, param: Param) -> Result<NewBus, AllocError>
    requires ids { desk.now.next_id < 2 ^ 63 }
    ensures next { IfOk result (λ b.
        (b.next ≡ opening_desk creator param.size param.hashes) × (b.creator ≡ creator)
        × (b.param ≡ param)) }
    ensures made { IfOk result (λ b. IsMadeFor b.made []) }
{
    let next = Desk::make(alloc, creator, param)?;
    let (plan, made) = nothing_planned(alloc, desk)?;
    Ok(NewBus {
        creator,
        param,
        next,
        plan,
        made,
    })
}

/// Takes the desk for a new bus, and leaves it to that; where memory was wanted, with nothing.
fn start<R: Wait>(
    rt: &R,
    alloc: Global,
    gate: &Gate<Locked>,
    pass: &mut Pass<Locked>,
    creator: u32,
    param: Param,
) -> Result<u64, AllocError>
    requires idle { IsIdle gate.now pass.old }
    requires turns { pass.old.view.turns < 2 ^ 42 }
    ensures idle { IsIdle gate.now pass.new }
    ensures starts { IfOk result (λ g.
        Starts g creator param.size param.hashes pass.old.view pass.new.view) }
    ensures wanting { OnErr result (WantsMemory pass.old.view pass.new.view) }
{
    let Locked::Desk(slot) = pass.take(rt, gate, 0) else {
        unreachable!()
    };
    let Ok(new) = new_bus(alloc, &slot.desk, creator, param) else {
        give_up(gate, pass, slot);
        return Err(AllocError);
    };
    Ok(begin(rt, gate, pass, slot, new))
}

impl Bus {
    /// Begins a bus in the slot, by the user who makes it and the parameter of its filters, and
    /// answers its generation, the next odd one. A bus that was there is gone: the pools of its
    /// connections are closed, and their seats wait for their callers.
    pub fn start<R: Wait>(
        &self,
        rt: &R,
        alloc: Global,
        pass: &mut BusPass,
        creator: u32,
        param: Param,
    ) -> Result<u64, AllocError>
        requires gate { pass.old.gate ≡ self.now.id }
        requires turns { pass.old.view.turns < 2 ^ 42 }
        ensures gate { pass.new.gate ≡ pass.old.gate }
        ensures aim { pass.new.aim ≡ pass.old.aim }
        ensures own { (m : members.Member) → MemberBelongs pass.old.view m
            → MemberBelongs pass.new.view m }
        ensures starts { IfOk result (λ g.
            Starts g creator param.size param.hashes pass.old.view pass.new.view) }
        ensures wanting { OnErr result (WantsMemory pass.old.view pass.new.view) }
    {
        start(rt, alloc, &self.gate, &mut pass.pass, creator, param)
    }
}

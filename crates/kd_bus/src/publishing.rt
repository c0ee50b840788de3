//! What a pass does at one pool to publish what it has still to publish.
ghost use Rattle.std.specs.Prelude.{◌≡◌, ◌<◌, ◌^◌, suc};
ghost use Rattle.kd_bus.specs.Sight.{IsIdle};
ghost use Rattle.kd_bus.specs.Turned.{Belongs, IsOwed, Publishes};
ghost use Rattle.kd_bus.specs.declared.conn.Conn as code;

use crate::bus::{Bus, BusPass, lock_of};
use crate::locked::Locked;
use crate::slip::Slip;
use kd_holds::{Pending, Published};
use kd_turn::gate::Gate;
use kd_turn::pass::Pass;
use std::snapshot::Snapshot;
use std::sync::Wait;

/// The lock of the pool where a message has its slice.
fn lock_for(pending: &Pending) -> u32
    ensures { result ≡ suc pending.now.seat }
{
    lock_of(pending.seat)
}

/// Publishes at the pool of its seat.
fn publish<R: Wait>(
    rt: &R,
    gate: &Gate<Locked>,
    pass: &mut Pass<Locked>,
    pending: Pending,
) -> Published
    requires idle { IsIdle gate.now pass.old }
    requires owed { IsOwed pass.old.view pending }
    requires turns { pass.old.view.turns < 2 ^ 43 }
    ensures idle { IsIdle gate.now pass.new }
    ensures publishes { Publishes pending result pass.old.view pass.new.view }
{
    let lock = lock_for(&pending);
    let Locked::Pool(mut hold) = pass.take(rt, gate, lock) else {
        unreachable!()
    };
    let generation = hold.generation();
    let given = Snapshot::of(&pending);
    let published = hold.publish(pending);
    let slip = Slip::published(generation, given, &published);
    pass.put(gate, lock, Locked::Pool(hold), slip);
    published
}

impl Bus {
    /// Writes a message into the slice that this pass's command reserved for it, and queues it:
    /// one turn on the pool of its seat. `Gone` where the pool was closed since. It takes no
    /// memory and is never refused.
    pub fn publish<R: Wait>(&self, rt: &R, pass: &mut BusPass, pending: Pending) -> Published
        requires gate { pass.old.gate ≡ self.now.id }
        requires owed { IsOwed pass.old.view pending }
        requires turns { pass.old.view.turns < 2 ^ 42 }
        ensures gate { pass.new.gate ≡ pass.old.gate }
        ensures aim { pass.new.aim ≡ pass.old.aim }
        ensures publishes { Publishes pending result pass.old.view pass.new.view }
        ensures own { (c : code.Conn) → Belongs pass.old.view c → Belongs pass.new.view c }
    {
        publish(rt, &self.gate, &mut pass.pass, pending)
    }
}

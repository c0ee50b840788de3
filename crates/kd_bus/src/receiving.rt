//! What a pass does at one pool to receive from it.
ghost use Rattle.std.specs.Prelude.{◌≡◌, ◌≢◌, ◌<◌, ◌^◌, ℕ, Err, IsTrue, None, Some, suc};
ghost use Rattle.kd_types.specs.declared.refusal.Refusal.{Refusal};
ghost use Rattle.kd_hands.specs.Views.{part};
ghost use Rattle.kd_histories.specs.Seats.{Sitter, sitter};
ghost use Rattle.kd_bus.specs.Sight.{IsIdle};
ghost use Rattle.kd_bus.specs.Turned.{Belongs, Receives, turned_away};
ghost use Rattle.kd_bus.specs.declared.conn.Conn as code;

use crate::bus::{Bus, BusPass, lock_of};
use crate::conn::Conn;
use crate::locked::Locked;
use crate::slip::Slip;
use kd_holds::Hand;
use kd_pool::{Got, RecvMode};
use kd_turn::gate::Gate;
use kd_turn::pass::Pass;
use kd_types::{Refusal, Seat};
use std::sync::Wait;

/// So many turns of a pass, and its next call is `TurnsSpent`. A thread that takes a million turns
/// a second takes them for twelve days; the words behind the locks could count eight times as many.
pub(crate) const TURNS: u64 = 1 << 40;

/// Receives from the pool of a seat that the pass has.
fn receive<R: Wait>(
    rt: &R,
    gate: &Gate<Locked>,
    pass: &mut Pass<Locked>,
    seat: Seat,
    hand: &mut Hand,
    mode: RecvMode,
) -> Result<Got, Refusal>
    requires idle { IsIdle gate.now pass.old }
    requires seat { seat < 64 }
    requires sits { (t : Sitter) × (sitter seat (part pass.old.view 0).own ≡ Some t) }
    requires turns { pass.old.view.turns < 2 ^ 43 }
    requires mode { ¬ (IsTrue mode.peek × IsTrue mode.drop_it) }
    ensures idle { IsIdle gate.now pass.new }
    ensures receives { Receives seat mode result hand.old hand.new pass.old.view pass.new.view }
{
    let lock = lock_of(seat);
    let Locked::Pool(mut hold) = pass.take(rt, gate, lock) else {
        unreachable!()
    };
    let generation = hold.generation();
    let got = hold.receive(hand, mode);
    let slip = Slip::received(generation, mode, &got);
    pass.put(gate, lock, Locked::Pool(hold), slip);
    got
}

impl Conn {
    /// Why a call on its pool is answered without a turn, after so many turns of its pass.
    pub(crate) fn turned_away(&self, turns: u64) -> Option<Refusal>
        ensures { result ≡ turned_away turns self.now.kind }
    {
        if turns >= TURNS {
            return Some(Refusal::TurnsSpent);
        }
        if self.has_pool() {
            None
        } else {
            Some(Refusal::WrongState)
        }
    }
}

impl Bus {
    /// Takes the next message of the connection's pool into its hand, or looks at it, or drops it:
    /// one turn on the pool of its seat. It takes no memory. `WrongState` for a policy holder,
    /// which has no pool, and where the connection is gone; `NoMessage` and `NoSuchPriority` as the
    /// pool says; `TurnsSpent` after 2^40 turns of the pass.
    pub fn receive<R: Wait>(
        &self,
        rt: &R,
        pass: &mut BusPass,
        conn: &mut Conn,
        mode: RecvMode,
    ) -> Result<Got, Refusal>
        requires gate { pass.old.gate ≡ self.now.id }
        requires own { Belongs pass.old.view conn.old }
        requires turns { pass.old.view.turns < 2 ^ 42 }
        requires mode { ¬ (IsTrue mode.peek × IsTrue mode.drop_it) }
        ensures gate { pass.new.gate ≡ pass.old.gate }
        ensures aim { pass.new.aim ≡ pass.old.aim }
        ensures own { Belongs pass.new.view conn.new }
        ensures own_others { (c : code.Conn) → c.seat ≢ conn.old.seat → Belongs pass.old.view c
            → Belongs pass.new.view c }
        ensures conn { conn.new ≡ record conn.old { hand = conn.new.hand } }
        ensures away { (why : Refusal)
            → turned_away pass.old.view.turns conn.old.kind ≡ Some why
            → (result ≡ Err why) × (pass.new ≡ pass.old) × (conn.new ≡ conn.old) }
        ensures receives { turned_away pass.old.view.turns conn.old.kind ≡ None
            → Receives conn.old.seat mode result conn.old.hand conn.new.hand pass.old.view
            pass.new.view }
    {
        if let Some(why) = conn.turned_away(pass.turns()) {
            return Err(why);
        }
        receive(
            rt,
            &self.gate,
            &mut pass.pass,
            conn.seat,
            &mut conn.hand,
            mode,
        )
    }
}

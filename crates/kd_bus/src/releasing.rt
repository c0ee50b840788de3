//! What a pass does to give a slice back.
ghost use Rattle.std.specs.Prelude.{◌≡◌, ◌≢◌, ◌<◌, None, OnErr, OnOk, Some, get_or, true, suc};
ghost use Rattle.kd_hands.specs.Lists.{hand_has};
ghost use Rattle.kd_hands.specs.Views.{hand as pass_hand};
ghost use Rattle.kd_turn.specs.Told.{Marked};
ghost use Rattle.kd_world.specs.Hands.{with_told};
ghost use Rattle.kd_world.specs.declared.told.Told as told;
ghost use Rattle.kd_bus.specs.Sight.{IsIdle};
ghost use Rattle.kd_bus.specs.Turned.{Belongs, hand_answer, release_answer};
ghost use Rattle.kd_bus.specs.declared.conn.Conn as code;

use crate::bus::{Bus, BusPass, lock_of};
use crate::conn::Conn;
use crate::locked::Locked;
use kd_holds::Hand;
use kd_turn::gate::Gate;
use kd_turn::pass::Pass;
use kd_types::{Refusal, Seat};
use kd_world::Told;

/// Marks a number that the hand keeps, which leaves it.
fn release(
    gate: &Gate<Locked>,
    pass: &mut Pass<Locked>,
    seat: Seat,
    hand: &mut Hand,
    number: u32,
) -> Result<(), Refusal>
    requires idle { IsIdle gate.now pass.old }
    requires seat { seat < 64 }
    requires kept { get_or hand.old number None ≡ Some told.Told.Handed
        → (number < 256) × (hand_has number (pass_hand pass.old.view (suc seat)) ≡ true) }
    ensures idle { IsIdle gate.now pass.new }
    ensures answer { result ≡ hand_answer (get_or hand.old number None) }
    ensures freed { OnOk result (hand.new ≡ with_told number None hand.old) }
    ensures marked { OnOk result (Marked (suc seat) number pass.old.view pass.new.view) }
    ensures refused { OnErr result ((pass.new ≡ pass.old) × (hand.new ≡ hand.old)) }
{
    match hand.told(number) {
        None => Err(Refusal::NoSuchSlice),
        Some(Told::Peeked) => Err(Refusal::NotReceived),
        Some(Told::Handed) => {
            pass.mark(gate, lock_of(seat), number);
            hand.put(number, None);
            Ok(())
        }
    }
}

impl Bus {
    /// Gives a received slice of the connection's pool back, by one step that waits for nobody: it
    /// is free when its pool is swept next. It takes no memory. `WrongState` for a policy holder,
    /// else by the hand alone: `NoSuchSlice` where the number isn't in it, `NotReceived` where it
    /// was only looked at.
    pub fn release(&self, pass: &mut BusPass, conn: &mut Conn, number: u32) -> Result<(), Refusal>
        requires gate { pass.old.gate ≡ self.now.id }
        requires own { Belongs pass.old.view conn.old }
        ensures gate { pass.new.gate ≡ pass.old.gate }
        ensures aim { pass.new.aim ≡ pass.old.aim }
        ensures own { Belongs pass.new.view conn.new }
        ensures own_others { (c : code.Conn) → c.seat ≢ conn.old.seat → Belongs pass.old.view c
            → Belongs pass.new.view c }
        ensures answer { result
            ≡ release_answer conn.old.kind (get_or conn.old.hand number None) }
        ensures freed { OnOk result
            (conn.new ≡ record conn.old { hand = with_told number None conn.old.hand }) }
        ensures marked { OnOk result
            (Marked (suc conn.old.seat) number pass.old.view pass.new.view) }
        ensures refused { OnErr result ((pass.new ≡ pass.old) × (conn.new ≡ conn.old)) }
    {
        if !conn.has_pool() {
            return Err(Refusal::WrongState);
        }
        release(
            &self.gate,
            &mut pass.pass,
            conn.seat,
            &mut conn.hand,
            number,
        )
    }
}

//! The calls of the bus.
ghost use Rattle.std.specs.Prelude.{◌≡◌, ◌≢◌, ℕ, ◌+◌, ◌^◌, ◌<◌, ◌≤◌, true, false, [], ◌∷◌, IsTrue, IsFalse, IfOk, Bool, None, is_some, length, slice_index};
ghost use Rattle.kd_hands.specs.Views.{part, hand};
ghost use Rattle.kd_hands.specs.Lists.{hand_has, has_mark};
ghost use Rattle.kd_toy_bus.specs.Bus.{Adds, IsBetweenCalls, is_seated, kept_from, pool_of, offered as pool_offered};
ghost use Rattle.kd_toy_bus.specs.Rests.{AreNew};

use crate::act::{Act, Slip};
use crate::locked::{Desk, Locked, Pool, SLICE};
use kd_turn::gate::Gate;
use kd_turn::pass::Pass;
use std::alloc::{AllocError, Global};
use std::sync::Wait;

/// Whether the marks have the slice: number 200 is bit 8 of word 3.
fn has_slice(marks: &[u64; 4]) -> bool
    ensures { result ≡ has_mark 200 (slice_index marks.now 3) }
{
    marks[3] / 256 % 2 == 1
}

/// The pool after an offer, where the sweep before it had the slice or not.
fn offered(pool: Pool, swept: bool) -> Pool
    ensures { result ≡ pool_offered swept pool }
{
    match pool {
        Pool::Closed => Pool::Closed,
        Pool::Free => Pool::Placed,
        Pool::Placed => Pool::Placed,
        Pool::Handed => { if swept { Pool::Placed } else { Pool::Handed } }
    }
}

/// Whether a slice was offered, and not yet received.
fn is_placed(pool: Pool) -> bool
    ensures placed { IsTrue result → pool ≡ Pool.Placed }
    ensures other { IsFalse result → pool ≢ Pool.Placed }
{
    match pool {
        Pool::Placed => true,
        Pool::Closed | Pool::Free | Pool::Handed => false,
    }
}

/// A bus where nobody has a seat, and its passes.
pub fn open(alloc: Global, passes: u32) -> Result<(Gate<Locked>, Vec<Pass<Locked>>), AllocError>
    requires passes { (0 < passes) × (passes ≤ 1024) }
    ensures locks { IfOk result (λ r. r.0.locks ≡ 4) }
    ensures passes { IfOk result (λ r. r.0.passes ≡ passes) }
    ensures new { IfOk result (λ r. AreNew r.0 r.1.items) }
{
    let mut values = Vec::with_capacity(alloc, 4)?;
    let desk = Desk { taken: [false; 3] };
    values.push_reserved(Locked::Desk(desk));
    values.push_reserved(Locked::Pool(Pool::Closed));
    values.push_reserved(Locked::Pool(Pool::Closed));
    values.push_reserved(Locked::Pool(Pool::Closed));
    let made = Gate::make(alloc, values, passes)?;
    Ok(made)
}

/// Takes the seat, if nobody has it.
pub fn join<R: Wait>(rt: &R, gate: &Gate<Locked>, pass: &mut Pass<Locked>, seat: u32) -> bool
    requires idle { IsBetweenCalls gate.now pass.old }
    requires seat { seat < 3 }
    requires turns { pass.old.view.turns + 2 ≤ 2 ^ 43 }
    ensures idle { IsBetweenCalls gate.now pass.new }
    ensures seated { IsTrue result → is_seated seat (part pass.new.view 0).own ≡ true }
    ensures turns { pass.new.view.turns ≤ pass.old.view.turns + 2 }
    ensures entered { length (part pass.new.view 0).own ≡ length (part pass.old.view 0).own + 1 }
    ensures opened { IsTrue result
        → length (part pass.new.view (seat + 1)).own
        ≡ length (part pass.old.view (seat + 1)).own + 1 }
    ensures name { pass.new.view.name ≡ pass.old.view.name }
    ensures joined { IsTrue result → Adds 0 (Act.Join seat) pass.old.view pass.new.view }
    ensures raised { IsTrue result → Adds (seat + 1) Act.Raise pass.old.view pass.new.view }
    ensures taken { is_some (kept_from seat None (part pass.new.view 0).seen) ≡ true }
{
    let Locked::Desk(mut desk) = pass.take(rt, gate, 0) else {
        unreachable!()
    };
    if desk.taken[seat as usize] {
        pass.put(gate, 0, Locked::Desk(desk), Slip::of(Act::Idle));
        return false;
    }
    let Locked::Pool(_) = pass.take(rt, gate, seat + 1) else {
        unreachable!()
    };
    pass.sweep(gate, seat + 1);
    pass.put(
        gate,
        seat + 1,
        Locked::Pool(Pool::Free),
        Slip::of(Act::Raise),
    );
    desk.taken[seat as usize] = true;
    pass.put(gate, 0, Locked::Desk(desk), Slip::of(Act::Join(seat)));
    true
}

/// Offers a slice to the seat's pool; false where nobody has the seat.
pub fn send<R: Wait>(rt: &R, gate: &Gate<Locked>, pass: &mut Pass<Locked>, seat: u32) -> bool
    requires idle { IsBetweenCalls gate.now pass.old }
    requires seat { seat < 3 }
    requires turns { pass.old.view.turns + 2 ≤ 2 ^ 43 }
    ensures idle { IsBetweenCalls gate.now pass.new }
    ensures seats { (c : ℕ) → is_seated c (part pass.new.view 0).own
        ≡ is_seated c (part pass.old.view 0).own }
    ensures turns { pass.new.view.turns ≤ pass.old.view.turns + 2 }
    ensures entered { length (part pass.new.view 0).own ≡ length (part pass.old.view 0).own + 1 }
    ensures name { pass.new.view.name ≡ pass.old.view.name }
    ensures told { result ≡ is_some (kept_from seat None (part pass.new.view 0).seen) }
    ensures sent { IsTrue result → Adds 0 (Act.Send seat) pass.old.view pass.new.view }
    ensures offered { IsTrue result
        → (swept : Bool) × Adds (seat + 1) (Act.Offer swept) pass.old.view pass.new.view }
{
    let Locked::Desk(desk) = pass.take(rt, gate, 0) else {
        unreachable!()
    };
    if !desk.taken[seat as usize] {
        pass.put(gate, 0, Locked::Desk(desk), Slip::of(Act::Idle));
        return false;
    }
    let Locked::Pool(pool) = pass.take(rt, gate, seat + 1) else {
        unreachable!()
    };
    let marks = pass.sweep(gate, seat + 1);
    let swept = has_slice(&marks);
    pass.put(
        gate,
        seat + 1,
        Locked::Pool(offered(pool, swept)),
        Slip::of(Act::Offer(swept)),
    );
    pass.put(gate, 0, Locked::Desk(desk), Slip::of(Act::Send(seat)));
    true
}

/// Takes the slice that was offered into the hand; false where there is none. The pass has the
/// seat.
pub fn receive<R: Wait>(rt: &R, gate: &Gate<Locked>, pass: &mut Pass<Locked>, seat: u32) -> bool
    requires idle { IsBetweenCalls gate.now pass.old }
    requires seat { seat < 3 }
    requires seated { is_seated seat (part pass.old.view 0).own ≡ true }
    requires turns { pass.old.view.turns < 2 ^ 43 }
    ensures idle { IsBetweenCalls gate.now pass.new }
    ensures received { IsTrue result → hand_has 200 (hand pass.new.view (seat + 1)) ≡ true }
    ensures none { IsFalse result → hand pass.new.view (seat + 1) ≡ hand pass.old.view (seat + 1) }
    ensures desk { part pass.new.view 0 ≡ part pass.old.view 0 }
    ensures turns { pass.new.view.turns ≡ pass.old.view.turns + 1 }
    ensures entered { length (part pass.new.view (seat + 1)).own
        ≡ length (part pass.old.view (seat + 1)).own + 1 }
    ensures name { pass.new.view.name ≡ pass.old.view.name }
    ensures took { IsTrue result → Adds (seat + 1) Act.Receive pass.old.view pass.new.view }
    ensures nothing { IsFalse result → pool_of (part pass.new.view (seat + 1)).seen ≢ Pool.Placed }
{
    let Locked::Pool(pool) = pass.take(rt, gate, seat + 1) else {
        unreachable!()
    };
    let placed = is_placed(pool);
    if !placed {
        pass.put(gate, seat + 1, Locked::Pool(pool), Slip::of(Act::Idle));
        return false;
    }
    pass.put(
        gate,
        seat + 1,
        Locked::Pool(Pool::Handed),
        Slip::of(Act::Receive),
    );
    true
}

/// Gives the slice back, in one step and without waiting.
pub fn release(gate: &Gate<Locked>, pass: &mut Pass<Locked>, seat: u32)
    requires idle { IsBetweenCalls gate.now pass.old }
    requires seat { seat < 3 }
    requires in_hand { hand_has 200 (hand pass.old.view (seat + 1)) ≡ true }
    ensures idle { IsBetweenCalls gate.now pass.new }
    ensures gone { hand_has 200 (hand pass.new.view (seat + 1)) ≡ false }
    ensures steps { pass.new.view.steps ≡ pass.old.view.steps + 1 }
    ensures turns { pass.new.view.turns ≡ pass.old.view.turns }
    ensures parts { pass.new.view.parts ≡ pass.old.view.parts }
    ensures name { pass.new.view.name ≡ pass.old.view.name }
{
    pass.mark(gate, seat + 1, SLICE);
}

/// Gives the seat back, which the pass has, and with it what is in its hand.
pub fn leave<R: Wait>(rt: &R, gate: &Gate<Locked>, pass: &mut Pass<Locked>, seat: u32)
    requires idle { IsBetweenCalls gate.now pass.old }
    requires seat { seat < 3 }
    requires seated { is_seated seat (part pass.old.view 0).own ≡ true }
    requires turns { pass.old.view.turns + 2 ≤ 2 ^ 43 }
    ensures idle { IsBetweenCalls gate.now pass.new }
    ensures left { is_seated seat (part pass.new.view 0).own ≡ false }
    ensures others { (c : ℕ) → c ≢ seat
        → is_seated c (part pass.new.view 0).own ≡ is_seated c (part pass.old.view 0).own }
    ensures emptied { hand pass.new.view (seat + 1) ≡ [] }
    ensures turns { pass.new.view.turns ≡ pass.old.view.turns + 2 }
    ensures name { pass.new.view.name ≡ pass.old.view.name }
    ensures entered { length (part pass.new.view 0).own ≡ length (part pass.old.view 0).own + 1 }
    ensures closed { length (part pass.new.view (seat + 1)).own
        ≡ length (part pass.old.view (seat + 1)).own + 1 }
    ensures gave { Adds 0 (Act.Leave seat) pass.old.view pass.new.view }
    ensures shut { Adds (seat + 1) Act.Close pass.old.view pass.new.view }
{
    let Locked::Desk(mut desk) = pass.take(rt, gate, 0) else {
        unreachable!()
    };
    let Locked::Pool(_) = pass.take(rt, gate, seat + 1) else {
        unreachable!()
    };
    pass.put(
        gate,
        seat + 1,
        Locked::Pool(Pool::Closed),
        Slip::of(Act::Close),
    );
    desk.taken[seat as usize] = false;
    pass.put(gate, 0, Locked::Desk(desk), Slip::of(Act::Leave(seat)));
}

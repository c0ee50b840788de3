//! What a pass does at one pool to read from it.
ghost use Rattle.std.specs.Prelude.{◌≡◌, ◌<◌, ◌^◌, Err, None, Some, false, get_or};
ghost use Rattle.kd_types.specs.declared.refusal.Refusal.{Refusal};
ghost use Rattle.kd_bus.specs.Sight.{IsIdle};
ghost use Rattle.kd_bus.specs.Slips.{is_wanting, read_told};
ghost use Rattle.kd_bus.specs.Turned.{Belongs, Reads, is_kept, read_answer, turned_away};
ghost use Rattle.kd_bus.specs.declared.conn.Conn as code;

use crate::bus::{Bus, BusPass, lock_of};
use crate::conn::Conn;
use crate::locked::Locked;
use crate::slip::Slip;
use kd_holds::{Hand, Hold};
use kd_turn::gate::Gate;
use kd_turn::pass::Pass;
use kd_types::{Refusal, Seat};
use kd_world::Told;
use std::alloc::Global;
use std::sync::Wait;

/// Whether the hand keeps a number: it was received, and not given back.
fn is_kept(hand: &Hand, number: u32) -> bool
    ensures { result ≡ is_kept (get_or hand.now number None) }
{
    matches!(hand.told(number), Some(Told::Handed))
}

/// What a pool has of a number that the hand was told of. A slice that was given back isn't found,
/// though its mark may not be swept yet.
fn look(
    alloc: Global,
    hold: &Hold,
    hand: &Hand,
    number: u32,
    sealed: bool,
) -> Result<Vec<u8>, Refusal>
    ensures { is_wanting result ≡ false
        → read_told result ≡ read_answer hold.now hand.now number sealed }
{
    if hold.is_handed(number) && !is_kept(hand, number) {
        return Err(Refusal::NoSuchSlice);
    }
    hold.read(alloc, number, sealed)
}

/// Reads from the pool of a seat.
fn read<R: Wait>(
    rt: &R,
    alloc: Global,
    gate: &Gate<Locked>,
    pass: &mut Pass<Locked>,
    seat: Seat,
    hand: &Hand,
    number: u32,
    sealed: bool,
) -> Result<Vec<u8>, Refusal>
    requires idle { IsIdle gate.now pass.old }
    requires seat { seat < 64 }
    requires turns { pass.old.view.turns < 2 ^ 43 }
    ensures idle { IsIdle gate.now pass.new }
    ensures reads { Reads seat number sealed result hand.now pass.old.view pass.new.view }
{
    let lock = lock_of(seat);
    let Locked::Pool(hold) = pass.take(rt, gate, lock) else {
        unreachable!()
    };
    let generation = hold.generation();
    let read = look(alloc, &hold, hand, number, sealed);
    let slip = Slip::read(generation, number, sealed, &read);
    pass.put(gate, lock, Locked::Pool(hold), slip);
    read
}

impl Bus {
    /// The bytes of a slice of the connection's pool that it has looked at or received, or the
    /// sealed bytes that this slice holds a share of: one turn on the pool of its seat.
    /// `WrongState` for a policy holder, which has no pool, and where the connection is gone;
    /// `NoSuchSlice` for any other number, also for one that was given back; `NoSuchSeal` where the
    /// slice holds no share; `TurnsSpent` after 2^40 turns of the pass. Where memory for the bytes
    /// is wanted its entry does nothing.
    pub fn read<R: Wait>(
        &self,
        rt: &R,
        alloc: Global,
        pass: &mut BusPass,
        conn: &Conn,
        number: u32,
        sealed: bool,
    ) -> Result<Vec<u8>, Refusal>
        requires gate { pass.old.gate ≡ self.now.id }
        requires own { Belongs pass.old.view conn.now }
        requires turns { pass.old.view.turns < 2 ^ 42 }
        ensures gate { pass.new.gate ≡ pass.old.gate }
        ensures aim { pass.new.aim ≡ pass.old.aim }
        ensures own_others { (c : code.Conn) → Belongs pass.old.view c → Belongs pass.new.view c }
        ensures away { (why : Refusal)
            → turned_away pass.old.view.turns conn.now.kind ≡ Some why
            → (result ≡ Err why) × (pass.new ≡ pass.old) }
        ensures reads { turned_away pass.old.view.turns conn.now.kind ≡ None
            → Reads conn.now.seat number sealed result conn.now.hand pass.old.view pass.new.view }
    {
        if let Some(why) = conn.turned_away(pass.turns()) {
            return Err(why);
        }
        read(
            rt,
            alloc,
            &self.gate,
            &mut pass.pass,
            conn.seat,
            &conn.hand,
            number,
            sealed,
        )
    }
}

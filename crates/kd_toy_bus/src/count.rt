//! A value that counts the turns on its lock. A turn may lend a number to the second pass.
ghost use Rattle.std.specs.Prelude.{◌≡◌, ◌⊎◌, ℕ, ◌+◌, ◌*◌, ◌^◌, ◌<◌, ◌≤◌, [], length, true, false, None, Some, IfOk};
ghost use Rattle.kd_hands.specs.Views.{hand, part};
ghost use Rattle.kd_hands.specs.Lists.{hand_has};
ghost use Rattle.kd_toy_bus.specs.Rests.{AreBack, AreNew, HaveTaken, Rests};
ghost use Rattle.kd_toy_bus.specs.Counts.{turns_of_round};

use crate::passes::{both, two_of, values_of};
use kd_turn::gate::Gate;
use kd_turn::pass::Pass;
use kd_turn::standing::Standing;
use std::alloc::{AllocError, Global};
use std::snapshot::Snapshot;
use std::sync::Wait;
use std::thread;
use std::thread::Threads;

/// How many turns were taken on the lock.
#[derive(Drop)]
pub struct Count {
    pub turns: u64,
}

impl Standing for Count {
    type Entry = Snapshot<Option<u32>>;

    ghost use Rattle.std.specs.Prelude.{◌≡◌, length, Some, None};
    ghost use Rattle.kd_toy_bus.specs.Counts.{counted_hand};

    ghost stands = { λ l list x. x.turns ≡ length list };

    ghost tie = { λ h. Unit {0} };

    ghost lends = { λ l list n. Unit {0} };

    ghost out = { λ l list n. ⊥ };

    ghost keeper = { λ l list. Some 1 };

    ghost hand_after = { λ l e hand. counted_hand e.value hand };

    ghost empties = { λ e. None };
}

/// A gate of counters that have counted nothing, and its passes.
pub fn make(
    alloc: Global,
    locks: u32,
    passes: u32,
) -> Result<(Gate<Count>, Vec<Pass<Count>>), AllocError>
    requires locks { 0 < locks }
    requires passes { (0 < passes) × (passes ≤ 1024) }
    ensures locks { IfOk result (λ r. r.0.locks ≡ locks) }
    ensures passes { IfOk result (λ r. r.0.passes ≡ passes) }
    ensures new { IfOk result (λ r. AreNew r.0 r.1.items) }
{
    let mut values = Vec::with_capacity(alloc, locks as usize)?;
    'filling: for lock in 0..locks {
        values.push_reserved(Count { turns: 0 });
    }
    let made = Gate::make(alloc, values, passes)?;
    Ok(made)
}

/// Takes a turn, which lends a number or none.
fn turn_lending<R: Wait>(
    rt: &R,
    gate: &Gate<Count>,
    pass: &mut Pass<Count>,
    lock: u32,
    lent: Option<u32>,
)
    requires rests { Rests gate.now pass.old }
    requires lock { lock < gate.now.locks }
    requires turns { pass.old.view.turns < 2 ^ 43 }
    requires lent { (lent ≡ None) ⊎ (pass.old.view.name ≡ 1) }
    ensures rests { Rests gate.now pass.new }
    ensures name { pass.new.view.name ≡ pass.old.view.name }
    ensures turns { pass.new.view.turns ≡ pass.old.view.turns + 1 }
    ensures entered { length (part pass.new.view lock).own
        ≡ length (part pass.old.view lock).own + 1 }
    ensures lent { (n : ℕ) → lent ≡ Some n → hand_has n (hand pass.new.view lock) ≡ true }
{
    let Count { turns } = pass.take(rt, gate, lock);
    let entry = Snapshot::of(&lent);
    let more = Count { turns: turns + 1 };
    pass.put(gate, lock, more, entry);
}

/// Takes a turn.
pub fn turn<R: Wait>(rt: &R, gate: &Gate<Count>, pass: &mut Pass<Count>, lock: u32)
    requires rests { Rests gate.now pass.old }
    requires lock { lock < gate.now.locks }
    requires turns { pass.old.view.turns < 2 ^ 43 }
    ensures rests { Rests gate.now pass.new }
    ensures name { pass.new.view.name ≡ pass.old.view.name }
    ensures turns { pass.new.view.turns ≡ pass.old.view.turns + 1 }
    ensures entered { length (part pass.new.view lock).own
        ≡ length (part pass.old.view lock).own + 1 }
{
    turn_lending(rt, gate, pass, lock, None);
}

/// Takes a turn that lends the number to this pass, which is the second one.
pub fn borrow<R: Wait>(rt: &R, gate: &Gate<Count>, pass: &mut Pass<Count>, lock: u32, number: u32)
    requires rests { Rests gate.now pass.old }
    requires lock { lock < gate.now.locks }
    requires turns { pass.old.view.turns < 2 ^ 43 }
    requires second { pass.old.view.name ≡ 1 }
    ensures rests { Rests gate.now pass.new }
    ensures name { pass.new.view.name ≡ pass.old.view.name }
    ensures turns { pass.new.view.turns ≡ pass.old.view.turns + 1 }
    ensures in_hand { hand_has number (hand pass.new.view lock) ≡ true }
{
    turn_lending(rt, gate, pass, lock, Some(number));
}

/// Takes turns: each time one on lock 0, and then one on `lock` if that is another.
pub fn rounds<R: Wait>(
    rt: &R,
    gate: &Gate<Count>,
    mut pass: Pass<Count>,
    lock: u32,
    count: u32,
) -> Pass<Count>
    requires rests { Rests gate.now pass }
    requires lock { lock < gate.now.locks }
    requires turns { pass.view.turns + 2 * count ≤ 2 ^ 43 }
    ensures rests { Rests gate.now result }
    ensures name { result.view.name ≡ pass.view.name }
    ensures turns { result.view.turns ≡ pass.view.turns + turns_of_round lock * count }
{
    'turning: for round in 0..count {
        turn(rt, gate, &mut pass, 0);
        if lock != 0 {
            turn(rt, gate, &mut pass, lock);
        }
    }
    pass
}

/// Each pass takes its turns in a thread of its own.
pub fn rounds_of_all<R: Threads + Wait + Sync>(
    rt: &R,
    gate: &Gate<Count>,
    passes: Vec<Pass<Count>>,
    lock: u32,
    count: u32,
) -> Result<Vec<Pass<Count>>, AllocError>
    requires new { AreNew gate.now passes.items }
    requires lock { lock < gate.now.locks }
    ensures back { IfOk result (λ all. AreBack gate.now all.items) }
    ensures turns { IfOk result (λ all. HaveTaken (turns_of_round lock * count) all.items) }
{
    let work = |pass: Pass<Count>| -> Pass<Count>
        requires rests { Rests gate.now pass × (lock < gate.now.locks) }
        requires turns { pass.view.turns ≡ 0 }
        ensures rests { Rests gate.entry.now result }
        ensures name { result.view.name ≡ pass.view.name }
        ensures turns { result.view.turns ≡ turns_of_round lock * count }
    { rounds(rt, gate, pass, lock, count) };
    let all = thread::map_vec(rt, passes, &work)?;
    Ok(all)
}

/// While the first pass holds the lock, a thread marks the number of the second one; what the first
/// then sweeps, twice.
fn swept_while_held<R: Threads + Wait + Sync>(
    rt: &R,
    gate: &Gate<Count>,
    holder: &mut Pass<Count>,
    marker: Pass<Count>,
    number: u32,
) -> ([u64; 4], [u64; 4], Pass<Count>)
    requires holder { Rests gate.now holder.old × (holder.old.view.turns < 2 ^ 43) }
    requires locks { 0 < gate.now.locks }
    requires marker { Rests gate.now marker }
    requires number { number < 256 }
    requires in_hand { hand_has number (hand marker.view 0) ≡ true }
    ensures holder { Rests gate.now holder.new × (holder.new.view.name ≡ holder.old.view.name) }
    ensures marker { Rests gate.now result.2 × (result.2.view.name ≡ marker.view.name) }
    ensures gone { hand_has number (hand result.2.view 0) ≡ false }
{
    let Count { turns } = holder.take(rt, gate, 0);
    let mark = || -> Pass<Count>
        requires rests { Rests gate.now marker × (0 < gate.now.locks) }
        requires number { (number < 256) × (hand_has number (hand marker.view 0) ≡ true) }
        ensures rests { Rests gate.entry.now result }
        ensures name { result.view.name ≡ marker.view.name }
        ensures gone { hand_has number (hand result.view 0) ≡ false }
    { given_back(gate, marker, number) };
    let (marker, ()) = thread::join(rt, mark, || ());
    let first = holder.sweep(gate, 0);
    let second = holder.sweep(gate, 0);
    let entry = Snapshot::of(&None);
    holder.put(gate, 0, Count { turns: turns + 1 }, entry);
    (first, second, marker)
}

/// A gate of one value and two passes: the second pass borrows the number and marks it while the
/// first holds the lock. What the first sweeps then, twice.
pub fn swept_twice<R: Threads + Wait + Sync>(
    rt: &R,
    alloc: Global,
    number: u32,
) -> Result<([u64; 4], [u64; 4]), AllocError>
    requires number { number < 256 }
{
    let (gate, passes) = make(alloc, 1, 2)?;
    let (mut holder, mut marker) = two_of(&gate, passes);
    borrow(rt, &gate, &mut marker, 0, number);
    let (first, second, marker) = swept_while_held(rt, &gate, &mut holder, marker, number);
    let passes = both(alloc, &gate, holder, marker)?;
    values_of(alloc, gate, passes)?;
    Ok((first, second))
}

/// Marks a number of the hand.
fn given_back(gate: &Gate<Count>, mut pass: Pass<Count>, number: u32) -> Pass<Count>
    requires rests { Rests gate.now pass }
    requires locks { 0 < gate.now.locks }
    requires number { number < 256 }
    requires in_hand { hand_has number (hand pass.view 0) ≡ true }
    ensures rests { Rests gate.now result }
    ensures name { result.view.name ≡ pass.view.name }
    ensures gone { hand_has number (hand result.view 0) ≡ false }
{
    pass.mark(gate, 0, number);
    pass
}

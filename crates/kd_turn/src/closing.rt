//! Closing: the passes are taken in, and the values come out.
ghost use Rattle.std.specs.Prelude.{◌≡◌, ℕ, ◌<◌, ◌≤◌, List, [], true, false, Some, length, map, All, Any, IfOk, IfErr, vec_capacity};
ghost use Rattle.std.specs.Slots.{IsFull, slots_items, slots_len};
ghost use mathlib.Core.Option.{some};
ghost use lib.ListN.{get_elem?};
ghost use Rattle.kd_turn.specs.Sight.{Sight};
ghost use Rattle.kd_turn.specs.Told.{Ended, Gathered, IsIdle};
ghost use Rattle.kd_hands.specs.Locks.{Fact};

use crate::gate::{Board, Gate, SeatOf};
use crate::pass::Pass;
use crate::plays::Absorb;
use crate::standing::Standing;
use crate::views::{Cell, View};
use atomic_table::Closed;
use std::alloc::Global;

/// The seat of the last pass, which takes in the others. They hold nothing.
fn gathered<T: Standing>(table: &Board<T>, mut passes: Vec<Pass<T>>) -> SeatOf<T>
    requires table { 0 < table.now.shared.table_id.words }
    requires passes { All (IsIdle table.now.shared.table_id) passes.items }
    requires some { 0 < length passes.items }
    ensures seat { result.table_id ≡ table.now.shared.table_id }
    ensures gathered { Gathered passes.items result.me.0 }
{
    let Some(last) = passes.pop() else {
        unreachable!()
    };
    let Pass { seat, turns: _ } = last;
    let mut first = seat;
    'gathering: while let Some(pass) = passes.pop() {
        let Pass { seat, turns: _ } = pass;
        table.shared.join_seat::<Absorb>(&mut first, seat);
    }
    first
}

/// The values of a closed table, in order.
fn emptied<T, E: Drop>(
    mut closed: Closed<Cell<T, E>, Global>,
    locks: u32,
    mut values: Vec<T>,
) -> Vec<T>
    requires room { (values.items ≡ []) × (locks ≤ vec_capacity values) }
    requires full { IsFull closed.slots × (slots_len closed.slots ≡ locks) }
    requires values { (l : ℕ) (y : Cell T E) → get_elem? (slots_items closed.slots) l ≡ some y
        → (x : T) × (y.value ≡ Some x) }
    ensures count { length result.items ≡ locks }
    ensures values { (l : ℕ) (x : T) → get_elem? result.items l ≡ some x
        → (y : Cell T E) × (get_elem? (slots_items closed.slots) l ≡ some y) × (y.value ≡ Some x) }
{
    'emptying: for lock in 0..locks {
        let Cell { value, entry: _ } = closed.take(lock as usize);
        values.push_reserved(value.unwrap());
    }
    closed.free();
    values
}

impl<T: Standing> Gate<T> {
    /// The values, once all passes came back; want of memory leaves all untouched.
    pub fn close(
        self,
        alloc: Global,
        passes: Vec<Pass<T>>,
    ) -> Result<Vec<T>, (Gate<T>, Vec<Pass<T>>)>
        requires gate { All (λ p. p.gate ≡ self.id) passes.items }
        requires idle { All (λ p. p.held ≡ []) passes.items }
        requires all { (j : ℕ) → j < self.passes → Any (λ p. p.view.name ≡ j) passes.items }
        ensures count { IfOk result (λ values. length values.items ≡ self.locks) }
        ensures ended { IfOk result (λ values.
            Ended T.stands (Fact T.tie T.lends T.out T.keeper) self.passes
            (map (λ p. p.view) passes.items) values.items) }
        ensures untouched { IfErr result (λ e. (e.0 ≡ self) × (e.1.items ≡ passes.items)) }
    {
        let Ok(values) = Vec::with_capacity(alloc, self.locks as usize) else {
            return Err((self, passes));
        };
        let Gate { table, locks } = self;
        let seat = gathered(&table, passes);
        let closed = table.close_with(seat);
        Ok(emptied(closed, locks, values))
    }
}

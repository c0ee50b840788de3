//! The gate: how it is made with its passes, and how it is closed.
ghost use Rattle.std.specs.Prelude.{◌≡◌, ◌≢◌, ℕ, ◌+◌, ◌*◌, ◌^◌, ◌<◌, ◌≤◌, List, [], ◌∷◌, ◌++◌, true, false, None, Some, length, IfOk, vec_capacity, map};
ghost use mathlib.Core.Option.{some};
ghost use lib.ListN.{get_elem?};
ghost use Rattle.kd_turn.specs.Rule.{cell_of};
ghost use Rattle.kd_hands.specs.Views.{opening_view, last_view};
ghost use Rattle.kd_turn.specs.Told.{AreFresh, IsFresh};
ghost use Rattle.kd_turn.specs.Sight.{Sight};

use crate::pass::Pass;
use crate::plays::Cut;
use crate::standing::Standing;
use crate::views::{Cell, View};
use atomic_table::{Seat, Table, TableRule};
use std::alloc::{AllocError, Global};
use std::marker::{Model, PhantomData};

/// How many locks and passes a gate has.
#[derive(Clone, Copy)]
pub struct Size {
    pub locks: u32,
    pub passes: u32,
}

/// The rule of the turns, which every step keeps.
pub struct Turns<T> {
    of: PhantomData<T>,
}

impl<T: Standing> TableRule<Cell<T, T::Entry>, View<T::Entry>, Size> for Turns<T> {
    ghost use Rattle.std.specs.Prelude.{◌*◌};
    ghost use Rattle.kd_turn.specs.Rule.{Turning};
    ghost use Rattle.kd_hands.specs.Views.{last_view};
    ghost use Rattle.kd_hands.specs.Locks.{Fact};

    ghost holds = { λ size. Turning T.stands (Fact T.tie T.lends T.out T.keeper) size.passes };

    ghost first = { λ size. last_view size.locks 0 };
}

pub(crate) type Board<T> = Table<
    Cell<T, <T as Standing>::Entry>,
    View<<T as Standing>::Entry>,
    Size,
    Turns<T>,
    Global,
>;

/// The right of one pass to make steps on the table.
pub(crate) type SeatOf<T> = Seat<Cell<T, <T as Standing>::Entry>, View<<T as Standing>::Entry>>;

/// The locks and the values behind them.
#[derive(Drop)]
pub struct Gate<T: Standing> {
    pub(crate) table: Board<T>,
    pub(crate) locks: u32,
}

impl<T: Standing> Model for Gate<T> {
    ghost use Rattle.std.specs.Prelude.{◌≡◌, ◌*◌, ◌<◌};
    ghost use Rattle.kd_turn.specs.Sight.{GateSight};

    ghost Value = { GateSight };

    ghost view = { λ g.
        record {
          id = g.table.shared.table_id;
          locks = g.locks;
          passes = g.table.shared.key.passes;
        } };

    ghost invariant = { λ g.
        (g.table.shared.table_id.words ≡ 6 * g.locks) × (g.table.shared.table_id.slots ≡ g.locks)
        × (0 < g.locks) × (0 < g.table.shared.key.passes) };
}

/// A cell for each value.
fn cells_of<X: Drop, E: Drop>(alloc: Global, values: Vec<X>) -> Result<Vec<Cell<X, E>>, AllocError>
    ensures { IfOk result (λ v. v.items ≡ map cell_of values.items) }
{
    let mut cells = Vec::with_capacity(alloc, values.len())?;
    'filling: for value in values {
        cells.push(Cell {
            value: Some(value),
            entry: None,
        })?;
    }
    Ok(cells)
}

/// The pass of a seat that has seen nothing.
#[tactic(auto, using(kd_hands::proofs::Lists::all_alike))]
fn pass_of<T: Standing>(seat: SeatOf<T>) -> Pass<T>
    requires { seat.me
        ≡ (record (opening_view seat.table_id.slots seat.me.0.name) { made = seat.me.0.made }, []) }
    ensures { (result.gate ≡ seat.table_id) × (result.held ≡ [])
        × IsFresh seat.me.0.name result.view }
{
    Pass { seat, turns: 0 }
}

/// Splits the first seat into as many as there are to be passes. Each new one splits off the next.
fn spread<T: Standing>(
    gate: &Gate<T>,
    seat: SeatOf<T>,
    mut all: Vec<Pass<T>>,
    passes: u32,
) -> Vec<Pass<T>>
    requires room { (all.items ≡ []) × (passes ≤ vec_capacity all) }
    requires passes { (0 < passes) × (passes ≡ gate.now.passes) }
    requires seat { (seat.table_id ≡ gate.now.id)
        × (seat.me ≡ (last_view seat.table_id.slots 0, [])) }
    ensures count { length result.items ≡ passes }
    ensures fresh { AreFresh gate.now.id result.items }
{
    let mut last = seat;
    'making: for _ in 1..passes {
        let next = gate.table.shared.split_seat::<Cut>(&mut last);
        all.push_reserved(pass_of(last));
        last = next;
    }
    all.push_reserved(pass_of(last));
    all
}

impl<T: Standing + Drop> Gate<T> {
    /// One lock for each value, and passes numbered from 0 on. A gate has no more locks than a
    /// `u32` counts: for more there is no memory.
    pub fn make(
        alloc: Global,
        values: Vec<T>,
        passes: u32,
    ) -> Result<(Gate<T>, Vec<Pass<T>>), AllocError>
        requires values { 0 < length values.items }
        requires passes { (0 < passes) × (passes ≤ 1024) }
        requires stands { (l : ℕ) (x : T) → get_elem? values.items l ≡ some x → T.stands l [] x }
        requires tie { T.tie (record { lists = λ _. []; opened = [] }) }
        requires none_out { (l n : ℕ) → T.out l [] n → ⊥ }
        ensures gate { IfOk result
            (λ r. (r.0.locks ≡ length values.items) × (r.0.passes ≡ passes)) }
        ensures count { IfOk result (λ r. length r.1.items ≡ passes) }
        ensures fresh { IfOk result (λ r.
            (k : ℕ) (s : Sight T.Entry) → get_elem? r.1.items k ≡ some s
            → (s.gate ≡ r.0.id) × (s.held ≡ []) × IsFresh k s.view) }
    {
        let Ok(locks) = u32::try_from(values.len()) else {
            return Err(AllocError);
        };
        let words = Vec::from_elem(alloc, 0u64, 6 * locks as usize)?;
        let all = Vec::with_capacity(alloc, passes as usize)?;
        let cells: Vec<Cell<T, T::Entry>> = cells_of(alloc, values)?;
        let size = Size { locks, passes };
        let (table, seat): (Board<T>, SeatOf<T>) = match Table::new(
            alloc,
            words.as_slice(),
            cells,
            &size,
        ) {
            Ok(made) => made,
            Err(_) => return Err(AllocError),
        };
        let gate = Gate { table, locks };
        let all = spread(&gate, seat, all, passes);
        Ok((gate, all))
    }
}

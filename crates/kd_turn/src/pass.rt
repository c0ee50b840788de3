//! A pass, and what a thread does with it: take a turn, put the value back, mark a number, sweep
//! the marks.
ghost use Rattle.std.specs.Prelude.{◌≡◌, ℕ, ◌+◌, ◌*◌, ◌/◌, ◌^◌, ◌<◌, ◌≤◌, List, [], ◌∷◌, ◌++◌, true, false, None, Some, IfSome, length};
ghost use Rattle.kd_hands.specs.Views.{part, hand, cleared, drawn, marked, passed_on};
ghost use Rattle.kd_turn.specs.Rule.{hollow};
ghost use Rattle.kd_hands.specs.Lists.{hand_has};
ghost use Rattle.atomic_table.specs.Table.{rest};
ghost use Rattle.kd_turn.specs.Told.{DidSweep, Gained, Marked, Passed, Took};
ghost use Rattle.kd_hands.specs.Fits.{Owes};
ghost use Rattle.kd_hands.specs.Locks.{Fact, hands_after};

use crate::gate::{Gate, SeatOf};
use crate::plays::{Draw, Look, Mark, PassOn, Sweep};
use crate::standing::Standing;
use crate::views::{Cell, View};
use std::marker::Model;
use std::sync::Wait;
use std::{hint, thread};

/// The right of one thread to take turns, and what it knows. It is moved into a thread, and shared
/// by none.
#[derive(Drop)]
pub struct Pass<T: Standing> {
    pub(crate) seat: SeatOf<T>,
    pub(crate) turns: u64,
}

impl<T: Standing> Model for Pass<T> {
    ghost use Rattle.std.specs.Prelude.{map};
    ghost use Rattle.kd_turn.specs.Sight.{Sight};

    ghost Value = { Sight T.Entry };

    ghost use Rattle.kd_turn.specs.Seated.{IsSeated};

    ghost view = { λ p.
        record { gate = p.seat.table_id; view = p.seat.me.0; held = map (λ x. x.0) p.seat.me.1 } };

    ghost invariant = { λ p. IsSeated p.turns p.seat.table_id.slots p.seat.me };
}

/// How often a pass looks at the ticket that is served before it leaves the processor to others. A
/// turn is short: most come within so many looks.
const LOOKS: u32 = 100;

/// Waits a moment before the next look, and answers how many looks are left.
fn pause(looks: u32) -> u32 {
    if looks == 0 {
        thread::yield_now();
        return 0;
    }
    hint::spin_loop();
    looks - 1
}

/// Draws a ticket of a lock.
fn draw<T: Standing>(gate: &Gate<T>, seat: &mut SeatOf<T>, lock: u32) -> u64
    requires gate { seat.old.table_id ≡ gate.now.id }
    requires lock { lock < gate.now.locks }
    requires live { seat.old.me.0.live ≡ true }
    requires idle { (part seat.old.me.0 lock).holds ≡ false }
    requires turns { seat.old.me.0.turns < 2 ^ 43 }
    requires wide { length seat.old.me.0.parts ≡ seat.old.table_id.slots }
    ensures gate { (seat.new.table_id ≡ seat.old.table_id) × (lock < seat.old.table_id.slots) }
    ensures ticket { (part seat.new.me.0 lock).ticket ≡ Some result }
    ensures drew { seat.new.me ≡ (drawn lock result seat.old.me.0, seat.old.me.1) }
{
    gate.table.shared.fetch_add::<Draw>(seat, lock as usize, 1)
}

/// Looks once whether the ticket is served, and takes the value if it is.
fn look<T: Standing>(gate: &Gate<T>, seat: &mut SeatOf<T>, lock: u32, ticket: u64) -> Option<T>
    requires gate { seat.old.table_id ≡ gate.now.id }
    requires lock { lock < gate.now.locks }
    requires live { seat.old.me.0.live ≡ true }
    requires free { (k : ℕ) → lock ≤ k → (part seat.old.me.0 k).holds ≡ false }
    requires ticket { (part seat.old.me.0 lock).ticket ≡ Some ticket }
    ensures gate { seat.new.table_id ≡ seat.old.table_id }
    ensures gained { IfSome result (λ x.
        Gained T.stands (Fact T.tie T.lends T.out T.keeper) lock x hollow seat.old.me
        seat.new.me) }
    ensures missed { result ≡ None → seat.new.me ≡ seat.old.me }
{
    let shared = &gate.table.shared;
    let now = shared.load::<Look<T>>(seat, gate.locks as usize + lock as usize);
    if now != ticket {
        return None;
    }
    let empty = Cell {
        value: None,
        entry: None,
    };
    let Cell { value, entry: _ } = shared.exchange(seat, lock as usize, empty);
    value
}

/// Lays the value and the entry into the slot of the lock that was taken last, and passes the lock
/// on.
fn pass_on<T: Standing>(gate: &Gate<T>, seat: &mut SeatOf<T>, lock: u32, value: T, entry: T::Entry)
    requires gate { seat.old.table_id ≡ gate.now.id }
    requires lock { lock < gate.now.locks }
    requires live { seat.old.me.0.live ≡ true }
    requires held { ((part seat.old.me.0 lock).holds ≡ true)
        × (seat.old.me.1 ≡ (lock, hollow) ∷ rest seat.old.me.1) }
    requires stands { T.stands lock
        ((part seat.old.me.0 lock).seen ++ (seat.old.me.0.name, entry) ∷ []) value }
    requires tie { Owes (Fact T.tie T.lends T.out T.keeper) (hands_after T.hand_after T.empties)
        seat.old.me.0 lock entry }
    ensures gate { seat.new.table_id ≡ seat.old.table_id }
    ensures passed { seat.new.me
        ≡ (
          passed_on (hands_after T.hand_after T.empties) lock entry seat.old.me.0,
          rest seat.old.me.1,
        ) }
{
    let shared = &gate.table.shared;
    let full = Cell {
        value: Some(value),
        entry: Some(entry),
    };
    let Cell { value, entry: _ } = shared.exchange(seat, lock as usize, full);
    let None = value else { unreachable!() };
    shared.fetch_add::<PassOn<T>>(seat, gate.locks as usize + lock as usize, 1);
}

/// Sets the bit of a number in the mark words of a lock.
fn set_mark<T: Standing>(gate: &Gate<T>, seat: &mut SeatOf<T>, lock: u32, number: u32)
    requires gate { seat.old.table_id ≡ gate.now.id }
    requires place { (lock < gate.now.locks) × (number < 256) }
    requires live { seat.old.me.0.live ≡ true }
    requires in_hand { hand_has number (hand seat.old.me.0 lock) ≡ true }
    ensures gate { seat.new.table_id ≡ seat.old.table_id }
    ensures set { seat.new.me ≡ (marked lock number seat.old.me.0, seat.old.me.1) }
{
    let first = 2 * gate.locks as usize + 4 * lock as usize;
    let word = (number / 64) as usize;
    gate.table
        .shared
        .fetch_or::<Mark>(seat, first + word, 1u64 << (number % 64));
}

/// Swaps one of the four mark words of a lock with 0.
fn clear_word<T: Standing>(gate: &Gate<T>, seat: &mut SeatOf<T>, lock: u32, word: usize) -> u64
    requires gate { seat.old.table_id ≡ gate.now.id }
    requires place { (lock < gate.now.locks) × (word < 4) }
    requires live { seat.old.me.0.live ≡ true }
    requires wide { length seat.old.me.0.parts ≡ seat.old.table_id.slots }
    requires held { (part seat.old.me.0 lock).holds ≡ true }
    ensures seat { (seat.new.table_id ≡ seat.old.table_id)
        × (seat.new.me ≡ (cleared lock (word, result) seat.old.me.0, seat.old.me.1)) }
    ensures here { part seat.new.me.0 lock
        ≡ record (part seat.old.me.0 lock) {
          swept = (part seat.old.me.0 lock).swept ++ (word, result) ∷ [];
        } }
{
    let first = 2 * gate.locks as usize + 4 * lock as usize;
    gate.table.shared.swap::<Sweep>(seat, first + word, 0)
}

impl<T: Standing> Pass<T> {
    /// How many turns the pass has taken.
    pub fn turns(&self) -> u64
        ensures { result ≡ self.now.view.turns }
    {
        let _ = &self.seat;
        self.turns
    }

    /// Waits for a turn on the lock, and takes the value. The pass holds no lock of this number or
    /// a greater one.
    pub fn take<R: Wait>(&mut self, rt: &R, gate: &Gate<T>, lock: u32) -> T
        requires gate { self.old.gate ≡ gate.now.id }
        requires lock { lock < gate.now.locks }
        requires free { (k : ℕ) → lock ≤ k → (part self.old.view k).holds ≡ false }
        requires turns { self.old.view.turns < 2 ^ 43 }
        ensures gate { self.new.gate ≡ self.old.gate }
        ensures held { self.new.held ≡ lock ∷ self.old.held }
        ensures took { Took T.stands (Fact T.tie T.lends T.out T.keeper) lock self.old.view
            self.new.view result }
    {
        let ticket = draw(gate, &mut self.seat, lock);
        self.turns += 1;
        let mut looks = LOOKS;
        'waiting: for _ in rt.forever() {
            if let Some(value) = look(gate, &mut self.seat, lock, ticket) {
                return value;
            }
            looks = pause(looks);
        }
        unreachable!()
    }

    /// Puts the value back and passes the lock on, with the entry of this turn. It is the lock that
    /// the pass took last.
    pub fn put(&mut self, gate: &Gate<T>, lock: u32, value: T, entry: T::Entry)
        requires gate { self.old.gate ≡ gate.now.id }
        requires lock { lock < gate.now.locks }
        requires held { (before : List ℕ) × (self.old.held ≡ lock ∷ before) }
        requires stands { T.stands lock
            ((part self.old.view lock).seen ++ (self.old.view.name, entry) ∷ []) value }
        requires tie { Owes (Fact T.tie T.lends T.out T.keeper) (hands_after T.hand_after T.empties)
            self.old.view lock entry }
        ensures gate { self.new.gate ≡ self.old.gate }
        ensures held { self.old.held ≡ lock ∷ self.new.held }
        ensures passed { Passed (hands_after T.hand_after T.empties) lock entry self.old.view
            self.new.view }
    {
        pass_on(gate, &mut self.seat, lock, value, entry);
    }

    /// Marks a number of the pass's hand, in one step and without waiting. Number k is bit k mod 64
    /// of word k / 64 of the lock's four.
    pub fn mark(&mut self, gate: &Gate<T>, lock: u32, number: u32)
        requires gate { self.old.gate ≡ gate.now.id }
        requires lock { lock < gate.now.locks }
        requires number { number < 256 }
        requires in_hand { hand_has number (hand self.old.view lock) ≡ true }
        ensures gate { self.new.gate ≡ self.old.gate }
        ensures held { self.new.held ≡ self.old.held }
        ensures marked { Marked lock number self.old.view self.new.view }
    {
        set_mark(gate, &mut self.seat, lock, number);
    }

    /// The marks of a lock that the pass holds, which are now clear: its four words in order.
    pub fn sweep(&mut self, gate: &Gate<T>, lock: u32) -> [u64; 4]
        requires gate { self.old.gate ≡ gate.now.id }
        requires lock { lock < gate.now.locks }
        requires held { (part self.old.view lock).holds ≡ true }
        ensures gate { self.new.gate ≡ self.old.gate }
        ensures held { self.new.held ≡ self.old.held }
        ensures swept { DidSweep lock result self.old.view self.new.view }
    {
        let a = clear_word(gate, &mut self.seat, lock, 0);
        let b = clear_word(gate, &mut self.seat, lock, 1);
        let c = clear_word(gate, &mut self.seat, lock, 2);
        let d = clear_word(gate, &mut self.seat, lock, 3);
        [a, b, c, d]
    }
}

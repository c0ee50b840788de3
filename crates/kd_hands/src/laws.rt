//! Each step keeps the point on hands. The functions do nothing; their contracts are the laws.
ghost use Rattle.std.specs.Prelude.{◌≡◌, ◌≢◌, ℕ, ◌<◌, true, List, [], Option};
ghost use Rattle.kd_hands.specs.Lists.{hand_has};
ghost use Rattle.kd_hands.specs.Locks.{Locks, Handed, opening_locks, taken, marked_in, swept_in, entered, hands_after};
ghost use Rattle.kd_hands.specs.Settles.{Settles};

use crate::lending::Lending;

/// It holds before any entry, where an empty list has no number out.
pub fn the_first_world_has_it<T: Lending>()
    ensures { ((l n : ℕ) → T.out l [] n → ⊥) → Handed T.lends T.out T.keeper opening_locks }
{}

/// A pass takes a lock; lock 0 only where it has swept nothing.
pub fn taking_a_lock_keeps_it<T: Lending>()
    ensures { (w : Locks T.Entry) (l j : ℕ) → (l ≡ 0 → (k : ℕ) → w.swept j k ≡ [])
        → Handed T.lends T.out T.keeper w → Handed T.lends T.out T.keeper (taken l j w) }
{}

/// A pass marks a number of its hand.
pub fn a_mark_keeps_it<T: Lending>()
    ensures { (w : Locks T.Entry) (l n j : ℕ) → n < 256 → hand_has n (w.hands j l) ≡ true
        → Handed T.lends T.out T.keeper w → Handed T.lends T.out T.keeper (marked_in l n j w) }
{}

/// A pass sweeps one of the four mark words of a lock.
pub fn a_sweep_keeps_it<T: Lending>()
    ensures { (w : Locks T.Entry) (l q j : ℕ) → q < 4 → Handed T.lends T.out T.keeper w
        → Handed T.lends T.out T.keeper (swept_in l q j w) }
{}

/// A pass puts an entry on another lock than lock 0, whose marks no other has swept, and settles
/// the numbers of that lock.
pub fn a_settled_entry_keeps_it<T: Lending>()
    ensures { (l : ℕ) (e : T.Entry) (j : ℕ) (w : Locks T.Entry) → l ≢ 0
        → ((i : ℕ) → i ≢ j → w.swept i l ≡ []) → Settles T.lends T.out T.keeper T.hand_after l e j w
        → Handed T.lends T.out T.keeper w
        → Handed T.lends T.out T.keeper (entered (hands_after T.hand_after T.empties) l j e w) }
{}

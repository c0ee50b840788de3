//! Turn-locks over one table of atomic words, whose histories exist in the proofs alone.
//!
//! A gate has a lock for each of its values. A thread has a pass; it takes a lock, changes the
//! value and puts it back with an entry, which says what it did. So each lock has one list of
//! entries, and the value behind a free lock stands for the whole list. No list is kept when the
//! program runs: a pass knows of each how far it has seen it, and which entries are its own.
//!
//! ```text
//! lock          0     1     2        (p1, a) is the entry a, which pass 1 made in one turn
//! ticket        7     3     0        the next ticket that is drawn
//! serving       5     3     0        the ticket whose turn it is, which is the length of the list
//! value        out    v     w        out: pass 1 holds lock 0 and has its value
//! marks       4 words for each lock  a number that a pass gives back without taking the lock
//!
//! lists of the proofs:   lock 0: (p0, a) (p1, b) (p1, c) (p0, d) (p2, e)
//!                        lock 1: (p1, f) (p1, g) (p2, h)
//! ```
//!
//! Numbers that the values lend out stand in the hands of the passes. A pass marks a number of its
//! hand in one step, and the next holder of the lock sweeps the marks. What the lists of all locks
//! have to do with each other is the tie of `Standing`; lock 0 is special: its holder's entries on
//! other locks are known as open until it passes lock 0 on.
//!
//! - `standing`: what a value, its list, and the lists of all locks have to do with each other
//! - `gate` and `closing`: `Gate::make` and `Gate::close`
//! - `pass`: `Pass::take`, `put`, `mark`, `sweep`, `turns`
//! - `views`: what lies behind a lock; what a pass knows is a view of `kd_hands`
#![tactic(auto)]

mod closing;
pub mod gate;
pub mod pass;
mod plays;
pub mod standing;
pub mod views;

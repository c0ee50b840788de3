//! A small bus on turn-locks: a desk behind lock 0, and three pools of one slice each. It takes,
//! puts, sweeps and marks, and shows how a crate above `kd_turn` proves its own calls.
//!
//! ```text
//! desk's list:    Join 0 by p1     Send 0 by p2     Send 0 by p3     Leave 0 by p1
//!                    |                |                |                |
//! pool 0's list:   Raise            Offer            Offer  Receive    Close
//!
//! the tie: the same errands, in the same order
//! ```
//!
//! A pass that has a seat keeps the slice that it received in its hand, and gives it back by a
//! mark, without taking the pool's lock. The next offer sweeps the mark. Leaving the seat closes
//! its pool and empties the hand.
//!
//! - `bus`: the calls, from `open` to `leave`; `act` and `locked`: the entries and the values
//! - `run`: two threads on one bus, and what closing tells of all their entries
//! - `count` and `twice`: smaller values, one with marks, one of two locks that are tied
//! - `passes`: the passes of a gate, as they were made and as they come back
#![tactic(auto)]

pub mod act;
pub mod bus;
pub mod count;
pub mod locked;
pub mod passes;
pub mod run;
#[cfg(test)]
mod tests;
pub mod twice;

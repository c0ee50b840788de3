//! What holds of the parts of every plan: which of them hand the messages of one pool over to
//! another, and how large the pools are that they open. All of it stands in `specs/`; each
//! function's contract is a law.
//!
//! ```text
//!   drain 4    what waits in the pool of seat 4 goes out
//!   settle 2   and into the pool of seat 2
//!   post ..    then the notices
//! ```
#![tactic(auto)]

mod laws;

pub use laws::{handovers_come_first, pools_are_small};

//! What the desk's two calls come to together: a command is planned, its parts are visited, and its
//! plan is finished. All of it stands in `specs/`; each function's contract is a law.
//!
//! ```text
//!   desk -- plan --> plan -- visits --> answers -- finish --> reply, and the desk then
//!    |                                                              ^
//!    +------------------------ the command's step ------------------+
//! ```
#![tactic(auto)]

mod laws;

pub use laws::{finished_desks_are_settled, finishing_is_the_step};

//! The numbers of a pool's slices: each goes one way, through every act. All of it stands in
//! `specs/`; each function's contract is a law.
//!
//! ```text
//!            offer            publish          receive           free
//!   nobody's -----> Reserved -------> Queued --------> Handed ------> Freed
//!      ^                                                                |
//!      +------------------ a sweep, before what is put in --------------+
//! ```
//!
//! - `specs/Ways`: how far the slice of a number is, and what each act may make of it
//! - `specs/Lists`: how a number comes to be handed or freed, and how long it stays so
#![tactic(auto)]

mod laws;

pub use laws::{freed_by_frees, freed_stays, handed_by_receives, handed_stays, numbers_go_one_way};

//! What each act raises of a pool's counts, and that its size stays. All of it stands in `specs/`;
//! each function's contract is a law.
//!
//! ```text
//!   offer    offered + 1      one message that is reserved, or missed
//!   post     arrivals + 1, or dropped + 1
//!   settle   as many posts as there are messages
//!   publish  arrivals + 1, where its slice is reserved for it
//! ```
#![tactic(auto)]

mod laws;

pub use laws::{counts_go_on, generations_go_on, sizes_follow};

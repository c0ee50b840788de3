//! Who owns which well-known name, after kdbus.name.
//!
//! Connections claim names. The claims on a name have ranks: the first is the owner's, the others
//! wait in the queue. An activator is a placeholder that owns its name while no ordinary connection
//! claims it, so its claim stands behind all others.
//!
//! All claims stand in one vector, by name in byte order and then by rank. A second one, by id, has
//! how many ordinary claims each connection has, so an acquire that asks for the limit looks at no
//! other name. Both are made with room for every claim that a bus can have, so no call that
//! acquires or releases takes memory; a name and a connection are found by binary search.
//!
//! ```text
//!            a.b   a.b   a.b       c.d          x.y
//!           ┌─────┬─────┬─────────┬────────────┬─────┐
//!   claims  │ 7   │ 3   │ 9 (act) │ 12 (act)   │ 3   │      7 owns a.b, 3 is queued behind it
//!           └─────┴─────┴─────────┴────────────┴─────┘      12 owns c.d as its activator
//!
//!             3     7
//!           ┌─────┬─────┐
//! holdings  │ 2   │ 1   │      3 has two claims, 7 has one; 9 and 12 have none but as activators
//!           └─────┴─────┘
//! ```
#![tactic(auto)]

mod acquiring;
mod book;
mod claim;
mod edits;
mod holdings;
mod listing;
mod registry;
mod releasing;
mod search;

pub use claim::{Claim, Listed, Stake, Verdict};
pub use registry::{CLAIM_LIMIT, ROOM, Registry};

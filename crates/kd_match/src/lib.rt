//! The rules by which connections ask for broadcasts and notices.
//!
//! A rule is a cookie and a list of conditions, all of which have to hold; an empty list admits
//! everything. A connection is shown what one of its rules admits. After the manual page
//! kdbus.match.
//!
//! The table is one list in the order of the connections' ids, so that the rules of one connection
//! lie together, in the order in which they were added:
//!
//! ```text
//! id      3   3   3   8   8   12
//! cookie  1   2   1   7   9    0
//!        └─────┬───┘ └──┬──┘
//!         rules of 3    rules of 8: found by two searches for the ends
//! ```
//!
//! The table is made with room for all rules of a bus, so that adding one takes no memory.
#![tactic(auto)]

mod condition;
mod matches;
mod rule;
mod subject;
mod table;

pub use condition::Condition;
pub use matches::Matches;
pub use rule::{Conditions, Rule};
pub use subject::Subject;
pub use table::ROOM;

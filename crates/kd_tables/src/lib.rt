//! What a bus knows of its callers, and how it changes: the tables of the desk, the rights that
//! they give, and the plans of commands.
//!
//! ```text
//!   desk ---> rights, tables ---> what kd_messages and kd_desk make a plan of
//!    ^                                             |
//!    +------- finish <--- answers <--- parts <-----+
//! ```
//!
//! The tables of `Desk` and the fields of `Plan` are open to the crates above, which read the ones
//! and make the others. `finishing` makes the change of a plan, by what its visits were answered.
#![tactic(auto)]

mod change;
mod content;
mod desk;
mod finishing;
mod part;
mod plan;
mod rights;

pub use change::{Brought, Change};
pub use content::Content;
pub use desk::{Desk, SEATS};
pub use part::{Out, Part};
pub use plan::Plan;

//! The endpoints of a bus, after the manual page kdbus.endpoint: which labels they have, and by
//! which numbers the bus knows them.
//!
//! Number 0 is the default endpoint, whose label is `bus`. Up to eight others are made and removed
//! while the bus lives:
//!
//! ```text
//!     number   0     1       2      3        4 .. 8
//!     label    bus   guests  (free) sandbox  (free)
//! ```
//!
//! A new endpoint takes the lowest free number, here 2.
#![tactic(auto)]

mod endpoints;

pub use endpoints::{ENDPOINTS, Endpoints};

//! Policy, after the manual page kdbus.policy: who may see, talk to and own which names.
//!
//! An entry grants a user, a group or everyone a level on the names that its pattern covers. Each
//! policy holder of a bus and each of its endpoints has a list of entries, sorted by pattern; all
//! those of the holders together are the list of the bus.
//!
//! ```text
//!     holder 3    org.example.*      world        see
//!                 org.example.App    user 1000    own
//!     holder 7    org.example.App    group 50     talk
//!     endpoint 1  org.example.App    world        talk
//! ```
//!
//! Here user 1000 of group 50 owns `org.example.App` by the list of the bus and talks to it by that
//! of the endpoint. User 1001 of group 51 has no level on it by the list of the bus: entries with
//! the very name hide those with a star, whoever they are for.
//!
//! A name and the one wildcard that covers it are looked up in each owner's entries by binary
//! search. Beside them stand marks, a Bloom filter of the owner's patterns, which spare the search
//! in nearly all lists that don't have the pattern.
#![tactic(auto)]

mod entry;
mod granted;
mod holding;
mod marks;
mod order;
mod owner;
mod policy;

pub use entry::{Entry, Subject};
pub use owner::{Owner, Scope};
pub use policy::{ENTRIES, OWNERS, PolicyDb};

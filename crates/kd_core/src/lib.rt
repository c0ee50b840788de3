//! The core of a bus: one desk, its holder, 64 pools and 64 callers, and the events that change
//! them one at a time.
//!
//! ```text
//!   caller 1   take ------ visit -- visit -- leave ------------- publish -- publish
//!   caller 2       receive        free             take -- leave          receive
//!              ------------------------------------------------------------------> events
//! ```
//!
//! A caller takes the desk with a command, visits the pools of the plan's parts, and leaves the
//! desk; then it publishes what it offered. Receives, reads and frees go by the caller's own pool
//! and hand, whoever holds the desk. `kd_world` says which events are legal, what each changes and
//! answers, and what holds of every list of them; `kd_holds` has the pools with their generations.
//! A [`World`] runs them: one by one, or a list with [`run_events`]. Each event is a file of its
//! own where it asks for more than a call at a pool.
#![tactic(auto)]

mod asking;
mod buses;
mod caller;
mod delivering;
mod event;
mod events;
mod judging;
mod leaving;
mod stepping;
mod taking;
mod using;
mod visiting;
mod world;

pub use caller::Caller;
pub use event::{Answer, Event};
pub use events::{RunError, run_events};
pub use kd_holds::{Hand, Hold, Holder, Made, Pending, Published};
pub use kd_world::Told;
pub use world::World;

//! A pool as a machine: its state, what can be done to it, what each act changes and answers, what
//! is sound, and what lasts through any act. All of it stands in `specs/`; the code over it is
//! `kd_pool`.
//!
//! ```text
//!     Reserved --publish--> Queued --receive--> Handed --free--> Freed --sweep--> (gone)
//!                           |    ^                ^
//!                           peek |                |
//!                           v    |                |
//!                           Peeked ----receive----+
//! ```
//!
//! A sender reserves a slice by an offer and later publishes its message into it. The receiver is
//! told the slice, reads its bytes, and frees it. A freed slice keeps its range until the next
//! sweep, which stands at the beginning of each offer. A receive may also drop its slice at once.
//!
//! A notice of the bus is posted: it is reserved and published at once. All messages that wait can
//! be drained, and settle in another pool.
//!
//! After the kdbus manual page kdbus.pool; placement, slice numbers and the quota are this
//! project's own.
#![tactic(auto)]

mod laws;
mod receive;
mod slot;

pub use laws::{
    handed_follows, numbers_stay, open_follows, publishes_last, receives_waiting, slices_last,
};
pub use receive::{Got, RecvMode};
pub use slot::{Phase, Slot};

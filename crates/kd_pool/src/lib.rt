//! A pool: a region of bytes in which the bus alone allocates slices for one receiver's messages.
//! What each call changes and answers is a step of the machine of `kd_acts`; this is the code over
//! it.
//!
//! ```text
//!     memory   |  slice 1  |   (gap)   |  slice 0  |  slice 2  |   (gap)   |
//!     book     1 at 0                  0 at 208    2 at 312
//!     slots    1 Queued, 8             0 Handed, 6 2 Peeked, 7             phase, arrival
//!     queue    2, 1                                                        the oldest first
//!     shares   1: of sealed bytes                                          by number
//! ```
//!
//! The book places slices and takes their ranges back. The table of slots has what is known of each
//! slice, by rising offset as in the book. The queue has those that wait, in order of arrival, and
//! is asked which is received next. A slice may hold a share of sealed bytes until it goes; the
//! shares stand by slice number. All have room for every number from the start on, so that no call
//! but `make` and `read` takes memory.
//!
//! A notice of the bus is posted: it is reserved and published at once. All messages that wait can
//! be drained into a buffer, and settle from there in another pool.
//!
//! After the kdbus manual page kdbus.pool; placement, slice numbers and the quota are this
//! project's own.
#![tactic(auto)]

mod drained;
mod giving;
mod memory;
mod moving;
mod offering;
mod pool;
mod publishing;
mod receiving;
mod sealed;
mod table;

pub use drained::Drained;
pub use kd_acts::{Got, RecvMode};
pub use kd_seal::Sealed;
pub use memory::LARGEST;
pub use pool::Pool;

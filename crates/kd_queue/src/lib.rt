//! The order in which a pool's waiting slices are received.
//!
//! A queue holds an entry for each slice that waits. A receive without a limit takes the oldest
//! entry; one with a limit takes, of the entries whose priority is at most the limit, the least
//! priority, and of these the oldest. A lower number is a higher priority. That messages have
//! priorities comes from kdbus; the order of receives is this project's own.
//!
//! ```text
//! arrival     first     second    third     fourth
//! entry       0, 5      1, -1     2, -1     3, 5        number, priority
//!
//! next(None)      0     the oldest
//! next(Some(5))   1     the least priority, and 1 came before 2
//! next(Some(-2))  none  no priority is so low
//! ```
#![tactic(auto)]

mod entry;
mod queue;

pub use entry::Entry;
pub use kd_model::{SLICES, SliceNo};
pub use queue::Queue;

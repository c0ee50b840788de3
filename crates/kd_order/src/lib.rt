//! The order in which a pool's waiting slices are received, linked: all in one vector that is made
//! once. Its calls are those of `kd_queue`, with the same contracts over the same definitions.
//!
//! ```text
//!     arrival       first    second   third    fourth
//!     slice         0        1        2        3
//!     priority      5        -1       -1       5
//!
//!     by arrival    start, 0, 1, 2, 3, and the start again
//!     by priority   head, 259, 260, 258, 261, and the head again
//!
//!     node       0    1    2    3    start   head   258   259   260   261
//!     previous   start 0   1    2    3       261    260   head  259   258
//!     next       1    2    3    start 0      259    261   260   258   head
//!     priority                               least  5     -1    -1    5
//! ```
//!
//! Each node names the ones before and behind it. There are two rings:
//!
//! - The slices by arrival, from the start on. The node of a slice stands at its number, so that a
//!   number finds its slice at once.
//! - The slices by priority, and those of the same priority by arrival, from the head on. There the
//!   node of slice n is 258 + n, and has its priority.
//!
//! A receive without a limit takes the node behind the start. One with a limit takes the node
//! behind the head, if its priority is within the limit: none that stands behind it is received
//! before it. A slice that is taken out leaves both rings.
//!
//! A new slice goes behind the last by arrival. By priority it goes back from the head over those
//! that are received later; the head ends the way, since no priority is below its own. So where all
//! have one priority, a new slice costs one step too.
#![tactic(auto)]

mod chain;
mod node;
mod queue;

pub use kd_model::{SLICES, SliceNo};
pub use queue::Queue;

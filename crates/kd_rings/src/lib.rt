//! Two rings of numbers in one vector, whose nodes are linked in both directions: definitions and
//! laws, and the numbers of the nodes at which the rings begin. No code runs in it.
//!
//! ```text
//!     number      0     1     2   ..   256    257   258   259   260
//!     next        2    256    1         0     259   257   258
//!     previous   256    2     0         1     258   259   257
//!
//!     the first ring     start (256), 0, 2, 1, and the start again
//!     the second ring    head (257), 259, 258, and the head again
//! ```
//!
//! The numbers of the first ring are below its start, those of the second above its head. So a
//! number is put into one ring or taken out of it, and the other stays as it was.
#![tactic(auto)]

mod heads;

pub use heads::{HEAD, START};

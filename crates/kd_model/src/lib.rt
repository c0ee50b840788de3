//! What the crates of the bus say about lists and places: the words that their definitions share,
//! the numbers of slices, and where in a pool a slice lies.
//!
//! A pool is a range of bytes in which slices are placed. What lies between them are the gaps:
//!
//! ```text
//!     0         104       208           312          408
//!     | slice 1 |  (gap)  |   slice 0   |   (gap)    |
//! ```
//!
//! A new slice goes to the front of the smallest gap that holds it, the lowest among equals, and
//! gets the lowest number that no slice has. Here one of 96 bytes would be slice 2 at 312.
#![tactic(auto)]

mod book;
mod laws;
mod placed;
mod slice_no;

pub use book::{NoPlace, SliceBook};
pub use laws::gaps_are_maximal;
pub use placed::{Gap, Placed};
pub use slice_no::{SLICES, SliceNo};

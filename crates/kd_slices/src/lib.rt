//! The plain book of a pool's slices: one list, sorted by offset.
//!
//! ```text
//!     0         104       208           312          408
//!     | slice 1 |  (gap)  |   slice 0   |   (gap)    |
//!
//!     slices = [ 1 at 0, 104 bytes | 0 at 208, 104 bytes ]
//! ```
//!
//! Gaps aren't stored: they are what lies between neighbours, so slices that are given back leave
//! one gap with nothing to merge. Placing looks at each slice once.
#![tactic(auto)]

mod gaps;
mod slices;

pub use slices::Slices;

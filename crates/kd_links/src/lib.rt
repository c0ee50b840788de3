//! The book of a pool's slices, linked: all slices and gaps in one vector that is made once.
//!
//! ```text
//!     0         104        208       312       360       464
//!     | slice 2 |   (gap)   | slice 0 | slice 1 |  (gap)  |
//!
//!     by address   start, 2, 0, 1, and the start again
//!     by size      head, 258, 514, and the gaps of unused numbers, which have no bytes;
//!                  mark 0, mark 1, mark 2, mark 3, 260, 259; mark 4 up to mark 17,
//!                  and the head again
//!
//!     node         2      0      1      260 behind 2   259 behind 1   mark 3
//!     offset       0      208    312    104            360            0
//!     len          104    104    48     104            104            63
//! ```
//!
//! Each node has a span and names the ones before and behind it. There are two rings:
//!
//! - The slices by address, from the start on. The node of a slice stands at its number, so that a
//!   number finds its slice at once.
//! - The gaps by length and then offset, from the head on. The gap behind slice n is node 258 + n,
//!   and the gap at the pool's front, behind the start, is node 514. Where no gap lies behind a
//!   slice, that node has no bytes and stands next to the head.
//!
//! The gaps fall into 18 bins: bin b begins at 8 times 2^b bytes. In the ring of gaps, mark b (node
//! 515 + b) stands before all gaps of bin b, since its length is one byte less than the bin's least.
//! So the smallest gap that holds a length is found from the mark of its bin on, and a gap is put
//! in from the mark of its own. Bins without gaps cost a step each, for their marks.
//!
//! The largest gap is the last in that ring, found from the head back over the marks of larger bins.
//!
//! A slice that is given back makes one gap with those on both its sides: the gap behind the slice
//! before it gets the bytes of all three.
#![tactic(auto)]

mod bins;
mod chain;
mod links;
mod node;

pub use links::Links;

//! Bloom filters: sets of strings as sets of bits, which the bus compares and never builds.
//!
//! A broadcast carries a filter, and a rule a mask. A string sets a few bits, chosen by hashes of
//! it; a filter of strings has the bits of them all, and passes a mask where it has every bit of
//! the mask. So a message with all the strings that a rule asks for always passes, and another one
//! seldom. After the manual page kdbus.match.
//!
//! A filter has a generation: in each further one a string has one bit more, so that senders can
//! make their filters sharper while older rules still work. A mask has one to four generations, and
//! a filter is tested against its own or the last of them:
//!
//! ```text
//! mask    | generation 0     | generation 1     |      a filter of generation 0 is tested
//! words   | w0 w1 .. (width) | w0 w1 .. (width) |      against the first, one of generation
//!                                                      1, 2, .. against the second
//! ```
//!
//! Bits are packed into words of 64 bits. A test looks at whole blocks of eight words first, each
//! with no way out between its words, and then at the words behind them, one by one. Bit b is bit b
//! mod 8, the least first, of byte b / 8.
#![tactic(auto)]

mod bits;
mod builder;
mod hashing;
mod mask;
mod mask_builder;
mod param;
mod words;

pub use bits::{Bits, passes};
pub use builder::FilterBuilder;
pub use mask::{Mask, MaskError, meets};
pub use mask_builder::MaskBuilder;
pub use param::Param;

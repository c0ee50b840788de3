//! The numbers by which a pool names its slices.

ghost use Rattle.std.specs.Prelude.{ℕ};

use std::marker::Model;

/// The number of a slice in its pool, below [`SLICES`].
#[derive(Clone, Copy, Debug, PartialEq, Eq, PartialOrd, Ord, Hash)]
pub struct SliceNo(pub u32);

impl Model for SliceNo {
    ghost Value = { ℕ };

    ghost view = { λ n. n.0 };

    ghost inverse = { λ n. record { 0 = n } };
}

/// How many slices a pool has at once: their numbers are the bits of four words, so that a receiver
/// frees a slice by setting one bit.
pub const SLICES: u32 = 256;

//! Where the rings begin.

use kd_model::SLICES;

/// The number of the node at which the first ring begins: the first behind the slices' numbers.
pub const START: u32 = SLICES;

/// The number of the node at which the second ring begins.
pub const HEAD: u32 = START + 1;

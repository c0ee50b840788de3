//! Ranges of a pool: slices and the gaps between them.

use crate::slice_no::SliceNo;

/// A slice and where it lies: `len` bytes from `offset` on.
#[derive(Clone, Copy, Debug, PartialEq, Eq)]
pub struct Placed {
    pub number: SliceNo,
    pub offset: u32,
    pub len: u32,
}

/// A range that no slice covers: `len` bytes from `start` on.
#[derive(Clone, Copy, Debug, PartialEq, Eq)]
pub struct Gap {
    pub start: u32,
    pub len: u32,
}

//! A slice that waits to be received.

use kd_model::SliceNo;

/// A slice that waits, with its message's priority: a lower number is received first.
#[derive(Clone, Copy, Debug, PartialEq, Eq)]
pub struct Entry {
    pub number: SliceNo,
    pub priority: i64,
}

//! How messages are received.

use kd_model::SliceNo;

/// How a receive takes a message: `peek` leaves it queued, `drop_it` gives its slice back at once,
/// and under a `limit` only messages of at most that priority number are taken, the lowest number
/// first.
#[derive(Clone, Copy, Debug, PartialEq, Eq)]
pub struct RecvMode {
    pub peek: bool,
    pub drop_it: bool,
    pub limit: Option<i64>,
}

/// A slice that was received: `length` bytes from `offset` on, and how many messages were missed
/// since the last receive that told so.
#[derive(Clone, Copy, Debug, PartialEq, Eq)]
pub struct Got {
    pub number: SliceNo,
    pub offset: u32,
    pub length: u32,
    pub dropped: u64,
}

//! What a pool keeps of each slice beside its bytes.

use kd_model::SliceNo;
use kd_types::ConnId;

/// How far a slice has come between its offer and its end.
#[derive(Clone, Copy, Debug, PartialEq, Eq)]
pub enum Phase {
    /// Offered, and not published yet.
    Reserved,
    /// Published, and not received yet.
    Queued,
    /// Told to its receiver, and still queued.
    Peeked,
    /// Received.
    Handed,
    /// Given back by its receiver; the next sweep takes it out.
    Freed,
}

/// A slice in the table of its pool.
#[derive(Clone, Copy, Debug)]
pub struct Slot {
    pub number: SliceNo,
    pub offset: u32,
    pub len: u32,
    pub phase: Phase,
    /// Whose message it is; none for a notice of the bus.
    pub user: Option<u32>,
    /// The connection that sent it, 0 for the bus.
    pub source: ConnId,
    /// A lower number is a higher priority.
    pub priority: i64,
    /// The place in the order of publishing, 0 before that.
    pub arrival: u64,
}

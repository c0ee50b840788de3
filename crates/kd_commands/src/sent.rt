//! What a sender hands in.

use kd_types::SendFlags;
use kd_wire::WireItems;

/// A message as its sender hands it in.
#[derive(Debug, Drop)]
pub struct Sent {
    pub flags: SendFlags,
    pub priority: i64,
    /// The id of the receiver; 0 where only a name says it.
    pub dst: u64,
    pub payload_type: u64,
    pub cookie: u64,
    /// A deadline, or the cookie of the request that is answered.
    pub last: u64,
    pub items: WireItems,
}

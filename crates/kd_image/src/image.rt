//! What a receiver reads.

use crate::attached::Attached;
use crate::message::SealedRange;
use crate::notice::Notice;
use kd_types::{BlobList, ConnId, Cookie, Text};

/// What an image says: of a message what its sender handed in and the bus attached, or a notice of
/// the bus.
#[derive(Debug, Drop)]
pub struct Image {
    /// The bytes of header and items.
    pub size: u64,
    /// The message's flags, as a word.
    pub flags: u64,
    pub priority: i64,
    /// The id of the connection that it is for, which in a monitor's copy isn't the reader; all
    /// ones for what goes to all.
    pub dst: u64,
    /// The sender; 0 for a notice.
    pub source: ConnId,
    pub payload_type: u64,
    pub cookie: Cookie,
    /// The deadline of a request, or the cookie of the request that is answered.
    pub last: u64,
    /// What the bus tells about the sender.
    pub attached: Attached,
    /// The name that it was sent to, if it was sent by name.
    pub dst_name: Option<Text>,
    pub payloads: BlobList,
    /// The range of sealed bytes that goes with it.
    pub shared: Option<SealedRange>,
    /// The notice, if it is one.
    pub notice: Option<Notice>,
}

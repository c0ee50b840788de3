//! What a sender hands in.

use kd_types::{BlobList, Cookie, SendFlags, Text};

/// A range of sealed bytes that a message shares with its receiver.
#[derive(Clone, Copy, Debug, PartialEq, Eq)]
pub struct SealedRange {
    /// How many of the message's payloads stand before it.
    pub place: u32,
    /// Where the range begins in the sealed bytes.
    pub start: u64,
    /// How many bytes it has.
    pub length: u64,
}

/// A message as it is sent.
#[derive(Debug, Drop)]
pub struct Message {
    pub flags: SendFlags,
    /// A receiver may ask for those above a limit; a greater one isn't more urgent by itself.
    pub priority: i64,
    /// Any number; it means something to the two ends alone.
    pub payload_type: u64,
    /// The sender's number for the message.
    pub cookie: Cookie,
    /// With the flag for an expected reply its deadline, else the cookie of the request that is
    /// answered, or 0.
    pub last: u64,
    /// The name that the message is sent to, if it is sent by name.
    pub dst_name: Option<Text>,
    /// The pieces of the message, in order.
    pub payloads: BlobList,
    /// A range of sealed bytes among them.
    pub sealed: Option<SealedRange>,
}

//! What events were answered, as a trace has it.

use kd_types::Blob;
use kd_wire::Reply;

/// What a trace has as the answer to an event. It can be another than the event's own.
#[derive(Debug, Drop)]
pub enum Outcome {
    /// The desk was taken.
    Taken,
    /// The message was queued.
    Published,
    /// The pool was closed since the slice was reserved.
    Gone,
    /// The slice was given back.
    Freed,
    /// The pool did what the visit asked of it, and has no more to tell.
    Visited,
    /// The desk or the pool refused, by the refusal's number and its value.
    Refused {
        /// The refusal's number.
        code: u64,
        /// Its value; 0 where it has none.
        value: u64,
    },
    /// The pool reserved a slice for the visit.
    Slice {
        /// The slice's number.
        number: u32,
    },
    /// The pool refused the visit, by the refusal's number and its value.
    VisitRefused {
        /// The refusal's number.
        code: u64,
        /// Its value; 0 where it has none.
        value: u64,
    },
    /// The desk was left with a reply.
    Left {
        /// The number of the command that is replied to.
        command: u64,
        /// What its caller is told.
        reply: Reply,
    },
    /// A message was received.
    Got {
        /// The number of its slice.
        number: u32,
        /// Where the slice begins in the pool, in bytes.
        offset: u64,
        /// How many bytes the message has.
        length: u64,
        /// How many messages were dropped since the receive before.
        dropped: u64,
    },
    /// The bytes that were read.
    Bytes(Blob),
}

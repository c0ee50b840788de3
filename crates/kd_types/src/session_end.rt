//! How a session on a link ended.

/// How a session ended. At [`SessionEnd::Ended`] and [`SessionEnd::BadFrame`] all frames before
/// the end were answered whole; at any other end a front of their replies may be missing its rest.
#[derive(Clone, Copy, Debug, PartialEq, Eq)]
pub enum SessionEnd {
    /// The input ended at a frame's end.
    Ended,
    /// The input has no whole frame at this byte.
    BadFrame {
        /// The place, from the front of the session's input.
        at: u64,
    },
    /// The link failed.
    LinkFault,
    /// The clock failed.
    ClockFault,
    /// The turns of the session's passes, or the bytes that it read, reached 2^40.
    Spent,
    /// Memory ran out.
    OutOfMemory,
}

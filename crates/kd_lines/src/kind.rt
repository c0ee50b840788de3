//! What the bytes are.

/// What the bytes are that are shown.
#[derive(Clone, Copy, Debug, PartialEq, Eq)]
pub enum Kind {
    /// Command frames.
    Frames,
    /// Replies.
    Replies,
}

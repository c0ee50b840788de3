//! What a caller was told of a slice.

/// What a caller knows of a slice number of its pool.
#[derive(Clone, Copy, Debug, PartialEq, Eq)]
pub enum Told {
    /// It has looked at the message, which stays queued.
    Peeked,
    /// It has received the message, and has to free its slice.
    Handed,
}

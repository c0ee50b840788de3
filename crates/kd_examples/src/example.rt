//! A stream to read.

/// A stream as its four files have it.
#[derive(Debug, Drop)]
pub struct Example {
    /// What it shows.
    pub name: String,
    /// The frames as lines.
    pub lines: Vec<u8>,
    /// The frames of its callers.
    pub frames: Vec<u8>,
    /// The replies that they get.
    pub replies: Vec<u8>,
    /// The replies as lines.
    pub told: Vec<u8>,
}

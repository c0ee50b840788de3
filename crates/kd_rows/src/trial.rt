//! A recorded conversation.

use kd_types::Status;

/// A conversation as it was recorded.
#[derive(Debug, Drop)]
pub struct Trial {
    /// What it shows.
    pub name: String,
    /// The frames of its callers.
    pub input: Vec<u8>,
    /// The replies that they get.
    pub output: Vec<u8>,
    /// How the run ends: `Done`, or `BadFrame` where the frames break off.
    pub end: Status,
}

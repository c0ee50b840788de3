//! One message of the load.

/// Where a message goes.
#[derive(Clone, Copy, Debug, PartialEq, Eq)]
pub enum Target {
    /// To all whose rule has the string of this digit.
    All { digit: u8 },
    /// To the connection of this id.
    One { id: u64 },
}

/// A message, as its thread sends it.
#[derive(Clone, Copy, Debug, PartialEq, Eq)]
pub struct Message {
    /// The id of the connection that sends it.
    pub sender: u64,
    /// Which of its sender's messages it is, from 1 on; its payload is this number.
    pub number: u64,
    pub target: Target,
}

//! What the first words of bytes tell.

/// What stands at the front of bytes that frames come in.
#[derive(Clone, Copy, Debug, PartialEq, Eq)]
pub enum Cut {
    /// A whole frame, of so many bytes.
    Frame { size: u64 },
    /// The beginning of one: it can be told when there are so many bytes.
    Need { total: u64 },
    /// No frame: none has this size.
    Bad,
}

/// Which command a frame or a reply names, and which caller, whatever they are.
#[derive(Clone, Copy, Debug, PartialEq, Eq)]
pub struct Head {
    /// The command's number.
    pub command: u64,
    /// The caller's number.
    pub caller: u64,
}

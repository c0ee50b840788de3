//! The runs of the program.

/// Which run the first word names; the run looks at the others.
#[derive(Clone, Copy, Debug, PartialEq, Eq)]
pub enum Pick {
    /// The run of `replay`.
    Replay,
    /// The run of `record`.
    Record,
    /// The run of `check`.
    Check,
    /// None.
    Other,
}

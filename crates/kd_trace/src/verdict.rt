//! What is said of a trace.

ghost use Rattle.std.specs.Prelude.{◌≡◌};
ghost use Rattle.std.specs.declared.option.Option.TheVariants.{Some};
ghost use Rattle.kd_trace.specs.declared.verdict.TraceError.TheVariants.{OutOfMemory};
ghost use Rattle.kd_trace.specs.Texts.{verdict_text};

use std::alloc::{AllocError, AllocFailed};
use std::fmt;

/// Whether a run was legal, and was answered as it had to be.
#[derive(Clone, Copy, Debug, PartialEq, Eq)]
pub enum Verdict {
    /// Each event is legal, and has its answer.
    Yes,
    /// This pair is the first that isn't right.
    No {
        /// Which pair it is, counted from 0.
        index: u64,
        /// The byte at which its event begins.
        at: u64,
    },
}

impl fmt::Display for Verdict {
    ghost output = { λ verdict. Some (verdict_text verdict) };

    fn fmt<W: fmt::Write>(&self, f: &mut fmt::Formatter<W>) -> fmt::Result {
        match self {
            Verdict::Yes => write!(f, "yes"),
            Verdict::No { index, at } => write!(f, "no {index} {at}"),
        }
    }
}

/// Why bytes weren't judged.
#[derive(Clone, Copy, Debug, PartialEq, Eq)]
pub enum TraceError {
    /// The bytes aren't a trace: at this byte no item begins that may stand there.
    Malformed {
        /// The place, from the front of the bytes; their length where the last event has no answer.
        at: u64,
    },
    /// Memory ran out; nothing is said of the bytes.
    OutOfMemory,
}

impl From<AllocError> for TraceError {
    ghost from_gives = { λ _ e. e ≡ OutOfMemory };

    fn from(_: AllocError) -> TraceError {
        TraceError::OutOfMemory
    }
}

impl<T: Drop> From<AllocFailed<T>> for TraceError {
    ghost from_gives = { λ _ e. e ≡ OutOfMemory };

    fn from(_: AllocFailed<T>) -> TraceError {
        TraceError::OutOfMemory
    }
}

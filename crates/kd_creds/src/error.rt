//! Why a configuration can't be read.

ghost use Rattle.std.specs.Prelude.{◌≡◌};
ghost use Rattle.kd_creds.specs.declared.error.ListenError.TheVariants.{OutOfMemory};

use std::alloc::{AllocError, AllocFailed};
use std::error::Error;
use std::fmt;

/// Why a configuration can't be read.
#[derive(Clone, Copy, Debug, PartialEq, Eq)]
pub enum ListenError {
    /// A line breaks a rule.
    Malformed {
        /// Where that line begins, in bytes from the front; the text's length where it has no
        /// socket line at all.
        at: usize,
    },
    /// Memory ran out; nothing is said of the text.
    OutOfMemory,
}

impl fmt::Display for ListenError {
    fn fmt<W: fmt::Write>(&self, f: &mut fmt::Formatter<W>) -> fmt::Result {
        match self {
            ListenError::Malformed { at } => write!(f, "bad configuration at byte {at}"),
            ListenError::OutOfMemory => write!(f, "out of memory"),
        }
    }
}

impl Error for ListenError {}

impl From<AllocError> for ListenError {
    ghost from_gives = { λ _ e. e ≡ OutOfMemory };

    fn from(_: AllocError) -> ListenError {
        ListenError::OutOfMemory
    }
}

impl<T: Drop> From<AllocFailed<T>> for ListenError {
    ghost from_gives = { λ _ e. e ≡ OutOfMemory };

    fn from(_: AllocFailed<T>) -> ListenError {
        ListenError::OutOfMemory
    }
}

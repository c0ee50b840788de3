//! Why bytes are no reply or no image.

ghost use Rattle.std.specs.Prelude.{◌≡◌};
ghost use Rattle.kd_types.specs.declared.reply_error.ReplyError.TheVariants.{OutOfMemory};

use std::alloc::{AllocError, AllocFailed};
use std::error::Error;
use std::fmt;

/// Why bytes that the bus wrote for a client can't be read.
#[derive(Clone, Copy, Debug, PartialEq, Eq)]
pub enum ReplyError {
    /// The format is broken at this byte: the start of the first word, item or run of bytes that
    /// breaks it.
    Bad {
        /// The place, from the front of the bytes.
        at: u64,
    },
    /// Memory ran out; nothing is said of the bytes.
    OutOfMemory,
}

impl fmt::Display for ReplyError {
    fn fmt<W: fmt::Write>(&self, f: &mut fmt::Formatter<W>) -> fmt::Result {
        match self {
            ReplyError::Bad { at } => write!(f, "the format is broken at byte {at}"),
            ReplyError::OutOfMemory => write!(f, "out of memory"),
        }
    }
}

impl Error for ReplyError {}

impl From<AllocError> for ReplyError {
    ghost from_gives = { λ _ e. e ≡ OutOfMemory };

    fn from(_: AllocError) -> ReplyError {
        ReplyError::OutOfMemory
    }
}

impl<T: Drop> From<AllocFailed<T>> for ReplyError {
    ghost from_gives = { λ _ e. e ≡ OutOfMemory };

    fn from(_: AllocFailed<T>) -> ReplyError {
        ReplyError::OutOfMemory
    }
}

//! Why a client came to its end.

ghost use Rattle.std.specs.Prelude.{◌≡◌};
ghost use Rattle.kd_client.specs.declared.error.ClientError.TheVariants.{LinkFault, OutOfMemory};

use kd_outside::Failed;
use std::alloc::{AllocError, AllocFailed};
use std::error::Error;
use std::fmt;

/// Why a call ended its client. Places are counted from the first byte that the client read.
#[derive(Clone, Copy, Debug, PartialEq, Eq)]
pub enum ClientError {
    /// A read or a write of the link failed.
    LinkFault,
    /// The link was read to its end before a reply or inside it.
    Ended {
        /// How many bytes were read in all.
        at: u64,
    },
    /// What was read is no reply to the command.
    BadReply {
        /// Where it begins, which is where the replies before it end.
        at: u64,
    },
    /// Memory ran out.
    OutOfMemory,
}

impl fmt::Display for ClientError {
    fn fmt<W: fmt::Write>(&self, f: &mut fmt::Formatter<W>) -> fmt::Result {
        match self {
            ClientError::LinkFault => write!(f, "the link failed"),
            ClientError::Ended { at } => write!(f, "the link ended after {at} bytes"),
            ClientError::BadReply { at } => write!(f, "what was read at byte {at} is no reply"),
            ClientError::OutOfMemory => write!(f, "out of memory"),
        }
    }
}

impl Error for ClientError {}

impl From<Failed> for ClientError {
    ghost from_gives = { λ _ e. e ≡ LinkFault };

    fn from(_: Failed) -> ClientError {
        ClientError::LinkFault
    }
}

impl From<AllocError> for ClientError {
    ghost from_gives = { λ _ e. e ≡ OutOfMemory };

    fn from(_: AllocError) -> ClientError {
        ClientError::OutOfMemory
    }
}

impl<T: Drop> From<AllocFailed<T>> for ClientError {
    ghost from_gives = { λ _ e. e ≡ OutOfMemory };

    fn from(_: AllocFailed<T>) -> ClientError {
        ClientError::OutOfMemory
    }
}

//! A share of sealed bytes.

ghost use Rattle.std.specs.Prelude.{◌≡◌, ◌≤◌, ℕ, List, length, IfOk, slice_range};

use bytes::Bytes;
use std::alloc::{AllocError, Global};
use std::marker::Model;

/// A share of sealed bytes: it owns them beside all other shares, and nobody changes them.
#[derive(Debug, Drop)]
pub struct Sealed {
    content: Bytes<Global>,
}

impl Model for Sealed {
    ghost Value = { List ℕ };

    ghost view = { λ s. s.content };
}

impl Clone for Sealed {
    ghost is_clone = { λ s copy. copy ≡ s };

    fn clone(&self) -> Result<Sealed, AllocError> {
        Ok(Sealed {
            content: self.content.clone()?,
        })
    }
}

impl Sealed {
    /// A share of all the bytes, which are moved in and not copied.
    pub fn of(bytes: Vec<u8>) -> Result<Sealed, AllocError>
        ensures whole { IfOk result (λ s. s ≡ bytes.items) }
    {
        match Bytes::from_vec(bytes) {
            Ok(content) => Ok(Sealed { content }),
            Err(_) => Err(AllocError),
        }
    }

    /// The bytes of the share.
    pub fn bytes(&self) -> &[u8]
        ensures { result.now ≡ self.now }
    {
        self.content.as_slice()
    }

    /// A share of the bytes from `start` up to `end`.
    pub fn part(&self, start: usize, end: usize) -> Result<Sealed, AllocError>
        requires order { start ≤ end }
        requires inside { end ≤ length self.now }
        ensures part { IfOk result (λ s. s ≡ slice_range self.now start end) }
    {
        Ok(Sealed {
            content: self.content.slice(start..end)?,
        })
    }
}

//! The path of a bind, which contracts see and the program doesn't keep.

ghost use Rattle.std.specs.Prelude.{◌≡◌, ℕ, List, [], ◌∷◌, ◌++◌};
ghost use Rattle.kd_outside.specs.Paths.{bytes_of};

use std::fmt;
use std::fmt::{Debug, Formatter};
use std::marker::Model;
use std::snapshot::Snapshot;

/// Bytes that are told one by one. Each step forgets those before it, and contracts keep them.
#[derive(Drop)]
enum Bytes {
    Empty,
    Longer { front: Snapshot<Bytes>, byte: u8 },
}

/// A path as contracts see it. It takes no memory.
#[derive(Drop)]
pub(crate) struct ToldPath {
    bytes: Bytes,
}

impl Model for ToldPath {
    ghost Value = { List ℕ };

    ghost view = { λ p. bytes_of p.bytes };
}

impl Debug for ToldPath {
    fn fmt<W: fmt::Write>(&self, f: &mut Formatter<W>) -> fmt::Result {
        f.debug_struct("ToldPath").finish_non_exhaustive()
    }
}

/// One byte more.
fn longer(front: Bytes, byte: u8) -> Bytes
    ensures { bytes_of result ≡ bytes_of front ++ byte ∷ [] }
{
    let front = Snapshot::of(&front);
    Bytes::Longer { front, byte }
}

impl ToldPath {
    /// No path yet.
    pub(crate) fn none() -> ToldPath
        ensures { result ≡ [] }
    {
        ToldPath {
            bytes: Bytes::Empty,
        }
    }

    /// This path.
    pub(crate) fn of(path: &str) -> ToldPath
        ensures { result ≡ path.now }
    {
        let mut bytes = Bytes::Empty;
        'bytes: for byte in path.as_bytes() {
            bytes = longer(bytes, *byte);
        }
        ToldPath { bytes }
    }
}

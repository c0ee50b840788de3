//! Small writes, gathered before they are handed on to what takes a system call each time.

ghost use Rattle.std.specs.Prelude.{◌≡◌, ◌≤◌, ◌<◌, ℕ, length, IfOk, vec_len, vec_capacity};
ghost use Rattle.std.specs.Io.{WritesAtMost};
ghost use Rattle.kd_outside.specs.Causes.{HasCause};
ghost use Rattle.kd_outside.specs.declared.gathered.TheConstants.{AT_ONCE};

use crate::traits::Failed;
use std::alloc::{AllocError, Global};
use std::io::Write;
use std::marker::Model;

/// How many bytes are moved at once: as many as a pipe holds.
pub(crate) const AT_ONCE: usize = 65_536;

/// The bytes that wait to be handed on, of which a contract sees how many they are.
#[derive(Drop)]
pub(crate) struct Gathered {
    bytes: Vec<u8>,
}

impl Model for Gathered {
    ghost Value = { ℕ };

    ghost view = { λ g. vec_len g.bytes };

    ghost invariant = { λ g. (vec_len g.bytes ≤ AT_ONCE) × (AT_ONCE ≤ vec_capacity g.bytes) };
}

impl Gathered {
    /// Nothing was gathered yet.
    pub(crate) fn make(alloc: Global) -> Result<Gathered, AllocError>
        ensures { IfOk result (λ g. g ≡ 0) }
    {
        Ok(Gathered {
            bytes: Vec::with_capacity(alloc, AT_ONCE)?,
        })
    }

    /// Writes what was gathered and forgets it, at a fault too.
    pub(crate) fn hand_on<W: Write>(
        &mut self,
        inner: &mut W,
        faults: &mut u64,
    ) -> Result<(), Failed>
        ensures empty { self.new ≡ 0 }
        ensures cause { HasCause faults.old faults.new result }
    {
        let written = inner.write_all(&self.bytes);
        self.bytes.clear();
        if written.is_err() {
            *faults = faults.saturating_add(1);
            return Err(Failed);
        }
        Ok(())
    }

    /// Gathers the piece, or as much of it as is gathered at once. What it has no room beside is
    /// handed on first.
    pub(crate) fn write<W: Write>(
        &mut self,
        inner: &mut W,
        faults: &mut u64,
        piece: &[u8],
    ) -> Result<usize, Failed>
        ensures bound { WritesAtMost result piece.now }
        ensures some { IfOk result (λ n. 0 < length piece.now → 0 < n) }
        ensures cause { HasCause faults.old faults.new result }
    {
        let count = piece.len().min(AT_ONCE);
        if count > AT_ONCE - self.bytes.len() {
            self.hand_on(inner, faults)?;
        }
        self.bytes
            .extend_from_slice(piece.split_at(count).0)
            .unwrap();
        Ok(count)
    }
}

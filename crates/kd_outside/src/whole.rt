//! Reading to the end and writing whole pieces.

ghost use Rattle.std.specs.Prelude.{◌≡◌, ◌≤◌, ◌<◌, ◌+◌, ◌-◌, ◌^◌, List, ℕ, length, take, IfOk, OnOk, OnErr, IsErrOf};
ghost use Rattle.std.specs.Io.KnownBytes.{Appends, Consumes, IsAtEnd};
ghost use Rattle.kd_outside.specs.Causes.{Rose, HasCause};
ghost use Rattle.kd_outside.specs.declared.whole.InputError.TheVariants.{Fault, Memory};

use crate::traits::{Failed, Sink, Source};
use std::alloc::{AllocError, Global};

/// Why a source wasn't read to its end.
#[derive(Clone, Copy, Debug, PartialEq, Eq)]
pub enum InputError {
    /// A read failed.
    Fault,
    /// There was more than the limit.
    TooMuch,
    /// Memory ran out.
    Memory,
}

impl From<Failed> for InputError {
    ghost from_gives = { λ _ e. e ≡ Fault };

    fn from(_: Failed) -> InputError {
        InputError::Fault
    }
}

impl From<AllocError> for InputError {
    ghost from_gives = { λ _ e. e ≡ Memory };

    fn from(_: AllocError) -> InputError {
        InputError::Memory
    }
}

/// All the bytes of a source, where they are at most `limit`.
pub fn read_to_end<S: Source>(
    alloc: Global,
    source: &mut S,
    limit: usize,
) -> Result<Vec<u8>, InputError>
    requires { limit < 2 ^ 63 }
    // The bytes are those that the source had left, and it is at its end.
    ensures taken { IfOk result (λ v. Consumes (S.left source.old) (S.left source.new) v.items) }
    ensures end { OnOk result (IsAtEnd (S.left source.new)) }
    ensures within { IfOk result (λ v. length v.items ≤ limit) }
    ensures fault { IsErrOf result InputError.Fault
        → Rose (S.faults source.old) (S.faults source.new) }
    ensures too_much { IsErrOf result InputError.TooMuch
        → (bytes : List ℕ) × Consumes (S.left source.old) (S.left source.new) bytes
        × (length bytes ≡ limit + 1) }
    ensures kept { OnOk result (S.faults source.new ≡ S.faults source.old) }
    ensures later { S.faults source.old ≤ S.faults source.new }
    ensures beside { S.beside source.new ≡ S.beside source.old }
{
    let mut bytes = Vec::new(alloc);
    let mut buffer = [0u8; 16_384];
    'reading: while bytes.len() <= limit {
        let room = buffer.len().min(limit + 1 - bytes.len());
        let (part, _) = buffer.split_at_mut(room);
        let count = source.read(part)?;
        if count == 0 {
            return Ok(bytes);
        }
        bytes.extend_from_slice(part.split_at(count).0)?;
    }
    Err(InputError::TooMuch)
}

/// Writes all of a piece; a fault leaves a front of it written.
pub fn write_whole<K: Sink>(sink: &mut K, piece: &[u8]) -> Result<(), Failed>
    ensures ok { OnOk result (Appends (K.held sink.old) (K.held sink.new) piece.now) }
    ensures err { OnErr result
        ((n : ℕ) × Appends (K.held sink.old) (K.held sink.new) (take n piece.now)) }
    ensures cause { HasCause (K.faults sink.old) (K.faults sink.new) result }
    ensures beside { K.beside sink.new ≡ K.beside sink.old }
{
    let mut rest = piece;
    'writing: while !rest.is_empty() {
        let count = sink.write(rest)?;
        rest = rest.split_at(count).1;
    }
    Ok(())
}

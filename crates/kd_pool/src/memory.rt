//! The bytes of a pool.

ghost use Rattle.std.specs.Prelude.{◌≡◌, ◌+◌, ◌≤◌, ◌++◌, drop, length, take, IfOk, replicate};
ghost use Rattle.kd_acts.specs.Steps.{written};

use std::alloc::{AllocError, Global};

/// What a pool has at most: a mebibyte, as a HELLO may ask for.
pub const LARGEST: u32 = 1_048_576;

/// A memory of so many zeros.
pub fn zeros(alloc: Global, size: u32) -> Result<Vec<u8>, AllocError>
    ensures { IfOk result (λ m. m.items ≡ replicate size 0) }
{
    vec![in alloc; 0u8; size as usize]
}

/// Writes two pieces one behind the other.
pub fn write(memory: &mut Vec<u8>, at: usize, first: &[u8], second: &[u8])
    requires inside { at + (length first.now + length second.now) ≤ length memory.old.items }
    ensures { memory.new.items ≡ written memory.old.items at (first.now ++ second.now) }
{
    write_piece(memory, at, first);
    write_piece(memory, at + first.len(), second);
}

fn write_piece(memory: &mut Vec<u8>, at: usize, piece: &[u8])
    requires inside { at + length piece.now ≤ length memory.old.items }
    ensures { memory.new.items ≡ written memory.old.items at piece.now }
{
    memory[at..at + piece.len()].copy_from_slice(piece);
}

/// The bytes over a range.
pub fn range(memory: &[u8], at: usize, len: usize) -> &[u8]
    requires inside { at + len ≤ length memory.now }
    ensures { result.now ≡ take len (drop at memory.now) }
{
    let (_, behind) = memory.split_at(at);
    let (range, _) = behind.split_at(len);
    range
}

/// A copy of the bytes over a range.
pub fn copy(alloc: Global, memory: &[u8], at: usize, len: usize) -> Result<Vec<u8>, AllocError>
    requires inside { at + len ≤ length memory.now }
    ensures { IfOk result (λ v. v.items ≡ take len (drop at memory.now)) }
{
    Vec::from_slice(alloc, range(memory, at, len))
}

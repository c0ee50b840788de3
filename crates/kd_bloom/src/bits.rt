//! A set of bits.

ghost use Rattle.std.specs.Prelude.{◌≡◌, ◌-◌, ◌^◌, List, ℕ, length, min, take, IfOk};
ghost use Rattle.kd_bloom.specs.Bits.{passes};
ghost use Rattle.kd_bloom.specs.Packed.{IsPacked, Packs, unpacked};

use crate::words::{covers, pack};
use std::alloc::{AllocError, Global};
use std::marker::Model;

/// A set of bits, as a filter is. A contract sees its bytes.
#[derive(Debug, Drop)]
pub struct Bits {
    words: Vec<u64>,
    size: usize,
}

impl Model for Bits {
    ghost Value = { List ℕ };

    ghost view = { λ b. take b.size (unpacked b.words.items) };

    ghost invariant = { λ b. IsPacked b.size b.words.items };
}

impl Bits {
    /// The set that these bytes spell.
    pub fn of(alloc: Global, bytes: &[u8]) -> Result<Bits, AllocError>
        ensures { IfOk result (λ bits. bits ≡ bytes.now) }
    {
        Ok(Bits {
            words: pack(alloc, bytes)?,
            size: bytes.len(),
        })
    }

    /// The number of bytes; the greatest number of 32 bits where there are more.
    pub fn size(&self) -> u32
        ensures { result ≡ min (length self.now) (2 ^ 32 - 1) }
    {
        self.size.min(u32::MAX as usize) as u32
    }

    /// The bytes packed into words, the last one filled up with zeros.
    pub(crate) fn words(&self) -> &[u64]
        ensures { Packs result.now self.now }
    {
        &self.words
    }
}

/// Whether every bit of the mask is set in the filter. Both have the same size.
pub fn passes(filter: &Bits, mask: &Bits) -> bool
    requires equal_sizes { length filter.now ≡ length mask.now }
    ensures { result ≡ passes filter.now mask.now }
{
    covers(filter.words(), mask.words())
}

//! Masks: what a rule asks of filters, generation by generation.

ghost use Rattle.std.specs.Prelude.{◌≡◌, ◌*◌, ◌/◌, ◌↔◌, List, ℕ, length, not, IfOk, IsTrue, IsErrOf};
ghost use Rattle.kd_bloom.specs.declared.mask.MaskError.TheVariants.{OutOfMemory};
ghost use Rattle.kd_bloom.specs.Bits.{has_filter_size, meets, pieces};
ghost use Rattle.kd_bloom.specs.Bloom.{AreAmong, IsFilter, IsMask, is_mask_length};
ghost use Rattle.kd_bloom.specs.Packed.{IsWide, unpacked};

use crate::bits::Bits;
use crate::param::Param;
use crate::words::{covers, pack};
use std::alloc::{AllocError, Global};
use std::marker::Model;

/// Why bytes are no mask.
#[derive(Clone, Copy, Debug, PartialEq, Eq)]
pub enum MaskError {
    /// Their length isn't 1, 2, 3 or 4 times the size of the bus's filters.
    Size,
    /// Memory ran out.
    OutOfMemory,
}

impl From<AllocError> for MaskError {
    ghost from_gives = { λ _ e. e ≡ OutOfMemory };

    fn from(_: AllocError) -> MaskError {
        MaskError::OutOfMemory
    }
}

/// A mask of one to four generations, joined. A contract sees the list of its generations, each as
/// its bytes.
#[derive(Debug, Drop)]
pub struct Mask {
    words: Vec<u64>,
    /// How many words a generation has.
    width: usize,
    generations: usize,
}

impl Model for Mask {
    ghost Value = { List (List ℕ) };

    ghost view = { λ m. pieces m.generations (8 * m.width) (unpacked m.words.items) };

    ghost invariant = { λ m. IsWide m.generations m.width m.words.items };
}

impl Mask {
    /// The mask whose generations these bytes are, the first one first.
    pub fn of(alloc: Global, bytes: &[u8], param: Param) -> Result<Mask, MaskError>
        ensures split { IfOk result
            (λ mask. mask ≡ pieces (length bytes.now / param.size) param.size bytes.now) }
        ensures size { IsErrOf result MaskError.Size
            ↔ IsTrue (not (is_mask_length param.size (length bytes.now))) }
    {
        let size = param.size as usize;
        let generations = bytes.len() / size;
        if bytes.len() % size != 0 {
            return Err(MaskError::Size);
        }
        if generations < 1 || 4 < generations {
            return Err(MaskError::Size);
        }
        Ok(Mask {
            words: pack(alloc, bytes)?,
            width: size / 8,
            generations,
        })
    }

    /// Whether each generation has so many bytes.
    pub fn is_sized(&self, size: u32) -> bool
        ensures { result ≡ has_filter_size size self.now }
    {
        8 * self.width == size as usize
    }
}

/// Whether a filter of this generation meets the mask: it passes the mask's generation of that
/// number, or the last one where the mask has no such generation. The filter has the size of the
/// mask's generations.
///
/// A filter that has all strings of a mask meets it, whatever the generations are.
pub fn meets(filter: &Bits, generation: u64, mask: &Mask) -> bool
    requires equal_sizes { IsTrue (has_filter_size (length filter.now) mask.now) }
    ensures value { result ≡ meets filter.now generation mask.now }
    ensures never_lost { (size hashes : ℕ) (strings asked : List (List ℕ))
        → IsFilter size hashes generation strings filter.now → IsMask size hashes asked mask.now
        → AreAmong asked strings → IsTrue result }
{
    let last = mask.generations - 1;
    let start = last.min(generation as usize) * mask.width;
    covers(filter.words(), &mask.words[start..start + mask.width])
}

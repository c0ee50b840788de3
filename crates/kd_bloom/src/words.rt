//! Bytes packed into words of 64 bits, and the test on words.

ghost use Rattle.std.specs.Prelude.{◌≡◌, ◌≤◌, ◌++◌, ◌-◌, length, replicate, IfOk};
ghost use Rattle.kd_bloom.specs.Bits.{passes};
ghost use Rattle.kd_bloom.specs.Packed.{Packs, packed_word, blocks_fit, unpacked, words_fit};

use byteorder::{ByteOrder, LittleEndian};
use std::alloc::{AllocError, Global};

/// The words of a mask of 64 bytes, which are tested together.
const BLOCK: usize = 8;

/// The bytes as words, the last one filled up with zeros.
pub(crate) fn pack(alloc: Global, bytes: &[u8]) -> Result<Vec<u64>, AllocError>
    ensures { IfOk result (λ words. Packs words.items bytes.now) }
{
    let mut words = Vec::with_capacity(alloc, bytes.len().div_ceil(8))?;
    let mut rest = bytes;
    'words: while rest.len() >= 8 {
        let (first, behind) = rest.split_at(8);
        words.push(LittleEndian::read_u64(first))?;
        rest = behind;
    }
    if !rest.is_empty() {
        words.push(last_word(rest))?;
    }
    Ok(words)
}

/// A word that holds fewer than eight bytes.
fn last_word(bytes: &[u8]) -> u64
    requires { length bytes.now ≤ 8 }
    ensures { packed_word result ≡ bytes.now ++ replicate (8 - length bytes.now) 0 }
{
    let mut filled = [0u8; 8];
    filled[..bytes.len()].copy_from_slice(bytes);
    LittleEndian::read_u64(&filled)
}

/// Whether each bit of the mask's words is set in the filter's.
pub(crate) fn covers(filter: &[u64], mask: &[u64]) -> bool
    requires { length filter.now ≡ length mask.now }
    ensures { result ≡ passes (unpacked filter.now) (unpacked mask.now) }
{
    let (filter_blocks, filter_rest) = filter.as_chunks::<BLOCK>();
    let (mask_blocks, mask_rest) = mask.as_chunks::<BLOCK>();
    blocks_cover(filter_blocks, mask_blocks) && each_covers(filter_rest, mask_rest)
}

/// The same of whole blocks.
fn blocks_cover(filter: &[[u64; BLOCK]], mask: &[[u64; BLOCK]]) -> bool
    requires { length filter.now ≡ length mask.now }
    ensures { result ≡ blocks_fit filter.now mask.now }
{
    'each: for i in 0..mask.len() {
        if !block_covers(&filter[i], &mask[i]) {
            return false;
        }
    }
    true
}

/// The same of one block, with no way out between its words, so that the compiler may test several
/// at once.
fn block_covers(filter: &[u64; BLOCK], mask: &[u64; BLOCK]) -> bool
    ensures { result ≡ words_fit filter.now mask.now }
{
    let mut lacking = 0;
    'words: for i in 0..BLOCK {
        lacking |= !filter[i] & mask[i];
    }
    lacking == 0
}

/// The same of fewer words than a block has, one by one.
fn each_covers(filter: &[u64], mask: &[u64]) -> bool
    requires { length filter.now ≡ length mask.now }
    ensures { result ≡ words_fit filter.now mask.now }
{
    'each: for i in 0..mask.len() {
        if filter[i] & mask[i] != mask[i] {
            return false;
        }
    }
    true
}

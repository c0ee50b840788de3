//! The bits of a string.

ghost use Rattle.std.specs.Prelude.{◌≡◌, ◌<◌, ◌≤◌, ◌*◌, ◌||◌, ◌==◌, ℕ, length};
ghost use Rattle.kd_bloom.specs.Bits.{bit_is_set, pieces};
ghost use Rattle.kd_bloom.specs.Bloom.{AddsBits, Marked, digest_bits, hash_count};

use crate::param::Param;
use byteorder::{BigEndian, ByteOrder};

/// How many hashes of a string count in a generation.
pub(crate) fn hash_count(hashes: u32, generation: u64) -> usize
    ensures { result ≡ hash_count hashes generation }
{
    (hashes as u64).saturating_add(generation).min(8) as usize
}

/// Sets the bits of the first so many hashes of the string that has this digest.
pub(crate) fn mark(bytes: &mut [u8], digest: &[u8; 32], count: usize)
    requires some { 0 < length bytes.old }
    requires few { length bytes.old ≤ 512 }
    requires words { count ≤ 8 }
    ensures length { length bytes.new ≡ length bytes.old }
    ensures bits { AddsBits (digest_bits (length bytes.old) count digest.now) bytes.old bytes.new }
{
    let bits = 8 * bytes.len() as u32;
    'hashes: for j in 0..count {
        let word = BigEndian::read_u32(digest.split_at(4 * j).1);
        set_bit(bytes, (word % bits) as usize);
    }
}

/// Sets the bits of the string that has this digest in each of the generations that the bytes join.
pub(crate) fn mark_generations(
    bytes: &mut [u8],
    param: Param,
    generations: usize,
    digest: &[u8; 32],
)
    requires joined { length bytes.old ≡ generations * param.size }
    requires few { generations ≤ 4 }
    ensures length { length bytes.new ≡ length bytes.old }
    ensures marked { Marked param.size param.hashes generations digest.now
        (pieces generations param.size bytes.old) (pieces generations param.size bytes.new) }
{
    let size = param.size as usize;
    'generations: for generation in 0..generations {
        let start = generation * size;
        let count = hash_count(param.hashes, generation as u64);
        mark(&mut bytes[start..start + size], digest, count);
    }
}

/// Sets one bit.
fn set_bit(bytes: &mut [u8], bit: usize)
    requires { bit < 8 * length bytes.old }
    ensures length { length bytes.new ≡ length bytes.old }
    ensures bits { (b : ℕ) → bit_is_set bytes.new b ≡ (bit_is_set bytes.old b || b == bit) }
{
    bytes[bit / 8] |= 1 << (bit % 8);
}

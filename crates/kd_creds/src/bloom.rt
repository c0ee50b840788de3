//! How the Bloom filters of a bus may be set up.

ghost use Rattle.std.specs.Prelude.{◌≡◌};
ghost use Rattle.kd_model.specs.Filters.{is_bloom_size, is_hash_count};

/// Whether a bus may have Bloom filters of so many bytes.
pub(crate) fn is_bloom_size(size: u32) -> bool
    ensures { result ≡ is_bloom_size size }
{
    size >= 8 && size <= 512 && size % 8 == 0
}

/// Whether a string may set so many bits of a bus's Bloom filters.
pub(crate) fn is_hash_count(hashes: u32) -> bool
    ensures { result ≡ is_hash_count hashes }
{
    hashes >= 1 && hashes <= 8
}

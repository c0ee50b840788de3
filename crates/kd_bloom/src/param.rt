//! The shape of a bus's filters.

ghost use Rattle.std.specs.Prelude.{◌≡◌, ◌≤◌, ◌↔◌, ◌%◌, IsTrue, IsSome, IfSome};
ghost use Rattle.kd_bloom.specs.Bloom.{is_param};

/// What all filters and masks of a bus have in common, as its creator chose it.
#[derive(Clone, Copy, Debug, PartialEq, Eq)]
pub struct Param {
    /// The bytes of a filter: a multiple of 8, so that it is a number of whole words, from 8 to
    /// 512.
    pub size: u32,
    /// How many bits a string sets in generation 0: 1 to 8, since a SHA-256 digest has eight words.
    pub hashes: u32,
    ghost whole_words: { size % 8 ≡ 0 },
    ghost not_empty: { 8 ≤ size },
    ghost at_most_512: { size ≤ 512 },
    ghost one_hash: { 1 ≤ hashes },
    ghost at_most_8: { hashes ≤ 8 },
}

impl Param {
    /// The parameter of this size in bytes and so many hashes; None where one is out of its range.
    pub fn of(size: u32, hashes: u32) -> Option<Param>
        ensures in_range { IsSome result ↔ IsTrue (is_param size hashes) }
        ensures value { IfSome result (λ p. (p.size ≡ size) × (p.hashes ≡ hashes)) }
    {
        if size % 8 == 0 && 8 <= size && size <= 512 && 1 <= hashes && hashes <= 8 {
            Some(Param { size, hashes })
        } else {
            None
        }
    }
}

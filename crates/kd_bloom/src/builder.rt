//! Filters made of strings.

ghost use Rattle.std.specs.Prelude.{◌≡◌, ◌++◌, [], ◌∷◌, List, ℕ, IfOk};
ghost use Rattle.kd_bloom.specs.Building.{FilterSoFar, HasStrings};

use crate::hashing::{hash_count, mark};
use crate::param::Param;
use sha2::{Digest, Sha256};
use std::alloc::{AllocError, Global};
use std::marker::Model;

/// Makes the filter of a message: add its strings, one by one. The bus itself never does.
#[derive(Debug, Drop)]
pub struct FilterBuilder {
    param: Param,
    generation: u64,
    bytes: Vec<u8>,
}

impl Model for FilterBuilder {
    ghost use Rattle.std.specs.Prelude.{◌≡◌, length};
    ghost use Rattle.kd_bloom.specs.Building.{FilterSoFar};

    ghost Value = { FilterSoFar };

    ghost view = { λ f.
        record {
          size = f.param.size;
          hashes = f.param.hashes;
          generation = f.generation;
          bytes = f.bytes.items;
        } };

    ghost invariant = { λ f. length f.bytes.items ≡ f.param.size };
}

impl FilterBuilder {
    /// A filter of no string.
    pub fn make(alloc: Global, param: Param, generation: u64) -> Result<FilterBuilder, AllocError>
        ensures shape { IfOk result (λ f.
            (f.size ≡ param.size) × (f.hashes ≡ param.hashes)
            × (f.generation ≡ generation)) }
        ensures empty { IfOk result (λ f. HasStrings f []) }
    {
        Ok(FilterBuilder {
            param,
            generation,
            bytes: vec![in alloc; 0u8; param.size as usize]?,
        })
    }

    /// Adds a string.
    pub fn add(&mut self, string: &[u8])
        ensures shape { self.new ≡ record self.old { bytes = self.new.bytes } }
        ensures one_more { (strings : List (List ℕ)) → HasStrings self.old strings
            → HasStrings self.new (strings ++ string.now ∷ []) }
    {
        let digest = Sha256::digest(string);
        let count = hash_count(self.param.hashes, self.generation);
        mark(&mut self.bytes, &digest, count);
    }

    /// The filter's bytes.
    pub fn finish(self) -> Vec<u8>
        ensures { result.items ≡ self.bytes }
    {
        self.bytes
    }
}

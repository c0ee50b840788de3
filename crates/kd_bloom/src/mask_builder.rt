//! Masks made of strings.

ghost use Rattle.std.specs.Prelude.{◌≡◌, ◌≤◌, ◌*◌, ◌++◌, [], ◌∷◌, List, ℕ, length, IfOk};
ghost use Rattle.kd_bloom.specs.Bits.{pieces};
ghost use Rattle.kd_bloom.specs.Building.{MaskSoFar, MasksStrings};

use crate::hashing::mark_generations;
use crate::param::Param;
use sha2::{Digest, Sha256};
use std::alloc::{AllocError, Global};
use std::marker::Model;

/// Makes the mask of a rule: add the strings that it asks for, one by one.
#[derive(Debug, Drop)]
pub struct MaskBuilder {
    param: Param,
    generations: usize,
    /// The generations joined.
    bytes: Vec<u8>,
}

impl Model for MaskBuilder {
    ghost use Rattle.std.specs.Prelude.{◌≡◌, ◌*◌, ◌≤◌, length};
    ghost use Rattle.kd_bloom.specs.Bits.{pieces};
    ghost use Rattle.kd_bloom.specs.Building.{MaskSoFar};

    ghost Value = { MaskSoFar };

    ghost view = { λ m.
        record {
          size = m.param.size;
          hashes = m.param.hashes;
          generations = pieces m.generations m.param.size m.bytes.items;
        } };

    ghost invariant = { λ m.
        (length m.bytes.items ≡ m.generations * m.param.size) × (m.generations ≤ 4) };
}

impl MaskBuilder {
    /// A mask of one to four generations that asks for no string.
    pub fn make(alloc: Global, param: Param, generations: u32) -> Result<MaskBuilder, AllocError>
        requires { (1 ≤ generations) × (generations ≤ 4) }
        ensures shape { IfOk result (λ m.
            (m.size ≡ param.size) × (m.hashes ≡ param.hashes)
            × (length m.generations ≡ generations)) }
        ensures empty { IfOk result (λ m. MasksStrings m []) }
    {
        let generations = generations as usize;
        Ok(MaskBuilder {
            param,
            generations,
            bytes: vec![in alloc; 0u8; generations * param.size as usize]?,
        })
    }

    /// Adds a string.
    pub fn add(&mut self, string: &[u8])
        ensures shape { (self.new.size ≡ self.old.size) × (self.new.hashes ≡ self.old.hashes)
            × (length self.new.generations ≡ length self.old.generations) }
        ensures one_more { (strings : List (List ℕ)) → MasksStrings self.old strings
            → MasksStrings self.new (strings ++ string.now ∷ []) }
    {
        let digest = Sha256::digest(string);
        mark_generations(&mut self.bytes, self.param, self.generations, &digest);
    }

    /// The mask's bytes: its generations joined, the first one first.
    pub fn finish(self) -> Vec<u8>
        ensures joined { pieces (length self.generations) self.size result.items
            ≡ self.generations }
        ensures length { length result.items ≡ length self.generations * self.size }
    {
        self.bytes
    }
}

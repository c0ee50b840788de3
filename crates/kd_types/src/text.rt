//! Bytes, seen by every contract as a list.

ghost use Rattle.std.specs.Prelude.{◌≡◌, ℕ, List, IfOk, [], nat_eq};
ghost use Rattle.std.specs.Cmp.Lexicographic.{pointwise};
ghost use Rattle.std.specs.Cmp.Rules.{comparing};
ghost use Rattle.std.proofs.Common.{rules};

use std::alloc::{AllocError, Global};
use std::marker::Model;

/// A short text: a name, a label, a description, a path.
#[derive(Debug, Drop)]
pub struct Text {
    content: Vec<u8>,
}

impl Model for Text {
    ghost Value = { List ℕ };

    ghost view = { λ t. t.content.items };
}

impl PartialEq for Text {
    ghost eq = { pointwise nat_eq };

    ghost laws = { Prim.search (comparing, rules) };

    fn eq(&self, other: &Text) -> bool {
        self.content == other.content
    }
}

impl Eq for Text {
    ghost laws = { Prim.search (comparing, rules) };
}

impl Text {
    /// A copy of the bytes.
    pub fn of(alloc: Global, bytes: &[u8]) -> Result<Text, AllocError>
        ensures copied { IfOk result (λ t. t ≡ bytes.now) }
    {
        Ok(Text {
            content: Vec::from_slice(alloc, bytes)?,
        })
    }

    /// The bytes of the text.
    pub fn bytes(&self) -> &[u8]
        ensures { result.now ≡ self.now }
    {
        &self.content
    }
}

/// Bytes that are handed on whole: a payload, a mask, an image.
#[derive(Debug, Drop)]
pub struct Blob {
    content: Vec<u8>,
}

impl Model for Blob {
    ghost Value = { List ℕ };

    ghost view = { λ b. b.content.items };
}

impl PartialEq for Blob {
    ghost eq = { pointwise nat_eq };

    ghost laws = { Prim.search (comparing, rules) };

    fn eq(&self, other: &Blob) -> bool {
        self.content == other.content
    }
}

impl Eq for Blob {
    ghost laws = { Prim.search (comparing, rules) };
}

impl Blob {
    /// The blob of these bytes, which are moved and not copied.
    pub fn of(bytes: Vec<u8>) -> Blob
        ensures { result ≡ bytes.items }
    {
        Blob { content: bytes }
    }

    /// The blob without bytes; it takes no memory.
    pub fn empty(alloc: Global) -> Blob
        ensures { result ≡ [] }
    {
        Blob {
            content: Vec::new(alloc),
        }
    }

    /// The bytes of the blob.
    pub fn bytes(&self) -> &[u8]
        ensures { result.now ≡ self.now }
    {
        &self.content
    }

    /// The bytes, moved out.
    pub fn into_vec(self) -> Vec<u8>
        ensures { result.items ≡ self }
    {
        self.content
    }
}

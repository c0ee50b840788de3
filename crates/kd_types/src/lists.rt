//! Lists of texts and of blobs, seen by every contract as lists of lists of bytes.

ghost use Rattle.std.specs.Prelude.{◌≡◌, ℕ, List};

use crate::text::{Blob, Text};
use std::marker::Model;

/// Texts in order.
#[derive(Debug, Drop)]
pub struct TextList {
    members: Vec<Text>,
}

impl Model for TextList {
    ghost Value = { List (List ℕ) };

    ghost view = { λ l. l.members.items };
}

impl TextList {
    /// The list of these texts, which are moved and not copied.
    pub fn of(texts: Vec<Text>) -> TextList
        ensures { result ≡ texts.items }
    {
        TextList { members: texts }
    }

    /// The texts in order.
    pub fn texts(&self) -> &[Text]
        ensures { result.now ≡ self.now }
    {
        &self.members
    }
}

/// Blobs in order.
#[derive(Debug, Drop)]
pub struct BlobList {
    members: Vec<Blob>,
}

impl Model for BlobList {
    ghost Value = { List (List ℕ) };

    ghost view = { λ l. l.members.items };
}

impl BlobList {
    /// The list of these blobs, which are moved and not copied.
    pub fn of(blobs: Vec<Blob>) -> BlobList
        ensures { result ≡ blobs.items }
    {
        BlobList { members: blobs }
    }

    /// The blobs in order.
    pub fn blobs(&self) -> &[Blob]
        ensures { result.now ≡ self.now }
    {
        &self.members
    }
}

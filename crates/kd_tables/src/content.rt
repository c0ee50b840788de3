//! What is written into a slice that was offered.

ghost use Rattle.std.specs.Prelude.{◌≡◌, ◌++◌};
ghost use Rattle.kd_acts.specs.State as pool;
ghost use Rattle.kd_tables.specs.Drafts.{empty_content};

use bytes::Bytes;
use kd_seal::Sealed;
use kd_types::Blob;
use std::alloc::Global;
use std::marker::Model;

/// The message for one receiver: its own prefix, the payloads that all receivers share, the share
/// of sealed bytes that it takes along, and its priority.
#[derive(Debug, Drop)]
pub struct Content {
    /// Header, metadata and items.
    pub prefix: Blob,
    /// The payloads, each with its padding.
    pub payload: Bytes<Global>,
    /// The sealed bytes that it takes along, if any.
    pub shared: Option<Sealed>,
    /// A lower number is more urgent.
    pub priority: i64,
}

impl Model for Content {
    ghost Value = { pool.Content };

    ghost view = { λ c.
        record {
          image = c.prefix ++ c.payload;
          shared = c.shared;
          priority = c.priority;
        } };
}

impl Content {
    /// A content without bytes; it takes no memory.
    pub fn empty(alloc: Global) -> Content
        ensures { result ≡ empty_content }
    {
        Content {
            prefix: Blob::empty(alloc),
            payload: Bytes::new(),
            shared: None,
            priority: 0,
        }
    }
}

//! What rules are asked about.

use kd_bloom::Bits;
use kd_types::{ConnId, OwnerChange, Text};

/// A message or a notice, as rules see it.
#[derive(Clone, Copy, Debug)]
pub enum Subject<'a> {
    /// A broadcast.
    Message {
        /// The sender.
        source: ConnId,
        /// The names that the sender owns.
        names: &'a [Text],
        filter: &'a Bits,
        /// The generation of the filter.
        generation: u64,
    },
    /// A connection came.
    IdAdd {
        id: ConnId,
    },
    /// A connection went.
    IdRemove {
        id: ConnId,
    },
    /// A name got an owner.
    NameAdd {
        change: &'a OwnerChange,
    },
    /// A name lost its owner.
    NameRemove {
        change: &'a OwnerChange,
    },
    /// A name went from one owner to another.
    NameChange {
        change: &'a OwnerChange,
    },
}

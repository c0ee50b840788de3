//! An offer that was placed, until it is published.

ghost use Rattle.kd_world.specs.State as pendings;

use kd_desk::Content;
use kd_types::{Seat, SliceNo};
use std::marker::Model;

/// A message that has its slice reserved in a receiver's pool, and isn't written there yet.
#[derive(Debug, Drop)]
pub struct Pending {
    pub seat: Seat,
    /// The generation that the pool had when the slice was reserved.
    pub generation: u64,
    pub number: SliceNo,
    pub content: Content,
}

impl Model for Pending {
    ghost Value = { pendings.Pending };

    ghost view = { λ p.
        record {
          seat = p.seat;
          generation = p.generation;
          number = p.number;
          content = p.content;
        } };
}

/// What a pool answers to a publishing.
#[derive(Clone, Copy, Debug, PartialEq, Eq)]
pub enum Published {
    /// The message is queued.
    Placed,
    /// Its slice is gone, since the pool was closed in between; nothing changed.
    Gone,
}

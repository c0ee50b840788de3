//! The pool, and what it counts.

ghost use Rattle.std.specs.Prelude.{◌≡◌, ◌≤◌, ◌%◌, ◌&&◌, IfOk};
ghost use Rattle.kd_model.specs.Slices.{used};
ghost use Rattle.kd_model.specs.Words.{some_of};
ghost use Rattle.kd_acts.specs.Sound.{IsSoundPool};
ghost use Rattle.kd_acts.specs.Lasting.{is_handed};
ghost use Rattle.kd_acts.specs.State.{book_of, is_pending, slot_numbered, slots};
ghost use Rattle.kd_acts.specs.Steps.{new_pool, reserved_length};
ghost use Rattle.kd_pool.specs.declared.memory.TheConstants.{LARGEST};

use crate::{memory, sealed, table};
use kd_acts::Slot;
use kd_links::Links;
use kd_model::{SLICES, SliceBook, SliceNo};
use kd_order::Queue;
use kd_seal::Sealed;
use std::alloc::{AllocError, Global};
use std::marker::Model;

/// An open pool. No call but `make` and `read` takes memory, and the pool's bytes are written by
/// `publish`, `post` and `settle` alone.
#[derive(Debug, Drop)]
pub struct Pool {
    pub(crate) memory: Vec<u8>,
    /// Where the slices lie.
    pub(crate) book: Links,
    /// The slices by rising offset.
    pub(crate) slots: Vec<Slot>,
    /// Those of them that wait, in order of arrival.
    pub(crate) queue: Queue,
    /// The shares of sealed bytes that slices hold, by their numbers.
    pub(crate) shares: Vec<Option<Sealed>>,
    pub(crate) next_arrival: u64,
    pub(crate) dropped: u64,
    pub(crate) offered: u64,
}

impl Model for Pool {
    ghost use Rattle.std.specs.Prelude.{map, vec_capacity};
    ghost use Rattle.kd_acts.specs.State as state;
    ghost use Rattle.kd_pool.specs.Table.{IsPoolKept, slice_shown};

    ghost Value = { state.Pool };

    ghost view = { λ p.
        record {
          size = p.book.size;
          memory = p.memory.items;
          slices = map (slice_shown p.memory.items p.shares.items) p.slots.items;
          next_arrival = p.next_arrival;
          dropped = p.dropped;
          offered = p.offered;
        } };

    ghost invariant = { λ p.
        IsPoolKept p.memory.items p.book p.slots.items p.queue p.shares.items p.next_arrival
        (vec_capacity p.slots) };
}

impl Pool {
    /// An empty pool of `size` bytes, all zeros; `size` is 0, or 256 to 1,048,576 and a multiple of
    /// 8.
    pub fn make(alloc: Global, size: u32) -> Result<Pool, AllocError>
        requires eights { size % 8 ≡ 0 }
        requires most { size ≤ LARGEST }
        ensures { IfOk result (λ p. p ≡ new_pool size) }
    {
        Ok(Pool {
            memory: memory::zeros(alloc, size)?,
            book: Links::make(alloc, size)?,
            slots: Vec::with_capacity(alloc, SLICES as usize)?,
            queue: Queue::make(alloc)?,
            shares: sealed::none(alloc)?,
            next_arrival: 0,
            dropped: 0,
            offered: 0,
        })
    }

    /// How many bytes it has.
    pub fn size(&self) -> u32
        ensures size { result ≡ self.now.size }
        ensures most { self.now.size ≤ LARGEST }
    {
        self.memory.len() as u32
    }

    /// How many bytes all slices take, freed ones that aren't swept included.
    pub fn used(&self) -> u32
        ensures sum { result ≡ used (book_of self.now) }
        ensures sound { IsSoundPool self.now }
    {
        self.book.used()
    }

    /// How many offers were made, placed or not.
    pub fn offered(&self) -> u64
        ensures { result ≡ self.now.offered }
    {
        self.offered
    }

    /// How many messages were missed since a receive last told their count.
    pub fn dropped(&self) -> u64
        ensures { result ≡ self.now.dropped }
    {
        self.dropped
    }

    /// How many messages were published.
    pub fn published(&self) -> u64
        ensures { result ≡ self.now.next_arrival }
    {
        self.next_arrival
    }

    /// The length of a reserved slice, `None` for any other number: what a message has to have that
    /// is published into it.
    pub fn reserved(&self, number: SliceNo) -> Option<u32>
        ensures { result ≡ reserved_length number self.now }
    {
        table::reserved_length(&self.slots, number)
    }

    /// Whether a slice is reserved, queued or peeked at.
    pub fn waiting(&self) -> bool
        ensures { result ≡ some_of is_pending (slots self.now) }
    {
        table::some_pending(&self.slots)
    }

    /// Whether the slice of a number is received and not given back.
    pub fn is_handed(&self, number: SliceNo) -> bool
        ensures { result
            ≡ some_of (λ s. slot_numbered number s && is_handed s) (slots self.now) }
    {
        table::is_handed(&self.slots, number)
    }
}

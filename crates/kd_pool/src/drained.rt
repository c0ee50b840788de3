//! What is drained from a pool.

ghost use Rattle.std.specs.Prelude.{[], ◌≡◌, ◌≤◌, ◌↔◌, IfOk, IsTrue, length, map, vec_capacity};
ghost use Rattle.std.specs.List.{AllByRecursion};
ghost use Rattle.kd_model.specs.declared.slice_no.TheConstants.{SLICES};
ghost use Rattle.kd_acts.specs.State.{Batch, is_waiting, queue_of};
ghost use Rattle.kd_pool.specs.Sealed.{without_shares};
ghost use Rattle.kd_pool.specs.Table.{AreCarried, AreFound, HaveLowNumbers, HaveOwnNumbers, IsCarried, carried, images_waiting};

use crate::{memory, sealed, table};
use kd_acts::Slot;
use kd_model::SLICES;
use kd_order::Queue;
use kd_seal::Sealed;
use std::alloc::{AllocError, Global};
use std::marker::Model;

/// Messages that were drained from a pool, on their way to another one: the bytes of the pool as
/// they were, the slots of the messages by rising arrival, and the shares of sealed bytes that they
/// take along. No call but `make` takes memory.
#[derive(Debug, Drop)]
pub struct Drained {
    memory: Vec<u8>,
    rows: Vec<Slot>,
    /// By the numbers of the slots.
    shares: Vec<Option<Sealed>>,
}

impl Model for Drained {
    ghost Value = { Batch };

    ghost view = { λ d.
        record {
          size = length d.memory.items;
          images = map (carried d.memory.items d.shares.items) d.rows.items;
        } };

    ghost invariant = { λ d.
        AreCarried d.memory.items d.rows.items d.shares.items (vec_capacity d.rows) };
}

impl Drained {
    /// An empty buffer for what is drained from a pool of `size` bytes.
    pub fn make(alloc: Global, size: u32) -> Result<Drained, AllocError>
        ensures { IfOk result (λ d. d ≡ record { size = size; images = [] }) }
    {
        Ok(Drained {
            memory: memory::zeros(alloc, size)?,
            rows: Vec::with_capacity(alloc, SLICES as usize)?,
            shares: sealed::none(alloc)?,
        })
    }

    /// Makes an empty buffer one for a pool of `size` bytes, which are no more than it has.
    pub fn narrow(&mut self, size: u32)
        requires empty { self.old.images ≡ [] }
        requires room { size ≤ self.old.size }
        ensures { self.new ≡ record { size = size; images = [] } }
    {
        self.memory.truncate(size as usize);
    }

    /// The size of the pools that it is for.
    pub fn size(&self) -> usize
        ensures { result ≡ self.now.size }
    {
        self.memory.len()
    }

    /// Whether no message is in it.
    pub fn is_empty(&self) -> bool
        ensures { IsTrue result ↔ (self.now.images ≡ []) }
    {
        self.rows.is_empty()
    }

    /// Takes the messages over that wait in a pool, with their shares, out of its queue.
    pub(crate) fn take_over(
        &mut self,
        memory: &[u8],
        slots: &[Slot],
        queue: &mut Queue,
        shares: &mut Vec<Option<Sealed>>,
    )
        requires size { length memory.now ≡ self.old.size }
        requires empty { self.old.images ≡ [] }
        requires few { length slots.now ≤ SLICES }
        requires each { AllByRecursion (IsCarried (length memory.now)) slots.now }
        requires found { AreFound slots.now }
        requires apart { HaveOwnNumbers slots.now }
        requires below { HaveLowNumbers slots.now }
        requires queued { queue.old ≡ queue_of slots.now }
        ensures images { self.new
            ≡ record self.old { images = images_waiting memory.now shares.old.items slots.now } }
        ensures few { length self.new.images ≤ SLICES }
        ensures queue { queue.new ≡ [] }
        ensures shares { shares.new.items ≡ without_shares is_waiting slots.now shares.old.items }
    {
        self.memory.copy_from_slice(memory);
        table::move_queued(&mut self.rows, slots, queue);
        sealed::move_waiting(shares, &mut self.shares, slots);
    }

    /// The memory, the slots that lie in it, and their shares.
    pub(crate) fn into_parts(self) -> (Vec<u8>, Vec<Slot>, Vec<Option<Sealed>>)
        ensures images { self.images ≡ map (carried result.0.items result.2.items) result.1.items }
        ensures few { length result.1.items ≤ SLICES }
        ensures each { AllByRecursion (IsCarried (length result.0.items)) result.1.items }
        ensures apart { HaveOwnNumbers result.1.items }
    {
        (self.memory, self.rows, self.shares)
    }
}

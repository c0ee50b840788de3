//! Moving all messages that wait to another pool, and ending a pool.

ghost use Rattle.std.specs.Prelude.{[], ◌∷◌, ◌≡◌, ◌<◌, ◌≤◌, ◌+◌, ◌-◌, ◌^◌, OnErr, length, map};
ghost use Rattle.std.specs.List.{AllByRecursion};
ghost use Rattle.kd_model.specs.declared.slice_no.TheConstants.{SLICES};
ghost use Rattle.kd_acts.specs.Steps.{drain_step, emptied, settled, swept};
ghost use Rattle.kd_pool.specs.Table.{HaveOwnNumbers, IsCarried, carried, image_with};
ghost use Rattle.kd_pool.specs.Told.{drained_into};

use crate::drained::Drained;
use crate::pool::Pool;
use crate::{giving, memory, sealed, table};
use kd_acts::Slot;
use kd_seal::Sealed;
use kd_types::Refusal;

impl Pool {
    /// Takes all messages that wait out, queued or peeked at, by rising arrival, into an empty
    /// buffer that was made for this pool's size: at most 256, as there are numbers. `Busy` of the
    /// lowest number that is reserved, if any; then nothing changes.
    pub fn drain(&mut self, into: &mut Drained) -> Result<(), Refusal>
        requires size { into.old.size ≡ self.old.size }
        requires empty { into.old.images ≡ [] }
        ensures state { self.new ≡ (drain_step self.old).0 }
        ensures answer { drained_into result into.new.images ≡ (drain_step self.old).1 }
        ensures few { length into.new.images ≤ SLICES }
        ensures size { into.new.size ≡ into.old.size }
        ensures err { OnErr result (into.new ≡ into.old) }
    {
        if let Some(slot) = table::lowest_reserved(&self.slots) {
            let slice = u64::from(slot.number.0);
            return Err(Refusal::Busy { slice });
        }
        into.take_over(&self.memory, &self.slots, &mut self.queue, &mut self.shares);
        giving::give_back_waiting(&mut self.book, &self.slots);
        table::take_out_waiting(&mut self.slots);
        Ok(())
    }

    /// Sweeps, and places each drained message in turn as its first sender's, without a quota; one
    /// that finds no number or gap is counted as missed. Each takes its share of sealed bytes
    /// along.
    pub fn settle(&mut self, from: Drained)
        requires arrivals { self.old.next_arrival < 2 ^ 63 }
        requires misses { self.old.dropped < 2 ^ 63 }
        ensures { self.new ≡ settled from.images (swept self.old) }
    {
        self.sweep();
        let (memory, rows, mut shares) = from.into_parts();
        self.settle_each(&memory, &rows, &mut shares);
    }

    /// Places the messages of slots in a memory, in turn, with their shares.
    fn settle_each(&mut self, memory: &[u8], rows: &[Slot], shares: &mut Vec<Option<Sealed>>)
        requires few { length rows.now ≤ SLICES }
        requires each { AllByRecursion (IsCarried (length memory.now)) rows.now }
        requires apart { HaveOwnNumbers rows.now }
        requires arrivals { self.old.next_arrival < 2 ^ 63 }
        requires misses { self.old.dropped < 2 ^ 63 }
        ensures { self.new ≡ settled (map (carried memory.now shares.old.items) rows.now) self.old }
    {
        'rows: for row in rows {
            let share = sealed::take(shares, row.number);
            self.settle_one(memory, row, share);
        }
    }

    /// Places the message of a slot in a memory, with its share.
    fn settle_one(&mut self, memory: &[u8], row: &Slot, share: Option<Sealed>)
        requires carried { IsCarried (length memory.now) row.now }
        requires arrivals { self.old.next_arrival < 2 ^ 64 - 1 }
        requires misses { self.old.dropped < 2 ^ 64 - 1 }
        ensures state { self.new ≡ settled (image_with memory.now share row.now ∷ []) self.old }
        ensures arrivals { self.new.next_arrival ≤ self.old.next_arrival + 1 }
        ensures misses { self.new.dropped ≤ self.old.dropped + 1 }
    {
        let image = memory::range(memory, row.offset as usize, row.len as usize);
        let _ = self.fill(image, row.len, row.user, row.source, share, row.priority);
    }

    /// Takes every slice out.
    pub fn close(&mut self)
        ensures { self.new ≡ emptied self.old }
    {
        sealed::end_all(&mut self.shares, &self.slots);
        giving::give_back_all(&mut self.book, &self.slots);
        self.slots.clear();
        self.queue.clear();
    }
}

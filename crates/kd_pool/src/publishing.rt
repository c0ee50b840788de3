//! Writing messages into slices, and queuing them.

ghost use Rattle.std.specs.Prelude.{◌≡◌, ◌<◌, ◌≤◌, ◌%◌, ◌+◌, ◌-◌, ◌++◌, ◌^◌, Some, length};
ghost use Rattle.kd_acts.specs.Steps.{fill_step, filled, post_step, reserved_length};
ghost use Rattle.kd_pool.specs.Told.{RefusesLong, message, offer_answer};

use crate::pool::Pool;
use crate::{memory, sealed, table};
use kd_model::{SLICES, SliceNo};
use kd_seal::Sealed;
use kd_types::{ConnId, Refusal};

impl Pool {
    /// Writes a message into a reserved slice, `prefix` and then `payload`, and queues it. They
    /// have the slice's length together, which `reserved` tells. The slice holds the message's
    /// share of sealed bytes, if it takes one along, until it goes.
    pub fn publish(
        &mut self,
        number: SliceNo,
        prefix: &[u8],
        payload: &[u8],
        share: Option<Sealed>,
        priority: i64,
    )
        requires reserved { reserved_length number self.old
            ≡ Some (length prefix.now + length payload.now) }
        requires count { self.old.next_arrival < 2 ^ 64 - 1 }
        ensures { self.new
            ≡ filled number (message (prefix.now ++ payload.now) share priority) self.old }
    {
        let Some(slot) = table::find(&self.slots, number) else {
            unreachable!();
        };
        memory::write(&mut self.memory, slot.offset as usize, prefix, payload);
        table::set_queued(&mut self.slots, number, priority, self.next_arrival);
        sealed::put(&mut self.shares, number, share);
        self.queue.push(number, priority);
        self.next_arrival += 1;
    }

    /// Places and queues a message at once, or counts it as missed.
    pub(crate) fn fill(
        &mut self,
        image: &[u8],
        len: u32,
        user: Option<u32>,
        source: ConnId,
        share: Option<Sealed>,
        priority: i64,
    ) -> Result<SliceNo, Refusal>
        requires some { 0 < len }
        requires eights { len % 8 ≡ 0 }
        requires whole { length image.now ≡ len }
        requires arrivals { self.old.next_arrival < 2 ^ 64 - 1 }
        requires misses { self.old.dropped < 2 ^ 64 - 1 }
        ensures state { self.new
            ≡ (fill_step (message image.now share priority) user source self.old).0 }
        ensures answer { offer_answer result
            ≡ (fill_step (message image.now share priority) user source self.old).1 }
        ensures arrivals { self.new.next_arrival ≤ self.old.next_arrival + 1 }
        ensures misses { self.new.dropped ≤ self.old.dropped + 1 }
    {
        match self.reserve(user, len, source) {
            Err(why) => {
                self.miss();
                Err(why)
            }
            Ok(number) => {
                self.publish(number, &[], image, share, priority);
                Ok(number)
            }
        }
    }

    /// Why a message has no place that is longer than a pool can be.
    fn why_too_long(&self) -> Refusal
        ensures { RefusesLong result self.now }
    {
        if self.slots.len() < SLICES as usize {
            Refusal::PoolFull
        } else {
            Refusal::SlicesSpent
        }
    }

    /// Queues a notice of the bus, which has no user: sweeps, and places it and writes it at once.
    /// `SlicesSpent` where all numbers are in use, `PoolFull` where no gap holds it; then it is
    /// counted as missed.
    pub fn post(&mut self, image: &[u8]) -> Result<SliceNo, Refusal>
        requires some { 0 < length image.now }
        requires eights { length image.now % 8 ≡ 0 }
        requires arrivals { self.old.next_arrival < 2 ^ 64 - 1 }
        requires misses { self.old.dropped < 2 ^ 64 - 1 }
        ensures state { self.new ≡ (post_step image.now self.old).0 }
        ensures answer { offer_answer result ≡ (post_step image.now self.old).1 }
    {
        self.sweep();
        let Ok(len) = u32::try_from(image.len()) else {
            let why = self.why_too_long();
            self.miss();
            return Err(why);
        };
        self.fill(image, len, None, ConnId(0), None, 0)
    }
}

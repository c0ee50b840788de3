//! Reserving slices.

ghost use Rattle.std.specs.Prelude.{◌≡◌, ◌<◌, ◌%◌, ◌-◌, ◌^◌, IfOk, Some};
ghost use Rattle.kd_acts.specs.Steps.{after_miss, must_offer_step, reserve_step, reserved_length, swept};
ghost use Rattle.kd_pool.specs.Told.{offer_answer};

use crate::pool::Pool;
use crate::{giving, sealed, table};
use kd_acts::{Phase, Slot};
use kd_model::{NoPlace, SliceBook, SliceNo};
use kd_types::{ConnId, Refusal};

impl Pool {
    /// Reserves a slice of `len` bytes for a message of a user: counts the offer, sweeps, and
    /// places it. `Quota` where the user's unreceived messages would take more than half of the
    /// pool or more than 32 slices, `SlicesSpent` where all numbers are in use, `PoolFull` where no
    /// gap holds the length.
    pub fn offer(&mut self, user: u32, len: u32, from: ConnId) -> Result<SliceNo, Refusal>
        requires some { 0 < len }
        requires eights { len % 8 ≡ 0 }
        requires count { self.old.offered < 2 ^ 64 - 1 }
        ensures state { self.new ≡ (must_offer_step user len from self.old).0 }
        ensures answer { offer_answer result ≡ (must_offer_step user len from self.old).1 }
        ensures reserved { IfOk result (λ n. reserved_length n self.new ≡ Some len) }
    {
        self.offered += 1;
        self.sweep();
        if table::is_over_quota(&self.slots, self.memory.len(), user, len) {
            return Err(Refusal::Quota);
        }
        self.reserve(Some(user), len, from)
    }

    /// Reserves a slice at its place.
    pub(crate) fn reserve(
        &mut self,
        user: Option<u32>,
        len: u32,
        source: ConnId,
    ) -> Result<SliceNo, Refusal>
        requires some { 0 < len }
        requires eights { len % 8 ≡ 0 }
        ensures state { self.new ≡ (reserve_step len user source self.old).0 }
        ensures answer { offer_answer result ≡ (reserve_step len user source self.old).1 }
        ensures reserved { IfOk result (λ n. reserved_length n self.new ≡ Some len) }
    {
        match self.book.place(len) {
            Err(NoPlace::Spent) => Err(Refusal::SlicesSpent),
            Err(NoPlace::Full) => Err(Refusal::PoolFull),
            Ok((number, offset)) => {
                let slot = Slot {
                    number,
                    offset,
                    len,
                    phase: Phase::Reserved,
                    user,
                    source,
                    priority: 0,
                    arrival: 0,
                };
                table::put(&mut self.slots, slot);
                Ok(number)
            }
        }
    }

    /// Counts a message that found no place and needn't have one.
    pub fn miss(&mut self)
        requires count { self.old.dropped < 2 ^ 64 - 1 }
        ensures { self.new ≡ after_miss self.old }
    {
        self.dropped += 1;
    }

    /// Takes every freed slice out.
    pub fn sweep(&mut self)
        ensures { self.new ≡ swept self.old }
    {
        sealed::end_freed(&mut self.shares, &self.slots);
        giving::give_back_freed(&mut self.book, &self.slots);
        table::take_out_freed(&mut self.slots);
    }
}

//! Taking messages, reading them, and giving their slices back.

ghost use Rattle.std.specs.Prelude.{◌≡◌, ◌≢◌, IfErr, IfOk, IsTrue, None, OnErr, OnOk, Some};
ghost use Rattle.kd_model.specs.Words.{some_of};
ghost use Rattle.kd_acts.specs.State.{bytes_of, is_waiting, refused, slots};
ghost use Rattle.kd_acts.specs.Steps.{after_taking, free_refusal, next, pool_without, read_answer, receive_step, with_phase};
ghost use Rattle.kd_pool.specs.Table.{WaitsAsBefore, number_waits};
ghost use Rattle.kd_pool.specs.Told.{receive_answer};

use crate::pool::Pool;
use crate::{memory, sealed, table};
use kd_acts::{Got, Phase, RecvMode, Slot};
use kd_model::{SliceBook, SliceNo};
use kd_types::Refusal;
use std::alloc::Global;

impl Pool {
    /// Takes the next message. `NoMessage` where none waits, with the count of missed messages;
    /// `NoSuchPriority` where some wait but none within the limit.
    pub fn receive(&mut self, mode: RecvMode) -> Result<Got, Refusal>
        requires { ¬ (IsTrue mode.peek × IsTrue mode.drop_it) }
        ensures state { self.new ≡ (receive_step mode self.old).0 }
        ensures answer { receive_answer result ≡ (receive_step mode self.old).1 }
    {
        let Some(slot) = self.next(mode.limit) else {
            if self.some_waiting() {
                return Err(Refusal::NoSuchPriority);
            }
            let dropped = self.dropped;
            self.dropped = 0;
            return Err(Refusal::NoMessage { dropped });
        };
        let got = Got {
            number: slot.number,
            offset: slot.offset,
            length: slot.len,
            dropped: self.dropped,
        };
        self.dropped = 0;
        self.take(slot.number, mode);
        Ok(got)
    }

    /// The slot that a receive takes: what the queue answers.
    fn next(&self, limit: Option<i64>) -> Option<Slot>
        ensures { result ≡ next (slots self.now) limit }
    {
        match self.queue.next(limit) {
            None => None,
            Some(number) => table::find(&self.slots, number),
        }
    }

    /// Whether a message waits for its receiver.
    fn some_waiting(&self) -> bool
        ensures { result ≡ some_of is_waiting (slots self.now) }
    {
        !self.queue.is_empty()
    }

    /// Makes of a waiting slice what the mode says.
    fn take(&mut self, number: SliceNo, mode: RecvMode)
        requires { IsTrue (number_waits number (slots self.old)) }
        ensures { self.new ≡ after_taking mode number self.old }
    {
        if mode.drop_it {
            self.drop_slice(number);
        } else if mode.peek {
            self.set_phase(number, Phase::Peeked);
        } else {
            self.hand_over(number);
        }
    }

    /// Hands a waiting slice to its receiver.
    fn hand_over(&mut self, number: SliceNo)
        requires { IsTrue (number_waits number (slots self.old)) }
        ensures { self.new ≡ with_phase Phase.Handed number self.old }
    {
        table::set_phase(&mut self.slots, number, Phase::Handed);
        self.queue.take(number);
    }

    /// Takes a waiting slice out.
    fn drop_slice(&mut self, number: SliceNo)
        requires { IsTrue (number_waits number (slots self.old)) }
        ensures { self.new ≡ pool_without number self.old }
    {
        self.book.give_back(number);
        table::take_out(&mut self.slots, number);
        self.queue.take(number);
        sealed::put(&mut self.shares, number, None);
    }

    /// The bytes of a slice that its receiver was told, or of the share of sealed bytes that it
    /// holds. `NoSuchSlice` for any other number; `NoSuchSeal` where it holds no share.
    pub fn read(&self, alloc: Global, number: SliceNo, sealed: bool) -> Result<Vec<u8>, Refusal>
        ensures bytes { IfOk result (λ v. read_answer number sealed self.now ≡ bytes_of v.items) }
        ensures refused { IfErr result (λ e.
            e ≢ Refusal.OutOfMemory → read_answer number sealed self.now ≡ refused e) }
    {
        let Some(slot) = table::find_readable(&self.slots, number) else {
            return Err(Refusal::NoSuchSlice);
        };
        if sealed {
            let Some(bytes) = sealed::bytes(&self.shares, slot.number) else {
                return Err(Refusal::NoSuchSeal);
            };
            return Ok(Vec::from_slice(alloc, bytes)?);
        }
        Ok(memory::copy(alloc, &self.memory, slot.offset as usize, slot.len as usize)?)
    }

    /// Gives a received slice back; its range is free from the next sweep on. `NotReceived` where
    /// it was only peeked at, `NoSuchSlice` for any other number that wasn't received.
    pub fn free(&mut self, number: SliceNo) -> Result<(), Refusal>
        ensures ok { OnOk result (free_refusal number (slots self.old) ≡ None) }
        ensures freed { OnOk result (self.new ≡ with_phase Phase.Freed number self.old) }
        ensures refused { IfErr result (λ e. free_refusal number (slots self.old) ≡ Some e) }
        ensures err { OnErr result (self.new ≡ self.old) }
    {
        if let Some(why) = table::why_not_freed(&self.slots, number) {
            return Err(why);
        }
        self.set_phase(number, Phase::Freed);
        Ok(())
    }

    /// Brings the slice of a number into a phase in which it waits as it did.
    fn set_phase(&mut self, number: SliceNo, phase: Phase)
        requires waits { WaitsAsBefore phase number (slots self.old) }
        requires taken { phase ≢ Phase.Reserved }
        ensures { self.new ≡ with_phase phase number self.old }
    {
        table::set_phase(&mut self.slots, number, phase);
    }
}

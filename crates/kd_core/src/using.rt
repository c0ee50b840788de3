//! What a caller does at pools by itself: it publishes what it offered, and receives, reads and
//! frees at its own pool.

ghost use Rattle.std.specs.Prelude.{◌≡◌, ◌≢◌, ◌-◌, ◌^◌, IfOk, IsTrue, None, get_or};
ghost use Rattle.std.specs.List.{AllByRecursion};
ghost use Rattle.kd_model.specs.Words.{first};
ghost use Rattle.kd_acts.specs.State.{read, receive};
ghost use Rattle.kd_core.specs.Acting.{acted, aimed_answer};
ghost use Rattle.kd_holds.specs.Counts.{IsBelow};
ghost use Rattle.kd_world.specs.Hands.{hand_freed, hand_received};
ghost use Rattle.kd_world.specs.Own.{is_pending_at, pool_seat, hand_entry};
ghost use Rattle.kd_world.specs.Pools.{act_at, free_of, publish_of};
ghost use Rattle.kd_world.specs.Callers.{has_published};
ghost use Rattle.kd_world.specs.Answers.{freed_answer, when_seated};
ghost use Rattle.kd_core.specs.Running.{told_by_pool};

use crate::caller::Caller;
use crate::event::Answer;
use kd_holds::{Hand, Hold, Published, oldest, pools};
use kd_pool::RecvMode;
use kd_types::{Blob, Refusal, Seat};
use kd_world::Told;
use std::alloc::{AllocError, Global};

/// Takes a received number out of the hand, and tells what it was told of it.
fn forget(hand: &mut Hand, number: u32) -> Option<Told>
    ensures told { result ≡ get_or hand.old number None }
    ensures hand { hand.new ≡ hand_freed number (get_or hand.old number None) hand.old }
{
    let told = hand.told(number);
    if let Some(Told::Handed) = told {
        hand.put(number, None);
    }
    told
}

impl Caller {
    /// Publishes its oldest message for the seat and number.
    pub(crate) fn publish(&mut self, pools: &mut Vec<Hold>, seat: Seat, number: u32) -> Answer
        requires pending { first (is_pending_at seat number) self.old.pendings ≢ None }
        requires counts { AllByRecursion (IsBelow (2 ^ 63 - 1)) pools.old.items }
        ensures pools { pools.new.items
            ≡ acted (publish_of (first (is_pending_at seat number) self.old.pendings))
            pools.old.items }
        ensures caller { self.new ≡ has_published seat number self.old }
        ensures answer { result
            ≡ told_by_pool (aimed_answer
            (publish_of (first (is_pending_at seat number) self.old.pendings))
            pools.old.items) }
    {
        let pending = oldest::take(&mut self.pendings, seat, number);
        match pools::publish(pools, pending) {
            Published::Placed => Answer::Published,
            Published::Gone => Answer::Gone,
        }
    }

    /// Receives the next message of its pool.
    pub(crate) fn receive(&mut self, pools: &mut Vec<Hold>, mode: RecvMode) -> Answer
        requires { ¬ (IsTrue mode.peek × IsTrue mode.drop_it) }
        ensures pools { pools.new.items
            ≡ acted (act_at (pool_seat self.old) (receive mode)) pools.old.items }
        ensures caller { self.new
            ≡ record self.old {
              hand =
                  hand_received mode
                  (aimed_answer (act_at (pool_seat self.old) (receive mode)) pools.old.items)
                  self.old.hand;
            } }
        ensures answer { result
            ≡ told_by_pool (when_seated (pool_seat self.old)
            (aimed_answer (act_at (pool_seat self.old) (receive mode)) pools.old.items)) }
    {
        let Some(seat) = self.seat() else {
            return Answer::Refused(Refusal::WrongState);
        };
        match pools::receive(pools, seat, &mut self.hand, mode) {
            Ok(got) => Answer::Got(got),
            Err(why) => Answer::Refused(why),
        }
    }

    /// Reads a slice of its pool, or the share of one.
    pub(crate) fn read(
        &self,
        pools: &[Hold],
        alloc: Global,
        number: u32,
        sealed: bool,
    ) -> Result<Answer, AllocError>
        ensures { IfOk result (λ a.
            a
            ≡ told_by_pool (when_seated (pool_seat self.now) (aimed_answer
            (act_at (pool_seat self.now) (read number sealed))
            pools.now))) }
    {
        let Some(seat) = self.seat() else {
            return Ok(Answer::Refused(Refusal::WrongState));
        };
        match pools::read(pools, alloc, seat, number, sealed) {
            Ok(bytes) => Ok(Answer::Bytes(Blob::of(bytes))),
            Err(Refusal::OutOfMemory) => Err(AllocError),
            Err(why) => Ok(Answer::Refused(why)),
        }
    }

    /// Frees a slice that it received.
    pub(crate) fn free(&mut self, pools: &mut Vec<Hold>, number: u32) -> Answer
        ensures pools { pools.new.items
            ≡ acted (free_of (pool_seat self.old) number
            (hand_entry self.old number)) pools.old.items }
        ensures caller { self.new
            ≡ record self.old {
              hand = hand_freed number
                  (hand_entry self.old number) self.old.hand;
            } }
        ensures answer { result
            ≡ told_by_pool
            (when_seated (pool_seat self.old) (freed_answer (hand_entry self.old number))) }
    {
        let told = forget(&mut self.hand, number);
        let Some(seat) = self.seat() else {
            return Answer::Refused(Refusal::WrongState);
        };
        match told {
            None => Answer::Refused(Refusal::NoSuchSlice),
            Some(Told::Peeked) => Answer::Refused(Refusal::NotReceived),
            Some(Told::Handed) => {
                pools::free(pools, seat, number);
                Answer::Freed
            }
        }
    }
}

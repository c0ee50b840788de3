//! A clock in memory, which tells the moments that it was made with.

ghost use Rattle.std.specs.Prelude.{◌≡◌, ◌≤◌, ◌↔◌, [], false, drop, length, vec_len, IsTrue, IsErr, IfOk, OnErr};
ghost use Rattle.kd_outside.specs.Causes.{HasCause};
ghost use Rattle.kd_outside.specs.Told.{Tells, next_moment, later_moments};
ghost use Rattle.kd_outside.specs.Memory.{fails_next};
ghost use Rattle.kd_outside.specs.Serving.{AreRising, ClockParts, new_clock, spare_clock, own_clock, clock_state, after_now};

use crate::calls::Calls;
use crate::service::Clock;
use crate::traits::Failed;
use kd_types::Moment;
use std::alloc::Global;
use std::marker::Model;

/// Moments to be told one after the other, the last of them again and again.
#[derive(Debug, Drop)]
pub struct ListClock {
    moments: Vec<Moment>,
    place: usize,
    latest: Moment,
    calls: Calls,
    spare: bool,
}

impl Model for ListClock {
    ghost Value = { ClockParts };

    ghost view = { λ c. record {
      coming = drop c.place c.moments.items;
      latest = c.latest;
      calls = c.calls;
      spare = c.spare;
    } };

    ghost invariant = { λ c. (c.place ≤ vec_len c.moments)
        × AreRising (drop c.place c.moments.items)
        × (c.latest ≤ next_moment (drop c.place c.moments.items)) };
}

/// The moment at a place, or 0 at the end; and the place of the one that comes after it.
fn moment_at(moments: &[Moment], place: usize) -> (Moment, usize)
    requires { place ≤ length moments.now }
    ensures moment { result.0 ≡ next_moment (drop place moments.now) }
    ensures later { drop result.1 moments.now ≡ later_moments (drop place moments.now) }
    ensures inside { result.1 ≤ length moments.now }
{
    match moments.split_at(place).1 {
        [] => (Moment(0), place),
        [moment] => (*moment, place),
        [moment, _, ..] => (*moment, place + 1),
    }
}

impl ListClock {
    /// A clock of these moments, whose calls of the numbers in `fails` fail, counted from 1. It
    /// takes no memory.
    pub fn make(moments: Vec<Moment>, fails: Vec<u64>) -> ListClock
        requires { AreRising moments.items }
        ensures { result ≡ new_clock moments.items fails.items }
    {
        ListClock {
            moments,
            place: 0,
            latest: Moment(0),
            calls: Calls::of(fails),
            spare: false,
        }
    }

    /// A clock without moments, which never fails and isn't kept by its binder.
    pub(crate) fn spare(alloc: Global) -> ListClock
        ensures { result ≡ spare_clock }
    {
        ListClock {
            moments: Vec::new(alloc),
            place: 0,
            latest: Moment(0),
            calls: Calls::of(Vec::new(alloc)),
            spare: true,
        }
    }

    /// The clock, which its binder keeps when it comes back.
    pub(crate) fn into_own(self) -> ListClock
        ensures { result ≡ own_clock self }
    {
        ListClock {
            spare: false,
            ..self
        }
    }

    /// Whether its binder gave it where no clock was to come.
    pub(crate) fn is_spare(&self) -> bool
        ensures { result ≡ self.now.spare }
    {
        self.spare
    }
}

impl Clock for ListClock {
    ghost told = { clock_state };

    ghost is_spare = { λ c. c.spare };

    /// Tells the next moment, the last one again, or 0 where there is none; fails at the calls that
    /// were named, and at no other.
    fn now(&mut self) -> Result<Moment, Failed>
        ensures cause { HasCause self.old.calls.faults self.new.calls.faults result }
        ensures told { IfOk result (λ m. Tells (clock_state self.old) (clock_state self.new) m) }
        ensures failed { OnErr result
            (clock_state self.new
            ≡ record (clock_state self.old) { faults = (clock_state self.new).faults }) }
        ensures kept { self.new.spare ≡ self.old.spare }
        ensures failing { IsErr result ↔ IsTrue (fails_next self.old.calls) }
        ensures moment { IfOk result (λ m. m ≡ next_moment self.old.coming) }
        ensures after { self.new ≡ after_now self.old }
    {
        if self.calls.fails_next() {
            self.calls.count_fault();
            return Err(Failed);
        }
        let (moment, place) = moment_at(&self.moments, self.place);
        self.place = place;
        self.latest = moment;
        self.calls.count();
        Ok(moment)
    }
}

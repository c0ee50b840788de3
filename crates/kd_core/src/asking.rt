//! What a world tells of itself.

ghost use Rattle.std.specs.Prelude.{◌≡◌, IsTrue};
ghost use Rattle.kd_world.specs.Whole.{next_publish, next_seat};
ghost use Rattle.kd_world.specs.State.{caller_at};
ghost use Rattle.kd_world.specs.Legal.{is_caller};

use crate::caller::Caller;
use crate::world::World;
use kd_types::{Seat, SliceNo};

impl World {
    /// The caller of a number.
    pub(crate) fn caller(&self, number: u64) -> &Caller
        requires caller { IsTrue (is_caller number) }
        ensures { result.now ≡ caller_at self.now.world number }
    {
        &self.callers[(number - 1) as usize]
    }

    /// The seat of the pool that the holder of the desk visits next; None where nobody holds it, or
    /// no visit is left.
    pub fn next_seat(&self) -> Option<Seat>
        ensures { result ≡ next_seat self.now.world }
    {
        match &self.holder {
            Some(holder) => holder.next_seat(),
            None => None,
        }
    }

    /// The seat and slice number that the caller's oldest pending message is for.
    pub fn next_publish(&self, caller: u64) -> Option<(Seat, SliceNo)>
        requires caller { IsTrue (is_caller caller) }
        ensures { result ≡ next_publish self.now.world caller }
    {
        match self.caller(caller).pendings.first() {
            Some(pending) => Some((pending.seat, pending.number)),
            None => None,
        }
    }
}

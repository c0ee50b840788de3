//! That what comes to pools keeps them sound. Nothing is run here; each function's contract is a
//! law.

ghost use Rattle.kd_lengths.specs.Plans.{PlansHaveLengths};
ghost use Rattle.kd_lengths.specs.Worlds.{ActsHaveLengths, PoolsAreAlwaysSound};

/// What a plan offers or posts has some bytes, a multiple of 8, and the size of a pool that it
/// raises is a multiple of 8, where its command is well formed.
pub fn plans_have_lengths()
    ensures { PlansHaveLengths }
{}

/// In every world that legal events lead to, whatever an event does to a pool has the lengths that
/// keep it sound: what settles was drained from a sound pool.
pub fn acts_have_lengths()
    ensures { ActsHaveLengths }
{}

/// Along every list of legal events from the opening of a bus each open pool is sound.
pub fn pools_are_always_sound()
    ensures { PoolsAreAlwaysSound }
{}

//! What holds of the counts of every pool.

ghost use Rattle.kd_counts.specs.Counts.{CountsGoOn, GenerationsGoOn};
ghost use Rattle.kd_counts.specs.Sizes.{SizesFollow};

/// An act counts what it offers exactly, and its arrivals and misses go on by no more than it has
/// messages; the pool's size stays.
pub fn counts_go_on()
    ensures { CountsGoOn }
{}

/// Generations go on by one at most.
pub fn generations_go_on()
    ensures { GenerationsGoOn }
{}

/// The size of an open pool follows from the acts on it and their answers: a raise gives it, a
/// close that isn't refused ends it, and no other act changes it.
pub fn sizes_follow()
    ensures { SizesFollow }
{}

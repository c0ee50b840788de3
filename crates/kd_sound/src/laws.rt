//! What keeps pools sound. Nothing is run here; each function's contract is a law.

ghost use Rattle.kd_sound.specs.Staying.{ActsKeepPoolsSound, DrainedHaveLengths, OnlyLengthsKeepPoolsSound, PoolsAreSound};

/// Whatever is done to a sound pool, it is sound after that, and so is a pool that was raised. What
/// an act places has to have some bytes, a multiple of 8, and a pool's size has to be a multiple of
/// 8; no other act asks for anything.
///
/// That every plan and every event of a bus bring such lengths say `plans_have_lengths` and
/// `acts_have_lengths` of `kd_lengths`.
pub fn acts_keep_pools_sound()
    ensures { ActsKeepPoolsSound }
{}

/// From a closed pool or a sound one on, an open pool is sound along every list of such acts.
pub fn pools_are_sound()
    ensures { PoolsAreSound }
{}

/// What is drained from a sound pool may settle in any: each message has the length of a slice.
pub fn drained_messages_have_lengths()
    ensures { DrainedHaveLengths }
{}

/// No other lengths would do: where a pool is raised, or an offer or a post is placed, the pool is
/// sound after that only if what the act brought along has these lengths.
pub fn only_lengths_keep_pools_sound()
    ensures { OnlyLengthsKeepPoolsSound }
{}

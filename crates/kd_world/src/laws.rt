//! What holds of every list of events, from the opening of a bus on. Nothing is run here; each
//! function's contract is a law.

ghost use Rattle.kd_world.specs.Tie.{AddressedIsOffered, OfferedSoFar};
ghost use Rattle.kd_world.specs.Agreed.{HandsAlwaysAgree, SlicesAlwaysStay};
ghost use Rattle.kd_world.specs.Owed.{PublishesAlwaysArrive};

/// Whenever the desk is free, each pool was offered exactly what the desk's history addresses to
/// it, in order, each once.
#[tactic(auto, using(crate::proofs::Tied::addressed_is_offered))]
pub fn addressed_is_offered()
    ensures { AddressedIsOffered }
{}

/// While a caller holds the desk, it is what the history addresses followed by what that caller has
/// visited.
#[tactic(auto, using(crate::proofs::Tied::offered_so_far))]
pub fn offered_so_far()
    ensures { OfferedSoFar }
{}

/// While a connection's pool is open, a number is handed in its hand exactly where that slice is
/// handed in that pool.
#[tactic(auto, using(crate::proofs::Reached::hands_always_agree))]
pub fn hands_always_agree()
    ensures { HandsAlwaysAgree }
{}

/// Through any event from there on each slice that isn't freed keeps its place, and its bytes but
/// for the publishing of its own message, until a close, a drain or a drop lets it go. No open pool
/// is ever raised.
pub fn slices_always_stay()
    ensures { SlicesAlwaysStay }
{}

/// What was placed is published: whatever a caller still has to publish is placed where its pool is
/// open and was neither closed nor raised since, and else it's gone.
#[tactic(auto, using(crate::proofs::Arriving::publishes_always_arrive))]
pub fn publishes_always_arrive()
    ensures { PublishesAlwaysArrive }
{}

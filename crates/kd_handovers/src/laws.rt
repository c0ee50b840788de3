//! What holds of the parts of every plan.

ghost use Rattle.kd_handovers.specs.Handovers.{HandoversComeFirst};
ghost use Rattle.kd_handovers.specs.Openings.{PoolsAreSmall};

/// Where a plan drains a pool it does that first, what was drained settles next, and no other part
/// drains or settles.
pub fn handovers_come_first()
    ensures { HandoversComeFirst }
{}

/// The pool that a plan opens has a mebibyte at most, where its command is well formed.
pub fn pools_are_small()
    ensures { PoolsAreSmall }
{}

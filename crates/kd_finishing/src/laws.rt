//! What planning a command and finishing its plan come to together.

ghost use Rattle.kd_finishing.specs.Steps.{FinishedAreSettled, FinishingIsTheStep};

/// Finishing the plan of a command is the desk's step: the reply, and the desk then, by what the
/// pools answered.
pub fn finishing_is_the_step()
    ensures { FinishingIsTheStep }
{}

/// A settled desk is settled when a command of a caller that it knows is finished, however the
/// pools answered.
pub fn finished_desks_are_settled()
    ensures { FinishedAreSettled }
{}

//! What holds of every act at a pool, and of every plan.

ghost use Rattle.kd_holds.specs.Counts.{CountsByOne, VisitsCount};
ghost use Rattle.kd_holds.specs.Handing.{PlansAreInOrder};

/// An act on a pool raises each of its counts by at most one, unless it brings drained messages.
pub fn counts_by_one()
    ensures { CountsByOne }
{}

/// A visit raises each by at most 256: no more messages are drained.
pub fn visits_count()
    ensures { VisitsCount }
{}

/// The parts of a plan are in order, where its command is well formed: only the first one drains,
/// what it drains settles next, and a pool that one opens isn't too large.
pub fn plans_are_in_order()
    ensures { PlansAreInOrder }
{}

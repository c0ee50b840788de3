//! What holds of every list of legal events. Nothing is run here; each function's contract is a
//! law.

ghost use Rattle.kd_runs.specs.Answered.{LeaversAreAnswered, VisitsWantNoMemory};
ghost use Rattle.kd_runs.specs.Left.{LeaversHaveVisited, NobodyIsLeftOut, VisitedAreAll};
ghost use Rattle.kd_runs.specs.Lists.{AddressedWithOneMore, DeskIsAlong, DeskWithOneMore, HoldWithOneMore, PoolsAreAlong, WorldsGoOn};
ghost use Rattle.kd_runs.specs.Met.{HoldersVisitFew, PublishesAreReserved, VisitsMeetPools};
ghost use Rattle.kd_runs.specs.Reached.{CallersAreApart, CallersAreHome, DesksAreSettled, OpenPoolsAreLive, OpenPoolsAreSized, OpenPoolsSoFar};

/// Whoever may leave the desk has visited every part of its plan, or the refusal of the first one
/// ended all.
pub fn leavers_have_visited()
    ensures { LeaversHaveVisited }
{}

/// Along every list of legal events nobody is left out: each command that left the desk has visited
/// every part that it had planned, or the refusal of the first one ended all.
pub fn nobody_is_left_out()
    ensures { NobodyIsLeftOut }
{}

/// Where each part has its answer, the visits are the parts, in order, each once.
pub fn visited_are_all()
    ensures { VisitedAreAll }
{}

/// The desk is settled at every moment.
pub fn desks_are_settled()
    ensures { DesksAreSettled }
{}

/// The desk knows every caller at every moment, and a keeper's endpoint is there.
pub fn callers_are_home()
    ensures { CallersAreHome }
{}

/// No two callers ever have one seat, or keep one endpoint.
pub fn callers_are_apart()
    ensures { CallersAreApart }
{}

/// Whenever the desk is free, the open pools are those of live connections.
pub fn open_pools_are_live()
    ensures { OpenPoolsAreLive }
{}

/// Whenever the desk is free, each open pool has the size that its connection asked for.
pub fn open_pools_are_sized()
    ensures { OpenPoolsAreSized }
{}

/// While a caller holds the desk, which pools are open and of which size is what its visits have
/// made of that.
pub fn open_pools_so_far()
    ensures { OpenPoolsSoFar }
{}

/// Every visit but a raise meets an open pool, and each is of one of the 64.
pub fn visits_meet_pools()
    ensures { VisitsMeetPools }
{}

/// Whoever holds the desk has at most as many answers as parts, and at most 2^20 parts.
pub fn holders_visit_few()
    ensures { HoldersVisitFew }
{}

/// A legal publishing finds its slice reserved for just that message, while its pool is there.
pub fn publishes_are_reserved()
    ensures { PublishesAreReserved }
{}

/// The desk behind one entry more of its history.
pub fn a_desk_goes_on()
    ensures { DeskWithOneMore }
{}

/// A pool behind one act more.
pub fn a_pool_goes_on()
    ensures { HoldWithOneMore }
{}

/// What a history with one entry more addresses to a seat.
pub fn what_is_addressed_goes_on()
    ensures { AddressedWithOneMore }
{}

/// The world, whether events are legal, and the histories, with one event more at the end.
pub fn worlds_go_on()
    ensures { WorldsGoOn }
{}

/// The desk is always what its history makes of the desk of a new bus.
pub fn the_desk_is_along()
    ensures { DeskIsAlong }
{}

/// Each pool is always what was done to it makes of a closed one.
pub fn the_pools_are_along()
    ensures { PoolsAreAlong }
{}

/// No pool answers a visit by want of memory.
pub fn visits_want_no_memory()
    ensures { VisitsWantNoMemory }
{}

/// Whoever holds the desk is answered by one of its command's replies, however the pools answered
/// its visits.
pub fn leavers_are_answered()
    ensures { LeaversAreAnswered }
{}

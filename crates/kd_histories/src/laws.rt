//! What holds of every list, and that an entry of each kind may be put. Nothing is run here; each
//! function's contract is a law.
ghost use Rattle.kd_histories.specs.Visits.{AddressedAsPlanned};
ghost use Rattle.kd_histories.specs.Seats.{OwnEntriesTell};
ghost use Rattle.kd_histories.specs.Pools.{SweepsTell};
ghost use Rattle.kd_histories.specs.Pairs.{OwedIsDue};
ghost use Rattle.kd_histories.specs.Tie.{Tie, no_entry};
ghost use Rattle.kd_histories.specs.Known.{ExactlyAddressed, IdsAreFew, ListsKnow, NobodyWithoutBus, OpenAreLive};
ghost use Rattle.kd_histories.specs.Puts.{CallersAreOwn, IdleDesksMayBePut, IdlesMayBePut, LeavesMayBePut, PublishesMayBePut, RaisesWhereNobodySits, ReadsMayBePut, ReceivesMayBePut, RemovesMayBePut, StartsMayBePut, VisitsMayBePut};

/// The tie holds before any entry.
#[tactic(auto, using(crate::proofs::Ties::opening_tie))]
pub fn the_tie_begins()
    ensures { Tie no_entry }
{}

/// Whenever nobody holds the desk, each pool was made exactly what the desk's list addresses to it.
pub fn pools_are_made_what_is_addressed()
    ensures { ExactlyAddressed }
{}

/// A command addresses just the visits that its planner gives a desk's history.
pub fn commands_address_what_they_plan()
    ensures { AddressedAsPlanned }
{}

/// A pass's own entries tell whether it has a seat, whatever other passes did.
#[tactic(auto, using(crate::proofs::Sitters::own_entries_tell))]
pub fn own_entries_tell_the_seat()
    ensures { OwnEntriesTell }
{}

/// Along every list whose entries are true each sitter has its seat, and the pools that it leaves
/// open are those of the live connections.
#[tactic(auto, using(crate::proofs::Knowing::lists_know))]
pub fn lists_know_who_sits()
    ensures { ListsKnow }
{}

/// The next id is at most one more than the desk's list has entries.
pub fn ids_are_as_few_as_entries()
    ensures { IdsAreFew }
{}

/// A slot without a bus has no connection.
pub fn nobody_is_a_connection_without_a_bus()
    ensures { NobodyWithoutBus }
{}

/// Whenever nobody holds the desk, the open pools are those of the live connections.
pub fn open_pools_have_live_connections()
    ensures { OpenAreLive }
{}

/// What a pass owes by its own entries is due, while the pool has that generation.
#[tactic(auto, using(crate::proofs::Owing::owed_is_due_there))]
pub fn what_is_owed_is_due()
    ensures { OwedIsDue }
{}

/// A sweep of the four mark words tells just the marked numbers.
pub fn sweeps_tell_the_marks()
    ensures { SweepsTell }
{}

/// The holder of the desk raises a pool only where nobody sits.
pub fn pools_are_raised_where_nobody_sits()
    ensures { RaisesWhereNobodySits }
{}

/// Any visit of a pool by the holder of the desk may be put.
pub fn visits_may_be_put()
    ensures { VisitsMayBePut }
{}

/// So may a publishing of what the pass still owes.
pub fn publishes_may_be_put()
    ensures { PublishesMayBePut }
{}

/// So may a receive by the pass that has the seat, however long the desk's list has grown.
pub fn receives_may_be_put()
    ensures { ReceivesMayBePut }
{}

/// So may a read.
pub fn reads_may_be_put()
    ensures { ReadsMayBePut }
{}

/// And an entry on a pool that does nothing.
pub fn idles_may_be_put()
    ensures { IdlesMayBePut }
{}

/// A command may leave the desk when all that it addresses was visited.
pub fn leaves_may_be_put()
    ensures { LeavesMayBePut }
{}

/// What its caller is then, it is by the pass's own entries.
pub fn callers_stay_their_own()
    ensures { CallersAreOwn }
{}

/// So may a new bus begin, behind one that was there or not.
pub fn starts_may_be_put()
    ensures { StartsMayBePut }
{}

/// So may a bus be removed.
pub fn removes_may_be_put()
    ensures { RemovesMayBePut }
{}

/// And an entry on the desk that does nothing.
pub fn idle_desks_may_be_put()
    ensures { IdleDesksMayBePut }
{}

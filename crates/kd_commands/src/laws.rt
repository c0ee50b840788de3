//! What every plan keeps of who sits where, and which pools are open while its parts are visited.
//!
//! Each law is of a desk that is seated and of a caller that it knows: one that is nothing yet, one
//! whose connection is live at its seat, one whose connection others closed while its seat waits,
//! or the keeper of an endpoint.

ghost use Rattle.kd_commands.specs.Seating.{CallersMove, OpensAreLive, OpensStay, OthersStay, RaisesFree, SeatingStays};

/// After each plan the ids and the seats are still those of one connection each, and no live
/// connection's seat waits for another caller.
pub fn the_desk_stays_seated()
    ensures { SeatingStays }
{}

/// Whoever isn't the caller stays the connection that it is, or its connection is gone and its seat
/// waits for it.
pub fn others_stay()
    ensures { OthersStay }
{}

/// A caller stays what it is, takes a seat that was free, or leaves its seat.
pub fn callers_move()
    ensures { CallersMove }
{}

/// When all parts of a plan are visited, the open pools are those of the live connections.
pub fn open_pools_have_live_connections()
    ensures { OpensAreLive }
{}

/// Where the refusal of its first part ends a plan, the same pools are open as before.
pub fn open_pools_stay()
    ensures { OpensStay }
{}

/// A pool is raised at a seat below 64 that is free, and it isn't open then.
pub fn pools_are_raised_at_free_seats()
    ensures { RaisesFree }
{}

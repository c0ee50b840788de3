//! What every plan keeps of a desk, what follows of it, and what the parts of a plan meet.

ghost use Rattle.kd_settled.specs.Callers.{CallersAreAtHome, KeepersAreNew, KeepersKeep, LeftSeatsAreFree, OldFreeTheirSeats, OthersStayAtHome, RepliesAnswer};
ghost use Rattle.kd_settled.specs.Lengths.{AttachedIsShort, DescriptionsStay, ImagesFit};
ghost use Rattle.kd_settled.specs.Parts.{IdsGoOn, PlansAreShort, VisitsMeetOpen};
ghost use Rattle.kd_settled.specs.Rising.{AudiencesRise, BroadcastsRise};
ghost use Rattle.kd_settled.specs.Sizes.{PoolsHaveSizes, SizesStay};
ghost use Rattle.kd_settled.specs.Room.{FreeSeatsHaveRoom, ManyAreFew, OpensSettled, OwnersAreLive, SendersHaveRoom, SettledStays, TablesHaveRoom, UnicastsReach};

/// A new bus has a settled desk.
pub fn a_new_desk_is_settled()
    ensures { OpensSettled }
{}

/// After each plan of a settled desk for a caller that it knows the desk is settled: whatever is
/// somebody's belongs to a live connection of the right kind or to an endpoint that is there, and
/// nobody has more than it may have.
pub fn the_desk_stays_settled()
    ensures { SettledStays }
{}

/// Where each thing is somebody's among so many, and nobody has more than so many, there are no
/// more than the product of both.
pub fn many_are_few()
    ensures { ManyAreFew }
{}

/// A settled desk has 64 connections at most, and no table holds more than 64 of them may have.
pub fn tables_have_room()
    ensures { TablesHaveRoom }
{}

/// A connection that has less than it may finds room for more.
pub fn senders_have_room()
    ensures { SendersHaveRoom }
{}

/// Where a seat is free there is room for one more connection.
pub fn free_seats_have_room()
    ensures { FreeSeatsHaveRoom }
{}

/// The owner of a name is a live connection: an ordinary one by its claim, or an activator.
pub fn owners_are_live()
    ensures { OwnersAreLive }
{}

/// A message to one that isn't refused reaches somebody, an expected reply too: whoever asked is
/// there.
pub fn unicasts_reach()
    ensures { UnicastsReach }
{}

/// An offer, a post, a drain, a settle and a close meet an open pool.
pub fn visits_meet_open()
    ensures { VisitsMeetOpen }
{}

/// When all parts of a plan are visited, each pool has the size that the connection on its seat
/// asked for, and none is open where nobody sits.
pub fn pools_have_sizes()
    ensures { PoolsHaveSizes }
{}

/// Where the refusal of its first part ends a plan, each pool has the size that it had.
pub fn sizes_stay()
    ensures { SizesStay }
{}

/// A plan has at most 2^20 parts.
pub fn plans_are_short()
    ensures { PlansAreShort }
{}

/// The next id goes on by one at most.
pub fn ids_go_on()
    ensures { IdsGoOn }
{}

/// An audience stands by rising seat, and so do the posts of one notice.
pub fn audiences_rise()
    ensures { AudiencesRise }
{}

/// The offers of a broadcast stand by rising seat.
pub fn broadcasts_rise()
    ensures { BroadcastsRise }
{}

/// What is attached to a message adds at most 17,744 bytes to its image.
pub fn attached_is_short()
    ensures { AttachedIsShort }
{}

/// The image of a message that isn't too long has at most 83,280 bytes, whatever is attached.
pub fn images_fit()
    ensures { ImagesFit }
{}

/// What a connection calls itself has 255 bytes at most, where commands are well formed.
pub fn descriptions_stay()
    ensures { DescriptionsStay }
{}

/// All others stay at home: they stay who they are or wait to learn that they are gone, and only
/// its keeper removes an endpoint.
pub fn others_stay_at_home()
    ensures { OthersStayAtHome }
{}

/// Whatever the caller becomes, it is at home.
pub fn callers_are_at_home()
    ensures { CallersAreAtHome }
{}

/// A keeper keeps its endpoint, or it is none any more and the endpoint is gone.
pub fn keepers_keep()
    ensures { KeepersKeep }
{}

/// Whoever becomes a keeper keeps an endpoint that wasn't there.
pub fn keepers_are_new()
    ensures { KeepersAreNew }
{}

/// A seat that its caller left is free.
pub fn left_seats_are_free()
    ensures { LeftSeatsAreFree }
{}

/// A connection of a bus that was removed since frees its own seat, and nothing else changes.
pub fn old_free_their_seats()
    ensures { OldFreeTheirSeats }
{}

/// Each reply is one of its command's.
pub fn replies_answer()
    ensures { RepliesAnswer }
{}

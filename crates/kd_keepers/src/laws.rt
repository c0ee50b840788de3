//! What holds of keepers along every list of the desk, and that entries may be put so. Nothing is
//! run here; each function's contract is a law.

ghost use Rattle.kd_keepers.specs.Known.{EndedByKeepers, KeepersAreApart, KeepersAreThere, ListsAreHome, OwnKeepersStay, OwnKeepersTell};
ghost use Rattle.kd_keepers.specs.Puts.{DesksStayKept, HoldersAreHome, HoldersFindSettled, KeptBegins, KeptCallersAreOwn, KeptIsTied, KeptLeavesMayBePut, PoolsStayKept};

/// Along every list whose entries are true and come from their callers' passes the desk is settled,
/// and each endpoint of the slot's bus that a pass keeps is there.
#[tactic(auto, using(crate::proofs::Along::lists_are_home))]
pub fn desks_are_settled()
    ensures { ListsAreHome }
{}

/// Where a keeper gave a command, its pass kept its endpoint, which was there.
pub fn endpoints_are_there()
    ensures { KeepersAreThere }
{}

/// Whoever makes an endpoint makes one that nobody keeps.
#[tactic(auto, using(crate::proofs::Along::keepers_are_apart))]
pub fn keepers_are_apart()
    ensures { KeepersAreApart }
{}

/// Whoever ends an endpoint kept it.
#[tactic(auto, using(crate::proofs::Along::ended_by_keepers))]
pub fn endpoints_end_by_keepers()
    ensures { EndedByKeepers }
{}

/// A pass's own entries tell whether it keeps an endpoint, whatever other passes did.
#[tactic(auto, using(crate::proofs::Own::own_keepers_tell))]
pub fn own_entries_tell_keepers()
    ensures { OwnKeepersTell }
{}

/// A pass keeps an endpoint through every entry of its own that doesn't end it.
pub fn own_keepers_stay()
    ensures { OwnKeepersStay }
{}

/// The tie with keepers holds before any entry.
#[tactic(auto, using(crate::proofs::Puts::kept_begins))]
pub fn the_kept_tie_begins()
    ensures { KeptBegins }
{}

/// Where it stands, the tie without keepers does.
#[tactic(auto, using(crate::proofs::Puts::kept_is_tied))]
pub fn the_kept_tie_is_a_tie()
    ensures { KeptIsTied }
{}

/// An entry that may be put on a pool may be put with keepers.
#[tactic(auto, using(crate::proofs::Puts::pools_stay_kept))]
pub fn pools_stay_kept()
    ensures { PoolsStayKept }
{}

/// So may one on the desk that is no command.
#[tactic(auto, using(crate::proofs::Puts::desks_stay_kept))]
pub fn desks_stay_kept()
    ensures { DesksStayKept }
{}

/// A command may leave the desk when all that it addresses was visited, and its caller is its
/// pass's own.
pub fn commands_may_be_put()
    ensures { KeptLeavesMayBePut }
{}

/// What its caller is then, it is by the pass's own entries.
#[tactic(auto, using(crate::proofs::Puts::kept_callers_are_own))]
pub fn callers_stay_their_own()
    ensures { KeptCallersAreOwn }
{}

/// Whoever holds the desk finds it settled.
#[tactic(auto, using(crate::proofs::Puts::holders_find_settled))]
pub fn holders_find_settled()
    ensures { HoldersFindSettled }
{}

/// Its caller is at home there: a keeper's endpoint is there. Or it is of another bus.
#[tactic(auto, using(crate::proofs::Puts::holders_are_home))]
pub fn holders_are_home()
    ensures { HoldersAreHome }
{}

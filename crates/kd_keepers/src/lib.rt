//! That a keeper's endpoint is there, along the desk's list of a shared bus, and that the desk is
//! settled at every point of it. All of it stands in `specs/`; each function's contract is a law.
//!
//! ```text
//!   desk's list:   ENDPOINT_MAKE  ENDPOINT_MAKE  POLICY_SET   CLOSE     ENDPOINT_MAKE
//!                  by p1          by p2          by p1        by p1     by p3
//!   endpoint 1:    p1 ------------------------------------->            p3 ---------->
//!   endpoint 2:                   p2 -------------------------------------------------->
//! ```
//!
//! An endpoint is kept by the pass whose ENDPOINT_MAKE made it last, until that pass ends it; those
//! of a bus that goes are gone with it. Commands of a keeper come from that pass. So no plan meets a
//! desk that isn't settled, or a keeper whose endpoint isn't there.
//!
//! - `specs/Keeping`: who keeps which endpoint, along a list
//! - `specs/Known`: what follows of every list
//! - `specs/Puts`: the tie with keepers, that each kind of entry may be put, and what the holder of
//!   the desk finds
#![tactic(auto)]

mod laws;

pub use laws::{
    callers_stay_their_own, commands_may_be_put, desks_are_settled, desks_stay_kept,
    endpoints_are_there, endpoints_end_by_keepers, holders_are_home, holders_find_settled,
    keepers_are_apart, own_entries_tell_keepers, own_keepers_stay, pools_stay_kept,
    the_kept_tie_begins, the_kept_tie_is_a_tie,
};

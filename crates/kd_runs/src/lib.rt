//! What holds along every list of legal events from the opening of a bus: nobody whom the desk
//! addresses is left out, the desk is settled, callers are at home, and open pools are those of
//! live connections. All of it stands in `specs/`; each function's contract is a law.
//!
//! ```text
//!   take ------ visit -- visit -- leave           its plan had two parts, and both were visited
//!   take ------ visit ----------- leave           its first part was refused, which ended all
//!   ----------------------------------> events
//! ```
//!
//! - `specs/Left`: who leaves the desk has visited every part of its plan
//! - `specs/Reached`: the desk, the callers and the pools of every world that events lead to
//! - `specs/Met`: what visits and publishings meet
//! - `specs/Answered`: who leaves the desk is answered by one of its command's replies
//! - `specs/Lists`: the desk and the pools along lists, and with one event more
#![tactic(auto)]

mod laws;

pub use laws::{
    a_desk_goes_on, a_pool_goes_on, callers_are_apart, callers_are_home, desks_are_settled,
    holders_visit_few, leavers_are_answered, leavers_have_visited, nobody_is_left_out,
    open_pools_are_live, open_pools_are_sized, open_pools_so_far, publishes_are_reserved,
    the_desk_is_along, the_pools_are_along, visited_are_all, visits_meet_pools,
    visits_want_no_memory, what_is_addressed_goes_on, worlds_go_on,
};

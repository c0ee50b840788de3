//! What always holds of a desk: whatever is somebody's belongs to a live connection of the right
//! kind or to an endpoint that is there, and nobody has more than it may have. All of it stands in
//! `specs/`; each function's contract is a law.
//!
//! ```text
//!   conns     1 on seat 0, 4 on seat 2        each of them has
//!   registry  org.a: 1, 4                     at most 64 claims, by name and rank
//!   rules     of 1, of 1, of 4                at most 64 rules
//!   seals     of 4                            at most 16 seals
//!   requests  1 of 4                          asked at most 128 requests
//! ```
//!
//! - `specs/Settled`: the invariant
//! - `specs/Room`: what follows of it, that every plan keeps it, and that a new bus has it
//! - `specs/Callers`: the caller and all others after a command, and its reply
//! - `specs/Parts`, `specs/Sizes`: what the parts of a plan meet
//! - `specs/Rising`, `specs/Lengths`: in which order receivers are visited, and how long images are
#![tactic(auto)]

mod laws;

pub use laws::{
    a_new_desk_is_settled, attached_is_short, audiences_rise, broadcasts_rise, callers_are_at_home,
    descriptions_stay, free_seats_have_room, ids_go_on, images_fit, keepers_are_new, keepers_keep,
    left_seats_are_free, many_are_few, old_free_their_seats, others_stay_at_home, owners_are_live,
    plans_are_short, pools_have_sizes, replies_answer, senders_have_room, sizes_stay,
    tables_have_room, the_desk_stays_settled, unicasts_reach, visits_meet_open,
};

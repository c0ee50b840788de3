//! What each command of a bus comes to: who may give it, what refuses it, what it does to which
//! pools, its reply, and the desk after it. All of it stands in `specs/`, command by command; the
//! code over it is `kd_desk`.
//!
//! ```text
//!   caller, command          parts, in visiting order                reply, and the desk then
//!        |                                ^                                      ^
//!        +--- plan ---> refusal, or a plan ---- each part gets its answer ---- the desk's step
//! ```
//!
//! `laws` has what is proved of every plan: who sits where after it, and which pools are open while
//! it is visited.
#![tactic(auto)]

mod conn;
mod laws;
mod sent;
mod who;

pub use conn::Conn;
pub use laws::{
    callers_move, open_pools_have_live_connections, open_pools_stay, others_stay,
    pools_are_raised_at_free_seats, the_desk_stays_seated,
};
pub use sent::Sent;
pub use who::{Who, WhoKind};

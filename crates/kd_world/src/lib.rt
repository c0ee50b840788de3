//! The world of a bus: one desk, its holder, 64 pools and 64 callers, the events that change them
//! one at a time, and what holds of every list of events. All of it stands in `specs/`; the code
//! that runs events is `kd_core`.
//!
//! ```text
//!   caller 1   take ------ visit -- visit -- leave ------------- publish -- publish
//!   caller 2       receive        free             take -- leave          receive
//!              ------------------------------------------------------------------> events
//! ```
//!
//! - `specs/Lib` lists the definitions in reading order, and says which a reader has to believe
//! - `specs/Tie`: each pool is offered exactly what the desk addresses to it
//! - `specs/Agreed`: hands agree with pools, and slices keep their place and their bytes
//! - `specs/Owed`: what was placed is published
//! - `specs/Whole`: a command run whole, for whoever runs commands and not events
//! - `laws`: what is proved of every list of events
#![tactic(auto)]

mod laws;
mod told;

pub use laws::{
    addressed_is_offered, hands_always_agree, offered_so_far, publishes_always_arrive,
    slices_always_stay,
};
pub use told::Told;

//! A sound pool stays sound, whatever is done to it: its slices lie inside it at multiples of 8,
//! don't meet, have numbers of their own and keep their bytes, and the gaps between them are the
//! rest. All of it stands in `specs/`; each function's contract is a law.
//!
//! ```text
//!   0       16              48      64                  104
//!   | 3     |               | 0     | 7                 |    a sound pool
//!   | 3     | 1     |       | 0     | 7                 |    after an offer of 16 bytes
//!   | 3     | 1     |       | 0     |                   |    after 7 was freed and swept
//! ```
//!
//! - `specs/Lengths`: the lengths of what acts bring along
//! - `specs/Staying`: that pools stay sound, and that no other lengths would do
#![tactic(auto)]

mod laws;

pub use laws::{
    acts_keep_pools_sound, drained_messages_have_lengths, only_lengths_keep_pools_sound,
    pools_are_sound,
};

//! What comes to the pools of a bus has the lengths that keep them sound, so every open pool is
//! sound, at every moment. All of it stands in `specs/`; each function's contract is a law.
//!
//! ```text
//!   HELLO          raise 4096        a multiple of 8, else its frame isn't well formed
//!   SEND           offer 104         an image: whole words, and payloads that are filled up
//!   any command    post 88           a notice is an image of its own
//!   NAME_ACQUIRE   drain, settle     what was drained from a sound pool
//! ```
//!
//! - `specs/Plans`: the parts of every plan
//! - `specs/Worlds`: every event, and the pools of every world that legal events lead to
#![tactic(auto)]

mod laws;

pub use laws::{acts_have_lengths, plans_have_lengths, pools_are_always_sound};

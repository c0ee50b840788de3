//! Frames and replies as lines for people, and lines as frames.
//!
//! ```text
//! c1 HELLO size=4096
//! c1 SEND +EXPECT_REPLY to=2 cookie=7 last=100 PAYLOAD "hi\x00"
//! c1 RECV refused NoMessage dropped=0
//! ```
//!
//! A line has a caller and a command; then its flags, each with `+`; its numbers, each with its
//! name; and its items, each kind in capitals, with their numbers and their bytes in quotes. What
//! is 0 in a message is left out. `specs/` gives the line of each command and each reply.
#![tactic(auto)]

mod commands;
mod end;
mod images;
mod kind;
mod lines;
mod making;
mod marks;
mod names;
mod parts;
mod pieces;
mod reading;
mod reading_items;
mod replies;
mod showing;
mod tokens;

pub use end::End;
pub use kind::Kind;
pub use making::make;
pub use showing::show;

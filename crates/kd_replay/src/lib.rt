//! A replay: recorded frames of 64 callers, each run whole on one bus, and their replies.
//!
//! ```text
//!   frame      take -- visit -- visit -- leave -- publish -- publish      reply
//!   frame      receive                                                    reply
//!   frame      (refused by its form)                                      reply
//! ```
//!
//! A command is run as one take of the desk, all its visits, the leave, and a publishing of each
//! message that its caller has pending; a receive, a read and a free are one event each. Nothing
//! comes between the events of a frame. `specs/` has the transcript of a list of frames, and
//! [`replay_frames`] writes it. [`run_frame`] runs one frame, and tells a [`Witness`] of each event
//! and its answer.
#![tactic(auto)]

mod fitting;
mod frames;
mod laws;
mod replay;
mod replying;
mod running;
mod witness;

pub use fitting::{is_answer, is_short};
pub use frames::frame_size;
pub use laws::{a_frame_has_one_turn, frames_are_run_by_legal_events, frames_have_one_transcript};
pub use replay::{open, replay_frames};
pub use replying::run_frame;
pub use witness::{Nobody, Witness};

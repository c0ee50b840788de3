//! A library by which programs speak to a session of the bus.
//!
//! A client owns its link. It writes the frame of a command and reads the reply, so what it writes
//! are the frames of what was asked, in order, and each answer is the reply at its own place:
//!
//! ```text
//!   written   | HELLO | SEND | RECV  | READ | FREE | ..
//!                 |      |      |       |      |
//!   read      | reply | reply | reply | reply | reply | ..
//!             0                       |
//!                                     a place: so many bytes after the client was made
//! ```
//!
//! A link that fails or ends, bytes that are no reply, and want of memory end the client, and the
//! link comes back.
#![tactic(auto)]

mod ahead;
mod client;
mod dialogue;
mod error;
mod laws;
mod next;
mod reading;
mod receiving;
mod request;
mod requesting;
mod sending;

pub use client::Client;
pub use error::ClientError;
pub use laws::{
    a_client_is_told_by_its_calls, a_new_client_was_not_called, a_settled_request_waited,
};
pub use next::Next;
pub use request::Request;

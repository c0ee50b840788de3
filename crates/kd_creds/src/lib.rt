//! The configuration of a service: which buses it makes, on which sockets it listens, and who its
//! callers are.
//!
//! A configuration is a text of lines, each of one of these forms, with one blank between two
//! words:
//!
//! ```text
//!     # a comment
//!     bus NAME UID SIZE HASHES
//!     socket PATH UID GID plain SESSIONS
//!     socket PATH UID GID privileged SESSIONS
//! ```
//!
//! A `bus` line makes a bus for the user UID, with Bloom filters of SIZE bytes and HASHES bits a
//! string. A `socket` line listens at PATH and serves SESSIONS callers there, one after the other,
//! each with the credentials that the line names.
#![tactic(auto)]

mod bloom;
mod error;
mod line;
mod listen;
mod number;
mod word;

pub use error::ListenError;
pub use line::ListenLine;
pub use listen::read_listen;

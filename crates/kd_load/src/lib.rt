//! A generated load of a bus: what each of its threads sends, and whom each message is for.
//!
//! ```text
//!   thread 1   seed + 1   two draws a message   to all, by a digit's filter     or to one id
//!   thread 2   seed + 2   two draws a message   to all, by a digit's filter     or to one id
//! ```
//!
//! The count of a load filters the list of its messages, and runs no bus.
//!
//! - `specs/Load`: the draws, and the messages of each thread
//! - `specs/Counts`: whom a message is for, how many are for each connection, and the summary
//! - `specs/Bus`: the bus of a load, and what is sent there; `specs/Laws`: what its lists come to
//! - `generator`: the draws; `message`: one message; `laws`: what is proved of the lists
#![tactic(auto)]

mod generator;
mod laws;
mod message;

pub use generator::Generator;
pub use laws::{loads_are_counted, loads_run, set_up_is_front};
pub use message::{Message, Target};

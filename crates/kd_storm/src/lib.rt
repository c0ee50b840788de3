//! What the threads of a load give their bus: the filters of its messages, built once before the
//! threads start, and the commands of each connection.
//!
//! - `filters`: a filter for each of eight digits
//! - `commands`: a connection's HELLO and its rule, and the SEND of a message
#![tactic(auto)]

mod commands;
mod filters;

pub use commands::{hello, rule, sending};
pub use filters::Filters;

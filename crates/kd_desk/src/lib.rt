//! The desk of a bus: who may ask what, and what a command comes to.
//!
//! A command is planned under the desk's lock, its parts are visited in the receivers' pools, and
//! then it is finished:
//!
//! ```text
//!   caller, command          parts, in visiting order                reply, and the desk then
//!        |                                ^                                      ^
//!        +--- plan ---> refusal, or a plan ---- each part gets its answer ---- finish
//! ```
//!
//! What a plan is stands in `kd_commands`, command by command. A planner is a file of its own:
//! `hello`, `endpoints`, `granting`, `leaving`, `closing`, `naming`, `listing`, `matching`,
//! `sealing`, `ticking`; that of messages is in `kd_messages`. `planning` says who may give what.
//! The desk itself, and how a plan changes it, is in `kd_tables`. What items say is read by
//! `kd_said`.
#![tactic(auto)]

mod closing;
mod endpoints;
mod granting;
mod hello;
mod leaving;
mod listing;
mod matching;
mod naming;
mod planning;
mod sealing;
mod ticking;

pub use kd_commands::{Conn, Who, WhoKind};
pub use kd_tables::{Content, Desk, Out, Part, Plan, SEATS};
pub use planning::plan;

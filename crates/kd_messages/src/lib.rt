//! Whom a message or a notice reaches, and what is offered to each of them.
//!
//! ```text
//!   message ---> sending, sharing ---> routing or broadcasting ---> offers ---> plan
//!   notice ---> notices ---> posts of a plan
//! ```
//!
//! A message is judged by `sending`, `sharing` and `routing`, and its offers are made by `offers`
//! and `broadcasting`, each with what `attaching` tells its receiver of the sender. `notices` says
//! to whom the bus tells what it tells by itself.
#![tactic(auto)]

mod attaching;
mod broadcasting;
mod notices;
mod offers;
mod routing;
mod sending;
mod sharing;

pub use notices::{News, owner_posts, tell};
pub use offers::is_monitor;
pub use sending::plan_send;

//! Tests of what a service stands on, over objects in memory: each is called past its end, at the
//! calls that fail, and with things that come back in another order than they went.
#![tactic(auto)]

#[cfg(test)]
mod binders;
#[cfg(test)]
mod clocks;
#[cfg(test)]
mod links;
#[cfg(test)]
mod listeners;
mod serving;
#[cfg(test)]
mod stock;

pub use serving::{serve_on, serve_two};

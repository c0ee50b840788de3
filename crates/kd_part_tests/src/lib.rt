//! Tests of the parts that the desk is made of, which need only their public calls.
//!
//! Most are scripts: a line for each call, and behind an arrow its answer; [`script`] plays them.
#![tactic(auto)]

#[cfg(test)]
mod bloom;
#[cfg(test)]
mod configuration;
#[cfg(test)]
mod endpoints;
#[cfg(test)]
mod matches;
#[cfg(test)]
mod names;
#[cfg(test)]
mod policy;
#[cfg(test)]
mod queue;
#[cfg(test)]
mod registry;
#[cfg(test)]
mod requests;
#[cfg(test)]
mod script;
#[cfg(test)]
mod seals;

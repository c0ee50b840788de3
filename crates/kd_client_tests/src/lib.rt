//! Tests of a client over links in memory.
//!
//! Frames and replies stand in tables of text, a line for each; [`table`] reads their words. What a
//! client says of each call stands in its contracts: here are replies in odd pieces, and links that
//! fail or end at each place.
#![tactic(auto)]

#[cfg(test)]
mod ahead;
#[cfg(test)]
mod asking;
#[cfg(test)]
mod table;
#[cfg(test)]
mod talk;
#[cfg(test)]
mod waiting;

//! Tests of the formats: small values, items, frames, replies and images.
//!
//! Cases stand in tables of text, a line for each; [`table`] reads their words. What a frame is
//! refused for on its way through a replay is no test here: it stands among the streams of
//! `kd_rows`.
#![tactic(auto)]

#[cfg(test)]
mod frames;
#[cfg(test)]
mod images;
#[cfg(test)]
mod items;
#[cfg(test)]
mod replies;
#[cfg(test)]
mod table;
#[cfg(test)]
mod values;

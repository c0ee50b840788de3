//! Tests of links, listeners and binders over real sockets.
#![tactic(auto)]

#[cfg(test)]
mod exchange;
#[cfg(test)]
mod frames;
#[cfg(test)]
mod pairs;
#[cfg(test)]
mod paths;

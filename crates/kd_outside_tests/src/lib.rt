//! Tests of what the bus meets outside itself: over memory, and once over what is real.
#![tactic(auto)]

#[cfg(test)]
mod jobs;
#[cfg(test)]
mod streams;
#[cfg(test)]
mod system;

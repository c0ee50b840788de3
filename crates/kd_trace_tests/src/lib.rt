//! Tests of traces and their verdicts over public calls.
#![tactic(auto)]

#[cfg(test)]
mod broken;
#[cfg(test)]
mod faults;
#[cfg(test)]
mod record;
#[cfg(test)]
mod runs;
#[cfg(test)]
mod table;

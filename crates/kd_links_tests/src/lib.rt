//! Tests of the linked book of slices and the linked order of receives, each beside the plain one.
#![tactic(auto)]

#[cfg(test)]
mod books;
#[cfg(test)]
mod draws;
#[cfg(test)]
mod queues;

//! Tests of what the parts make up: a desk, pools, and worlds in which callers come in between one
//! another. Whole conversations stand in `kd_rows`.
#![tactic(auto)]

#[cfg(test)]
mod desk;
#[cfg(test)]
mod pool;
#[cfg(test)]
mod world;

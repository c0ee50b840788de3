//! The lists of a shared bus: one of its desk, and one of the pool of each seat. Each turn of a
//! pass on a lock ends that lock's list with one entry, which says what the turn did.
//!
//! ```text
//! desk's list:    HELLO by p1      SEND by p2       SEND by p3       BYEBYE by p1
//!                    |                |                |                |
//! seat 0's list:  raise            offer  publish   offer  receive   close
//!                                  by p2  by p2     by p3  by p1
//! ```
//!
//! What stands behind a lock is the state along its list. The desk's list addresses visits to the
//! pools, and each pool's list has just these, in order, each once, but for what the holder of the
//! desk has visited since it took it. This is the tie; with it each entry is true where it stands,
//! a command comes from the pass that has its caller's seat, and each publishing is of what was
//! offered.
//!
//! A slot of a domain has one bus after another. A new bus begins with an empty desk, and the seats
//! of the callers before it wait until these have said BYEBYE or CLOSE.
//!
//! No code runs here. The definitions stand in `specs/`, in reading order in `specs/Lib`.
//!
//! - `laws`: what follows of every such list, and that each kind of entry may be put
#![tactic(auto)]

pub mod laws;

//! The shared bus, for running threads. Each thread has a pass of its own, and takes turns with it:
//! one lock is the desk's, and one is each pool's.
//!
//! ```text
//!   lock 0    lock 1      lock 2          lock 64
//!   desk      pool of     pool of    ..   pool of
//!             seat 0      seat 1          seat 63
//!
//!   start                a turn on the desk and, while it is held, one on each pool that is closed
//!   command              a turn on the desk and, while it is held, one on the pool of each visit
//!   publish, receive,    a turn on the pool of the seat
//!   read
//!   release              one step on the seat's mark words, which waits for nobody
//! ```
//!
//! What a call tells stands in the lists of `kd_histories`: each turn ends the list of its lock
//! with one entry, which is a `Slip` here. A value behind a lock is the state along its whole list.
//!
//! - `bus`: the bus and its passes; `locked`: what lies behind the locks; `slip`: what an entry
//!   says
//! - `conn`, `member`: what a caller is, with its hand
//! - `publishing`, `receiving`, `reading`, `releasing`: the calls on one pool
//! - `starting`: a bus begins in the slot
//! - `closing`: all passes come back, and the desk and the pools come out
//! - `command`: a pass gives a command; `preparing`, `visiting`, `pendings`, `leaving`: what it
//!   needs, the visits of its plan, what these leave to be published, and how the desk is left
#![tactic(auto)]

mod bus;
mod closing;
mod command;
mod conn;
mod leaving;
mod locked;
mod member;
mod pendings;
mod preparing;
mod publishing;
mod reading;
mod receiving;
mod releasing;
mod slip;
mod starting;
mod visiting;

pub use bus::{Bus, BusPass};
pub use closing::Closed;
pub use conn::Conn;
pub use kd_holds::{Pending, Published};
pub use member::{Keeper, Maker, Member};

//! What the bus meets outside itself: links, clocks, listeners, and what runs its workers.
//!
//! Each trait has a count of faults that never falls, and a call answers [`Failed`] only where the
//! count rose; so a program that stops with a fault can be held to it. The objects in memory tell
//! all that they hold and fail at the calls that they were told; the real ones tell nothing of
//! content. [`read_to_end`] and [`write_whole`] are the two loops over bytes that programs need.
#![tactic(auto)]

mod binder;
mod calls;
mod file;
mod gathered;
mod line;
mod links;
mod moments;
mod path;
mod rack;
mod service;
mod shelf;
mod socket;
mod spawners;
mod streams;
mod system_clock;
mod tape;
mod traits;
mod unix;
mod whole;
mod work;

pub use binder::ListBinder;
pub use file::FileSource;
pub use line::MemLink;
pub use links::ListListener;
pub use moments::ListClock;
pub use service::{Binder, Clock, Listener};
pub use shelf::MemSink;
pub use socket::{UnixLink, UnixListen};
pub use spawners::{Finished, InTurn, Join, OsThreads, Started, Work, start_thread};
pub use streams::{StdSink, StdSource};
pub use system_clock::SysClock;
pub use tape::MemSource;
pub use traits::{Failed, Link, Sink, Source};
pub use unix::UnixBinder;
pub use whole::{InputError, read_to_end, write_whole};
pub use work::{Job, Meet, NoMeet, Spawner};

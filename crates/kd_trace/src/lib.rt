//! Traces: runs that are written down event by event, each with what it was answered, and a checker
//! that tells whether such a run was legal and was answered as it had to be.
//!
//! ```text
//!   byte 0
//!   +----------------+----------+-----------+----------+-----------+----------+--
//!   | TAKE 1         | PLAIN    | VISIT     | SLICE    | LEAVE     | LEFT     |  ..
//!   | 1, frame       | Taken    | 1, seat 0 | 0        | 1         | reply    |
//!   +----------------+----------+-----------+----------+-----------+----------+--
//!     pair 0                      pair 1                 pair 2
//! ```
//!
//! `specs/` says which bytes are a trace and which traces are right; [`check_trace`] judges bytes
//! by it, and [`check_run`] those that it reads. [`record_run`] writes the trace of the run that
//! frames make.
#![tactic(auto)]

mod checking;
mod comparing;
mod event_items;
mod judging;
mod laws;
mod outcome;
mod outcome_items;
mod pairs;
mod record;
mod recording;
mod telling;
mod verdict;
mod words;
mod writing;

pub use checking::check_trace;
pub use laws::{
    a_trace_has_one_reading, a_trace_has_one_verdict, bytes_break_at_one_place,
    what_breaks_is_no_trace,
};
pub use outcome::Outcome;
pub use record::record_run;
pub use telling::check_run;
pub use verdict::{TraceError, Verdict};

//! That the reply to each command of the desk is one of the command's, and has at most 1,198,120
//! bytes, so it may always be written; and that a read has no more bytes than its pool. All of it
//! stands in `specs/`; each function's contract is a law.
//!
//! ```text
//!   NAME_LIST   | size, command, caller, code | count | connections     | claims               |
//!               | 32 bytes                    | 8     | 64 of 32 bytes  | 4,096 of at most 288 |
//! ```
#![tactic(auto)]

mod laws;

pub use laws::{leavers_are_answered_shortly, plans_answer_shortly, reads_fit_their_pool};

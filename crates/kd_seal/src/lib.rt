//! Sealed payloads: bytes that a connection puts into the bus once, and that many messages then
//! share.
//!
//! A connection's seals are numbered from 1, and no number is used again. The bytes of a seal never
//! change. A share is another owner of them, so it stays when the seal is gone. The idea comes from
//! the sealed memory files that kdbus messages carry; the numbers are this project's own.
//!
//! ```text
//! seals      1, 1 abc    2, 1 xyz    1, 3 de      connection, number, bytes, as they were sealed
//! counters   2: 2        1: 4                     connection: its next number
//!
//! Connection 1 has unsealed its number 2, and its next seal gets 4.
//! ```
#![tactic(auto)]

mod sealed;
mod seals;

pub use sealed::Sealed;
pub use seals::{CONNECTIONS, Counter, LONGEST, SEALS, SEALS_OF_ONE, Seal, Seals};

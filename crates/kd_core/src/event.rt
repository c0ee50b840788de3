//! What callers do, one event at a time, and what they are answered.

use kd_desk::Out;
use kd_pool::{Got, RecvMode};
use kd_types::{Blob, Refusal, Seat};
use kd_wire::{Command, Reply};

/// One action of one caller, whose number is 1 to 64.
#[derive(Debug, Drop)]
pub enum Event {
    /// It takes the desk with a command.
    Take {
        caller: u64,
        command: Command,
    },
    /// It visits the pool of a seat, while it holds the desk.
    Visit {
        caller: u64,
        seat: Seat,
    },
    /// It leaves the desk, with all visits made.
    Leave {
        caller: u64,
    },
    /// It writes a message into the slice that it reserved, the oldest of that seat and number.
    Publish {
        caller: u64,
        seat: Seat,
        number: u32,
    },
    /// It receives, peeks at or drops the next message of its pool.
    Receive {
        caller: u64,
        mode: RecvMode,
    },
    /// It reads the bytes of a slice of its pool, or the sealed bytes that the slice shares.
    Read {
        caller: u64,
        number: u32,
        sealed: bool,
    },
    /// It gives a received slice back.
    Free {
        caller: u64,
        number: u32,
    },
}

/// What an event is answered.
#[derive(Debug, Drop)]
pub enum Answer {
    /// The desk is taken.
    Taken,
    /// The desk or the pool refuses, and nothing changes.
    Refused(Refusal),
    /// The pool's answer to the visit.
    Visited(Out),
    /// The reply to the command.
    Left(Reply),
    /// The message is queued.
    Published,
    /// The pool was closed since the slice was reserved; nothing changes.
    Gone,
    /// The message that was received.
    Got(Got),
    /// The bytes that were read.
    Bytes(Blob),
    /// The slice is given back.
    Freed,
}

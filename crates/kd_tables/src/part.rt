//! What a plan visits, and what the pools answer.

ghost use Rattle.std.specs.Prelude.{◌≡◌};
ghost use Rattle.kd_tables.specs.Drafts.{seat_in};

use kd_types::{Blob, ConnId, Refusal, Seat, SliceNo};

/// One visit of a plan: what is done to the pool of a seat while the desk is held.
#[derive(Debug, Drop)]
pub enum Part {
    /// The pool is opened with this size in bytes; 0 for a policy holder, which has none.
    Raise {
        seat: Seat,
        size: u32,
    },
    /// The pool is closed; without `force` only where no message waits there.
    Close {
        seat: Seat,
        force: bool,
    },
    /// A slice of `len` bytes is reserved for a message of the user and the connection. Where it
    /// `must` be placed, a refusal ends the command; else it is counted as dropped.
    Offer {
        seat: Seat,
        user: u32,
        len: u32,
        from: ConnId,
        must: bool,
    },
    /// A notice of the bus is placed and queued, or is counted as dropped.
    Post {
        seat: Seat,
        image: Blob,
    },
    /// All waiting messages of an activator are taken out of its pool, which has this size in
    /// bytes.
    Drain {
        seat: Seat,
        size: u32,
    },
    /// What was drained is placed and queued for the new owner of the name.
    Settle {
        seat: Seat,
    },
}

impl Part {
    /// The seat whose pool is visited.
    pub fn seat(&self) -> Seat
        ensures { result ≡ seat_in self.now }
    {
        match self {
            Part::Raise { seat, .. }
            | Part::Close { seat, .. }
            | Part::Offer { seat, .. }
            | Part::Post { seat, .. }
            | Part::Drain { seat, .. }
            | Part::Settle { seat } => *seat,
        }
    }
}

/// What a pool answers to a visit.
#[derive(Clone, Copy, Debug, PartialEq, Eq)]
pub enum Out {
    /// It was opened, closed or drained, or took what was drained.
    Done,
    /// A slice of this number was reserved, or holds the notice.
    Slice(SliceNo),
    /// The pool refused, and stays as it was but for what it counts and sweeps.
    Refused(Refusal),
}

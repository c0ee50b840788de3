//! What an entry says.
ghost use Rattle.std.specs.Prelude.{◌≡◌};

use std::snapshot::Snapshot;

/// What one turn did. On the desk: a pass took a seat, gave it back, or sent to it. On a pool: it
/// was opened, closed, offered a slice (after a sweep that had its number or not), or its slice was
/// received. An idle turn changes nothing.
#[derive(Clone, Copy)]
pub enum Act {
    Join(u32),
    Leave(u32),
    Send(u32),
    Raise,
    Close,
    Offer(bool),
    Receive,
    Idle,
}

/// An entry, which takes no memory.
#[derive(Drop)]
pub struct Slip {
    pub act: Snapshot<Act>,
}

impl Slip {
    pub fn of(act: Act) -> Slip
        ensures { result.act.value ≡ act }
    {
        Slip {
            act: Snapshot::of(&act),
        }
    }
}

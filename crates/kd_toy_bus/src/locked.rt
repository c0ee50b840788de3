//! What lies behind the locks.
ghost use Rattle.std.specs.Prelude.{◌≡◌, ℕ};

use crate::act::Slip;
use kd_turn::standing::Standing;

/// How many seats there are, each with a pool.
pub const SEATS: u32 = 3;

/// The number of a pool's one slice. It stands in the last of the four mark words.
pub const SLICE: u32 = 200;

/// A pool and its slice.
#[derive(Clone, Copy)]
pub enum Pool {
    Closed,
    Free,
    Placed,
    Handed,
}

/// Which seats are taken.
#[derive(Clone, Copy)]
pub struct Desk {
    pub taken: [bool; 3],
}

#[derive(Drop)]
pub enum Locked {
    Desk(Desk),
    Pool(Pool),
}

impl Standing for Locked {
    type Entry = Slip;

    ghost use Rattle.kd_toy_bus.specs.Bus.{stands, Tie, lends, out, keeper, slip_hand, empties};

    ghost stands = { stands };

    ghost tie = { Tie };

    ghost lends = { lends };

    ghost out = { out };

    ghost keeper = { keeper };

    ghost hand_after = { slip_hand };

    ghost empties = { empties };
}

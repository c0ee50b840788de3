//! What lies behind the locks.

use crate::slip::Slip;
use kd_desk::Desk;
use kd_holds::Hold;
use kd_turn::standing::Standing;
use std::marker::Model;

/// What lies behind lock 0: the desk of a slot, and how often a bus began or ended there.
#[derive(Drop)]
pub struct Slot {
    pub(crate) generation: u64,
    pub(crate) desk: Desk,
}

impl Model for Slot {
    ghost use Rattle.kd_histories.specs.Slots as slots;

    ghost Value = { slots.Slot };

    ghost view = { λ s. record { generation = s.generation; desk = s.desk } };
}

/// What lies behind a lock: behind lock 0 the desk, behind lock c + 1 the pool of seat c.
#[derive(Drop)]
pub enum Locked {
    Desk(Slot),
    Pool(Hold),
}

impl Standing for Locked {
    type Entry = Slip;

    ghost use Rattle.kd_bus.specs.Values.{stands};
    ghost use Rattle.kd_histories.specs.Seats.{keeper};
    ghost use Rattle.kd_histories.specs.Lent.{lends, out, hand_after, empties};
    ghost use Rattle.kd_histories.specs.Tie.{Tie};

    ghost stands = { stands };

    ghost tie = { Tie };

    ghost lends = { lends };

    ghost out = { out };

    ghost keeper = { keeper };

    ghost hand_after = { hand_after };

    ghost empties = { empties };
}

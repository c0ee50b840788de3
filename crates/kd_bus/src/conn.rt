//! A connection of a caller, with its hand.

ghost use Rattle.std.specs.Prelude.{◌≡◌};
ghost use Rattle.kd_bus.specs.Turned.{has_pool};

use kd_holds::Hand;
use kd_types::{ConnId, Creds, Kind, Seat};

/// A connection that a caller made by HELLO, and what it was told of the slices of its pool.
#[derive(Debug, Drop)]
pub struct Conn {
    /// Whoever is at the other end.
    pub creds: Creds,
    pub id: ConnId,
    /// Its seat, below 64; its pool is the seat's.
    pub seat: Seat,
    /// The slot of its bus in a domain, 0 outside one.
    pub slot: u8,
    /// Which bus of the slot it is of.
    pub generation: u64,
    pub kind: Kind,
    /// Which numbers of its pool it has looked at, and which it has received and not yet released.
    pub hand: Hand,
}

impl Conn {
    /// Whether it has a pool; a policy holder has none.
    pub(crate) fn has_pool(&self) -> bool
        ensures { result ≡ has_pool self.now.kind }
    {
        match self.kind {
            Kind::Holder => false,
            Kind::Ordinary | Kind::Activator | Kind::Monitor => true,
        }
    }
}

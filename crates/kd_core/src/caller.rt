//! A caller of a world.

ghost use Rattle.std.specs.Prelude.{◌≡◌, IfOk};
ghost use Rattle.kd_world.specs.State as world;
ghost use Rattle.kd_world.specs.State.{stranger};
ghost use Rattle.kd_world.specs.Own.{pool_seat};

use kd_desk::{Who, WhoKind};
use kd_holds::{Hand, Pending};
use kd_types::{Creds, Kind, Seat};
use std::alloc::{AllocError, Global};
use std::marker::Model;

/// Who somebody was until it says otherwise.
const STRANGER: Creds = Creds {
    uid: 1000,
    gid: 1000,
    privileged: false,
};

/// A caller: who it is, what it was told of its slices, and what it has yet to publish.
#[derive(Debug, Drop)]
pub struct Caller {
    pub(crate) who: Who,
    /// Of the connection that it has, or had last.
    pub(crate) kind: Kind,
    pub(crate) hand: Hand,
    /// In the order of their making.
    pub(crate) pendings: Vec<Pending>,
}

impl Model for Caller {
    ghost Value = { world.Caller };

    ghost view = { λ c. record { who = c.who; kind = c.kind; hand = c.hand; pendings = c.pendings.items } };
}

impl Caller {
    /// A caller that hasn't said who it is.
    pub(crate) fn stranger(alloc: Global) -> Result<Caller, AllocError>
        ensures { IfOk result (λ c. c ≡ stranger) }
    {
        Ok(Caller {
            who: Who {
                creds: STRANGER,
                member: WhoKind::Fresh,
            },
            kind: Kind::Ordinary,
            hand: Hand::make(alloc)?,
            pendings: Vec::new(alloc),
        })
    }

    /// The seat whose pool it may use; a policy holder has none.
    pub(crate) fn seat(&self) -> Option<Seat>
        ensures { result ≡ pool_seat self.now }
    {
        match self.who.member {
            WhoKind::Conn { seat, .. } if self.kind != Kind::Holder => Some(seat),
            _ => None,
        }
    }
}

//! Claims on names, and the answers that speak of them.

ghost use Rattle.std.specs.Prelude.{◌≡◌};
ghost use Rattle.kd_registry.specs.Claims.{allows, is_claim_of, is_ordinary_claim, queues};

use kd_types::{ConnId, NameFlags, Text};

/// Whose claim it is.
#[derive(Clone, Copy, Debug, PartialEq, Eq)]
pub enum Stake {
    /// An ordinary connection's, with the flags of its last acquire.
    Ordinary(NameFlags),
    /// An activator's: a placeholder, which owns the name where nobody else does.
    Activator,
}

/// A connection's claim on a name.
#[derive(Debug, Drop)]
pub struct Claim {
    pub name: Text,
    pub id: ConnId,
    pub stake: Stake,
}

impl Claim {
    pub(crate) fn is_ordinary(&self) -> bool
        ensures { result ≡ is_ordinary_claim self.now }
    {
        matches!(self.stake, Stake::Ordinary(_))
    }

    /// Whether it is an ordinary claim of the connection.
    pub(crate) fn is_of(&self, id: ConnId) -> bool
        ensures { result ≡ is_claim_of id self.now }
    {
        self.is_ordinary() && self.id == id
    }

    /// Whether the owner lets others take its place.
    pub(crate) fn allows(&self) -> bool
        ensures { result ≡ allows self.now }
    {
        match self.stake {
            Stake::Ordinary(flags) => flags.allows(),
            Stake::Activator => false,
        }
    }

    /// Whether the connection waits in the queue where it isn't the owner.
    pub(crate) fn queues(&self) -> bool
        ensures { result ≡ queues self.now }
    {
        match self.stake {
            Stake::Ordinary(flags) => flags.queues(),
            Stake::Activator => false,
        }
    }
}

/// What an acquire makes of the caller.
#[derive(Clone, Copy, Debug, PartialEq, Eq)]
pub enum Verdict {
    /// It is the owner. `old` is the owner before, 0 for none; `activator` is that owner where it
    /// was an activator, whose queued messages are handed over.
    Owner {
        old: ConnId,
        activator: Option<ConnId>,
    },
    /// It waits in the queue.
    Queued,
}

/// A row of the list of names.
#[derive(Debug, Drop)]
pub struct Listed {
    pub id: ConnId,
    /// 1 for an owner that isn't an activator, 2 for a claim in the queue, 4 for an activator.
    pub standing: u64,
    pub name: Text,
}

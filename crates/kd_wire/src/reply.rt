//! What the bus answers.

ghost use Rattle.std.specs.Prelude.{◌≡◌, List};
ghost use Rattle.kd_wire.specs.declared.reply.ListedItem.{ListedItem};

use kd_types::{Blob, ConnId, Moment, Refusal, Text};
use std::marker::Model;

/// A line of a listing.
#[derive(Debug, Drop)]
pub struct ListedItem {
    /// The connection.
    pub id: ConnId,
    /// What it is to the name: 0 where connections are listed, 1 its owner, 2 queued for it, 4 its
    /// activator.
    pub standing: u64,
    /// The name; empty where connections are listed.
    pub name: Text,
}

/// The lines of a listing, in order.
#[derive(Debug, Drop)]
pub struct ListedItems {
    members: Vec<ListedItem>,
}

impl Model for ListedItems {
    ghost Value = { List ListedItem };

    ghost view = { λ l. l.members.items };
}

impl ListedItems {
    /// The list of these lines, which are moved and not copied.
    pub fn of(items: Vec<ListedItem>) -> ListedItems
        ensures { result ≡ items.items }
    {
        ListedItems { members: items }
    }

    /// The lines in order.
    pub fn items(&self) -> &[ListedItem]
        ensures { result.now ≡ self.now }
    {
        &self.members
    }
}

/// The answer to a command: what it gives where it is done, or why it is refused.
#[derive(Debug, Drop)]
pub enum Reply {
    /// The new connection's id, and the bus's Bloom size in bytes and number of hashes.
    Hello {
        id: ConnId,
        size: u64,
        hashes: u64,
    },
    Send,
    /// The slice's number, and where in the pool it lies; and how many messages were dropped before
    /// it.
    Recv {
        number: u64,
        offset: u64,
        length: u64,
        dropped: u64,
    },
    /// The bytes of the slice, or of what it shares.
    Read {
        bytes: Blob,
    },
    Free,
    Byebye,
    Close,
    /// Whether the caller is queued for the name and doesn't own it.
    NameAcquire {
        queued: bool,
    },
    NameRelease,
    NameList {
        listed: ListedItems,
    },
    MatchAdd,
    MatchRemove,
    PolicySet,
    EndpointMake,
    MakeBus,
    /// The moment of the bus's clock.
    Tick {
        moment: Moment,
    },
    /// The number of the new seal.
    Seal {
        number: u64,
    },
    Unseal,
    Enter,
    /// The command changed nothing that its refusal doesn't tell of.
    Refused(Refusal),
}

//! Who gives a command.

use kd_types::{ConnId, Creds, Seat};

/// A caller as the desk sees it: its credentials, and what it is on the bus.
#[derive(Clone, Copy, Debug, PartialEq, Eq)]
pub struct Who {
    pub creds: Creds,
    pub member: WhoKind,
}

/// What a caller is on the bus.
#[derive(Clone, Copy, Debug, PartialEq, Eq)]
pub enum WhoKind {
    /// Nothing yet: it may say HELLO.
    Fresh,
    /// The connection of this id, on this seat. It is gone where no live connection has the id.
    Conn { id: ConnId, seat: Seat },
    /// The maker of the endpoint of this number, which lasts as long as it does.
    Keeper(u8),
    /// A connection, with its seat, or a keeper of a bus that was removed since.
    Old(Option<Seat>),
}

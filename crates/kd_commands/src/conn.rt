//! A live connection.

use kd_types::{ConnId, Creds, Kind, Seat, Text};

/// A connection of a bus while it lives, after the manual page kdbus.connection.
#[derive(Debug, Drop)]
pub struct Conn {
    pub id: ConnId,
    /// Its seat, below 64; its pool is the seat's.
    pub seat: Seat,
    /// Who it is, as its caller was when it said HELLO.
    pub creds: Creds,
    /// The number of the endpoint that it came by, 0 for the default one.
    pub endpoint: u8,
    pub kind: Kind,
    /// The size of its pool in bytes; 0 for a policy holder, which has none.
    pub size: u32,
    /// Which metadata it lets the bus attach to what it sends: 1 credentials, 2 names, 4
    /// description, 8 moment.
    pub send_mask: u64,
    /// Which metadata it wants attached to what it receives.
    pub receive_mask: u64,
    /// What it calls itself, at most 255 bytes.
    pub description: Option<Text>,
}

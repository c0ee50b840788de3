//! What the bus attaches.

use kd_types::{Creds, Moment, Text, TextList};

/// What the bus tells a receiver about the sender, as far as both ends asked for it. After the
/// items of the manual page kdbus.item.
#[derive(Debug, Drop)]
pub struct Attached {
    /// The sender's credentials.
    pub creds: Option<Creds>,
    /// The names that the sender owns and the receiver may see. In an image they rise in byte
    /// order.
    pub names: TextList,
    /// What the sender calls itself, at most 255 bytes.
    pub description: Option<Text>,
    /// When the message was sent, by the bus's clock.
    pub moment: Option<Moment>,
}

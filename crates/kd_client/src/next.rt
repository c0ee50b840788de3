//! What a client finds where it looks for its next message.

use kd_image::Image;
use kd_types::{ConnId, Cookie, Refusal, Text};

/// What [`Client::next`](crate::Client::next) found.
#[derive(Debug, Drop)]
pub enum Next {
    /// No message waits.
    Nothing {
        /// How many messages were dropped since this was last told.
        dropped: u64,
    },
    /// One of the commands was refused; if a message was received, it counts as not read.
    Refused(Refusal),
    /// The answer to a request, from the connection that was asked.
    Answer {
        /// The request's cookie.
        cookie: Cookie,
        image: Image,
    },
    /// A request that gets no answer any more.
    Failed {
        /// The request's cookie.
        cookie: Cookie,
        /// Whether the connection that was asked is gone. If not, the request's deadline passed.
        dead: bool,
    },
    /// A name that got another owner.
    Changed {
        /// The owner before, 0 for none.
        old: ConnId,
        /// The owner after, 0 for none.
        new: ConnId,
        name: Text,
    },
    /// Any other message or notice.
    Message(Image),
}

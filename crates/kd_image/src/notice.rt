//! What the bus tells by itself.

use kd_types::{ConnId, Cookie, Text};

/// A notice of the bus, after the notifications of the manual page kdbus.match.
#[derive(Debug, Drop)]
pub enum Notice {
    /// A connection came.
    IdAdd {
        id: ConnId,
    },
    /// A connection went.
    IdRemove {
        id: ConnId,
    },
    /// A name that had no owner has one; the old id is 0.
    NameAdd {
        old: ConnId,
        new: ConnId,
        name: Text,
    },
    /// A name has no owner any more; the new id is 0.
    NameRemove {
        old: ConnId,
        new: ConnId,
        name: Text,
    },
    /// A name went from one owner to another.
    NameChange {
        old: ConnId,
        new: ConnId,
        name: Text,
    },
    /// The deadline of the request with this cookie passed before a reply came.
    ReplyTimeout {
        cookie: Cookie,
    },
    /// Who was to reply to the request with this cookie is gone.
    ReplyDead {
        cookie: Cookie,
    },
}

//! Why a command was refused.

ghost use Rattle.std.specs.Prelude.{◌≡◌, ◌≢◌};
ghost use Rattle.kd_types.specs.declared.refusal.Refusal.TheVariants.{OutOfMemory};
ghost use Rattle.kd_types.specs.Refusal.{refusal_number, refusal_value};

use crate::id::ConnId;
use std::alloc::{AllocError, AllocFailed};
use std::error::Error;
use std::fmt;

/// Why a command was refused. Each refusal but [`Refusal::OutOfMemory`] has a number and one word
/// of data, as they stand in a reply.
#[derive(Clone, Copy, Debug, PartialEq, Eq)]
pub enum Refusal {
    /// The frame's content breaks the format at this byte of the frame.
    Malformed {
        /// The place, from the front of the frame.
        at: u64,
    },
    /// The command of this number isn't run here.
    Unsupported {
        /// The command's number.
        cmd: u64,
    },
    /// A flag, mask, size or choice is outside its written values; or a wildcard is asked of an
    /// endpoint.
    BadFlags,
    /// A required item isn't there.
    MissingItem,
    /// An item that may stand once stands twice.
    DoubledItem,
    /// A text isn't a name, pattern or label as required.
    BadName,
    /// SEND: the policy doesn't let the sender talk to the receiver, and this is no reply that the
    /// receiver waits for. NAME_ACQUIRE and an activator's HELLO: the policy doesn't let the caller
    /// own the name. A holder's HELLO and ENDPOINT_MAKE: the caller isn't privileged. A monitor's
    /// HELLO: the caller isn't privileged, or comes by a custom endpoint.
    NotPermitted,
    /// The name has no owner; or the caller may not see it, where this is no reply that its owner
    /// waits for (SEND), or where the caller has no claim on it (NAME_RELEASE).
    NoSuchName,
    /// No live ordinary connection has this id; or the sender may not see it, and this is no reply
    /// that it waits for.
    NoSuchConnection,
    /// A message names an id and a name, and the name's owner is this other one.
    NameMoved {
        /// The name's owner.
        owner: ConnId,
    },
    /// The name has an owner that the caller can't replace, and the caller doesn't queue; or an
    /// activator's name has an activator.
    NameTaken,
    /// The caller owns the name already.
    AlreadyOwned,
    /// The caller has no claim on a name that has an owner.
    NotOwner,
    /// One more would pass this limit. The 64 of HELLO: no seat is free, and a blocked one isn't.
    TooMany {
        /// The limit.
        limit: u64,
    },
    /// After freed slices were given back no gap of the receiver's pool holds the length.
    PoolFull,
    /// The messages of the sender's user that wait in the receiver's pool or are being written
    /// there, with this one, would take more than half of the pool, or be more than 32.
    Quota,
    /// Only an activator owns the name, and it isn't to be started.
    NotStarted,
    /// No message waits; so many were dropped since this was last told.
    NoMessage {
        /// How many messages were dropped.
        dropped: u64,
    },
    /// Messages wait, and none is within the limit.
    NoSuchPriority,
    /// FREE: the caller holds no slice of this number. READ: the slice of this number is neither
    /// peeked at nor received.
    NoSuchSlice,
    /// The slice was peeked at and not received.
    NotReceived,
    /// This slice of the activator's pool is still being written, so its messages can't be handed
    /// over.
    Busy {
        /// The slice's number.
        slice: u64,
    },
    /// A mask isn't 1, 2, 3 or 4 times as long as the bus's filters, or a broadcast's filter isn't
    /// of their size.
    BloomSize,
    /// The message without its metadata, or the sealed payload, is longer than 65,536 bytes.
    TooLong,
    /// A broadcast that expects a reply or is sent to a name; or a unicast that is a signal.
    BroadcastMisuse,
    /// There is no bus of this name; or the one that it had has another generation by now.
    NoSuchBus {
        /// The generation that stands, 0 for none.
        generation: u64,
    },
    /// A bus of this name exists.
    BusExists,
    /// A bus's name isn't its creator's uid in decimal, a dash, and at least one byte more.
    WrongPrefix,
    /// The bus has no endpoint of this label.
    NoSuchEndpoint,
    /// The bus has an endpoint of this label, or the label is `bus`, the default endpoint's.
    EndpointExists,
    /// The caller isn't of a kind that may give the command, or its connection is gone.
    WrongState,
    /// Messages wait in the pool of a connection that asks to leave, or are being written there.
    MessagesQueued,
    /// The caller has no rule of this cookie.
    NoSuchMatch,
    /// The caller has no sealed payload of this number, or the range isn't inside it. READ: the
    /// slice holds no share of a sealed payload.
    NoSuchSeal,
    /// A request's cookie or deadline is 0, or the caller waits for a reply to this cookie already.
    BadCookie,
    /// After freed slices were given back all slice numbers of the receiver's pool are in use.
    SlicesSpent,
    /// The caller's pass has taken all its turns. It ends the session and is never written as a
    /// reply.
    TurnsSpent,
    /// Memory ran out. It has no number and is never written as a reply.
    OutOfMemory,
}

impl fmt::Display for Refusal {
    fn fmt<W: fmt::Write>(&self, f: &mut fmt::Formatter<W>) -> fmt::Result {
        write!(f, "{self:?}")
    }
}

impl Error for Refusal {}

impl From<AllocError> for Refusal {
    ghost from_gives = { λ _ e. e ≡ OutOfMemory };

    fn from(_: AllocError) -> Refusal {
        Refusal::OutOfMemory
    }
}

impl<T: Drop> From<AllocFailed<T>> for Refusal {
    ghost from_gives = { λ _ e. e ≡ OutOfMemory };

    fn from(_: AllocFailed<T>) -> Refusal {
        Refusal::OutOfMemory
    }
}

impl Refusal {
    /// The code of a reply, from 1.
    pub fn number(&self) -> u64
        requires { self.now ≢ Refusal.OutOfMemory }
        ensures { result ≡ refusal_number self.now }
    {
        match self {
            Refusal::Malformed { .. } => 1,
            Refusal::Unsupported { .. } => 2,
            Refusal::BadFlags => 3,
            Refusal::MissingItem => 4,
            Refusal::DoubledItem => 5,
            Refusal::BadName => 6,
            Refusal::NotPermitted => 7,
            Refusal::NoSuchName => 8,
            Refusal::NoSuchConnection => 9,
            Refusal::NameMoved { .. } => 10,
            Refusal::NameTaken => 11,
            Refusal::AlreadyOwned => 12,
            Refusal::NotOwner => 13,
            Refusal::TooMany { .. } => 14,
            Refusal::PoolFull => 15,
            Refusal::Quota => 16,
            Refusal::NotStarted => 17,
            Refusal::NoMessage { .. } => 18,
            Refusal::NoSuchPriority => 19,
            Refusal::NoSuchSlice => 20,
            Refusal::NotReceived => 21,
            Refusal::Busy { .. } => 22,
            Refusal::BloomSize => 23,
            Refusal::TooLong => 24,
            Refusal::BroadcastMisuse => 25,
            Refusal::NoSuchBus { .. } => 26,
            Refusal::BusExists => 27,
            Refusal::WrongPrefix => 28,
            Refusal::NoSuchEndpoint => 29,
            Refusal::EndpointExists => 30,
            Refusal::WrongState => 31,
            Refusal::MessagesQueued => 32,
            Refusal::NoSuchMatch => 33,
            Refusal::NoSuchSeal => 34,
            Refusal::BadCookie => 35,
            Refusal::SlicesSpent => 36,
            Refusal::TurnsSpent => 37,
            Refusal::OutOfMemory => unreachable!(),
        }
    }

    /// The word behind the code: the refusal's field, else 0.
    pub fn value(&self) -> u64
        ensures { result ≡ refusal_value self.now }
    {
        match self {
            Refusal::Malformed { at } => *at,
            Refusal::Unsupported { cmd } => *cmd,
            Refusal::NameMoved { owner } => owner.0,
            Refusal::TooMany { limit } => *limit,
            Refusal::NoMessage { dropped } => *dropped,
            Refusal::Busy { slice } => *slice,
            Refusal::NoSuchBus { generation } => *generation,
            _ => 0,
        }
    }
}

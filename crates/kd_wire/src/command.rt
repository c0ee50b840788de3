//! What a caller asks of the bus.

ghost use Rattle.std.specs.Prelude.{◌≡◌, ◌^◌, ◌<◌, ◌≤◌, length};
ghost use Rattle.kd_wire.specs.Opcodes.{word_count};
ghost use Rattle.kd_wire.specs.Items.{spelled};
ghost use Rattle.kd_wire.specs.Commands.{opcode_in, flags_of, command_words, items_of};

use crate::item::WireItems;
use crate::opcode::Opcode;
use kd_types::{
    Blob, Cookie, Creds, HelloFlags, ListFlags, Moment, NameFlags, RecvFlags, SendFlags, Text,
};

/// A command, after the commands of the manual page kdbus. It keeps its items in the order of its
/// frame, so that it has one spelling.
#[derive(Debug, Drop)]
pub enum Command {
    /// Makes a connection, with a pool of so many bytes. The masks tell which metadata it sends and
    /// wants to receive.
    Hello {
        flags: HelloFlags,
        pool: u32,
        send_mask: u64,
        receive_mask: u64,
        items: WireItems,
    },
    /// Sends a message to the connection `dst`, to the owner of the name among the items where
    /// `dst` is 0, or to all whose rules admit it where `dst` is all ones. The last word is a
    /// deadline, or the cookie that is answered.
    Send {
        flags: SendFlags,
        priority: i64,
        dst: u64,
        source: u64,
        payload_type: u64,
        cookie: u64,
        last: u64,
        items: WireItems,
    },
    /// Receives, peeks at or drops the next message; with a flag, of at least this priority.
    Recv {
        flags: RecvFlags,
        limit: i64,
    },
    /// Reads the slice of this number, or the sealed bytes that it shares.
    Read {
        sealed: bool,
        number: u64,
    },
    /// Gives a received slice back.
    Free {
        number: u64,
    },
    /// Ends the connection unless messages wait.
    Byebye,
    /// Ends whatever the caller is.
    Close,
    /// Asks to own a name.
    NameAcquire {
        flags: NameFlags,
        name: Text,
    },
    /// Gives up a name, or the place in its queue.
    NameRelease {
        name: Text,
    },
    /// Lists connections and names.
    NameList {
        flags: ListFlags,
    },
    /// Adds a rule of these conditions; with `replace`, in place of those of its cookie.
    MatchAdd {
        replace: bool,
        cookie: Cookie,
        items: WireItems,
    },
    /// Removes the rules of a cookie.
    MatchRemove {
        cookie: Cookie,
    },
    /// Replaces the caller's policy.
    PolicySet {
        items: WireItems,
    },
    /// Makes a custom endpoint with a policy.
    EndpointMake {
        items: WireItems,
    },
    /// Makes a bus with Bloom filters of `size` bytes and so many hashes.
    MakeBus {
        size: u32,
        hashes: u32,
        bus: Text,
    },
    /// Moves the bus's clock on to this moment.
    Tick {
        moment: Moment,
    },
    /// Seals bytes.
    Seal {
        payload: Blob,
    },
    /// Gives a seal up.
    Unseal {
        number: u64,
    },
    /// Says who a replay's caller is.
    Enter {
        creds: Creds,
    },
}

impl Command {
    /// Which command it is.
    pub fn opcode(&self) -> Opcode
        ensures { result ≡ opcode_in self.now }
    {
        match self {
            Command::Hello { .. } => Opcode::Hello,
            Command::Send { .. } => Opcode::Send,
            Command::Recv { .. } => Opcode::Recv,
            Command::Read { .. } => Opcode::Read,
            Command::Free { .. } => Opcode::Free,
            Command::Byebye => Opcode::Byebye,
            Command::Close => Opcode::Close,
            Command::NameAcquire { .. } => Opcode::NameAcquire,
            Command::NameRelease { .. } => Opcode::NameRelease,
            Command::NameList { .. } => Opcode::NameList,
            Command::MatchAdd { .. } => Opcode::MatchAdd,
            Command::MatchRemove { .. } => Opcode::MatchRemove,
            Command::PolicySet { .. } => Opcode::PolicySet,
            Command::EndpointMake { .. } => Opcode::EndpointMake,
            Command::MakeBus { .. } => Opcode::MakeBus,
            Command::Tick { .. } => Opcode::Tick,
            Command::Seal { .. } => Opcode::Seal,
            Command::Unseal { .. } => Opcode::Unseal,
            Command::Enter { .. } => Opcode::Enter,
        }
    }

    /// The flags word of its frame.
    pub fn flags(&self) -> u64
        ensures { result ≡ flags_of self.now }
    {
        match self {
            Command::Hello { flags, .. } => flags.word(),
            Command::Recv { flags, .. } => flags.word(),
            Command::Read { sealed, .. } => u64::from(*sealed),
            Command::NameAcquire { flags, .. } => flags.word(),
            Command::NameList { flags } => flags.word(),
            Command::MatchAdd { replace, .. } => u64::from(*replace),
            _ => 0,
        }
    }

    /// Puts its own words into a place for so many. Those of a SEND begin with the size of its
    /// message, which is the header and so many bytes of items.
    pub(crate) fn put_own(&self, into: &mut [u64], items_length: usize)
        requires room { length into.old ≡ word_count (opcode_in self.now) }
        requires items { items_length ≡ length (spelled (items_of self.now)) }
        requires bound { items_length < 2 ^ 63 }
        ensures { into.new ≡ command_words self.now }
    {
        match self {
            Command::Hello {
                pool,
                send_mask,
                receive_mask,
                ..
            } => into.copy_from_slice(&[u64::from(*pool), *send_mask, *receive_mask]),
            Command::Send {
                flags,
                priority,
                dst,
                source,
                payload_type,
                cookie,
                last,
                ..
            } => {
                let size = 64 + items_length as u64;
                let priority = priority.cast_unsigned();
                into.copy_from_slice(&[
                    size,
                    flags.word(),
                    priority,
                    *dst,
                    *source,
                    *payload_type,
                    *cookie,
                    *last,
                ]);
            }
            Command::MakeBus { size, hashes, .. } => into.copy_from_slice(&[
                u64::from(*size),
                u64::from(*hashes),
            ]),
            Command::Enter { creds } => into.copy_from_slice(&[
                u64::from(creds.uid),
                u64::from(creds.gid),
                u64::from(creds.privileged),
            ]),
            _ => self.put_one(into),
        }
    }

    /// Puts the own word of a command that has no more than one.
    fn put_one(&self, into: &mut [u64])
        requires room { length into.old ≡ word_count (opcode_in self.now) }
        requires few { word_count (opcode_in self.now) ≤ 1 }
        ensures { into.new ≡ command_words self.now }
    {
        match self {
            Command::Recv { limit, .. } => into.copy_from_slice(&[limit.cast_unsigned()]),
            Command::Read { number, .. } | Command::Free { number } | Command::Unseal { number } =>
                into.copy_from_slice(&[*number]),
            Command::MatchAdd { cookie, .. } | Command::MatchRemove { cookie } =>
                into.copy_from_slice(&[cookie.0]),
            Command::Tick { moment } => into.copy_from_slice(&[moment.0]),
            _ => {}
        }
    }
}

//! The items of commands.

ghost use Rattle.std.specs.Prelude.{◌≡◌, ◌≤◌, List, length};
ghost use Rattle.kd_wire.specs.Items.{kind_of, words_in, bytes_in, wire_length};
ghost use Rattle.kd_wire.specs.declared.item.WireItem.{WireItem};

use crate::writing::entry_length;
use kd_types::{Blob, Text};
use std::marker::Model;

/// An item of a command's frame. What its words mean is judged by the layers above.
#[derive(Debug, Drop)]
pub enum WireItem {
    /// Bytes of a message.
    Payload(Blob),
    /// A range of sealed bytes that a message shares: the number of the seal, where the range
    /// starts, and its length.
    Sealed {
        number: u64,
        start: u64,
        length: u64,
    },
    /// The name that a message is sent to.
    DstName(Text),
    /// The Bloom filter of a broadcast, and its generation.
    Filter {
        generation: u64,
        bits: Blob,
    },
    /// A condition on a broadcast's filter.
    Mask(Blob),
    /// A name; as a condition, that the sender owns it.
    Name(Text),
    /// Who may do what with the name before it: subject 1 is a user, 2 a group, 3 the world (whose
    /// id means nothing); level 1 is to see, 2 to talk to, 3 to own.
    Access {
        subject: u64,
        level: u64,
        id: u64,
    },
    /// The name of a bus.
    Bus(Text),
    /// The label of an endpoint.
    Endpoint(Text),
    /// A connection's description of itself, of at most 255 bytes.
    Description(Text),
    /// A condition on the sender's id.
    Id(u64),
    /// A condition on the notice that a connection came. As in the next four, all ones stand for
    /// any id.
    IdAdd(u64),
    /// A condition on the notice that a connection went.
    IdRemove(u64),
    /// A condition on the notice that a name got an owner. As in the next two, the empty name
    /// stands for any.
    NameAdd {
        old: u64,
        new: u64,
        name: Text,
    },
    /// A condition on the notice that a name lost its owner.
    NameRemove {
        old: u64,
        new: u64,
        name: Text,
    },
    /// A condition on the notice that a name went from one owner to another.
    NameChange {
        old: u64,
        new: u64,
        name: Text,
    },
}

impl WireItem {
    /// The number of its kind.
    pub fn kind(&self) -> u64
        ensures { result ≡ kind_of self.now }
    {
        match self {
            WireItem::Payload(_) => 1,
            WireItem::Sealed { .. } => 2,
            WireItem::DstName(_) => 3,
            WireItem::Filter { .. } => 4,
            WireItem::Mask(_) => 5,
            WireItem::Name(_) => 6,
            WireItem::Access { .. } => 7,
            WireItem::Bus(_) => 8,
            WireItem::Endpoint(_) => 9,
            WireItem::Description(_) => 10,
            WireItem::Id(_) => 11,
            WireItem::IdAdd(_) => 12,
            WireItem::IdRemove(_) => 13,
            WireItem::NameAdd { .. } => 14,
            WireItem::NameRemove { .. } => 15,
            WireItem::NameChange { .. } => 16,
        }
    }

    /// How many words its body begins with.
    fn word_count(&self) -> usize
        ensures value { result ≡ length (words_in self.now) }
        ensures few { result ≤ 3 }
    {
        match self {
            WireItem::Sealed { .. } | WireItem::Access { .. } => 3,
            WireItem::NameAdd { .. } | WireItem::NameRemove { .. } | WireItem::NameChange { .. } =>
                2,
            WireItem::Filter { .. }
            | WireItem::Id(_)
            | WireItem::IdAdd(_)
            | WireItem::IdRemove(_) => 1,
            _ => 0,
        }
    }

    /// The bytes or the text behind the words of its body.
    pub(crate) fn bytes(&self) -> &[u8]
        ensures { result.now ≡ bytes_in self.now }
    {
        match self {
            WireItem::Payload(bytes)
            | WireItem::Mask(bytes)
            | WireItem::Filter { bits: bytes, .. } => bytes.bytes(),
            WireItem::DstName(text)
            | WireItem::Name(text)
            | WireItem::Bus(text)
            | WireItem::Endpoint(text)
            | WireItem::Description(text)
            | WireItem::NameAdd { name: text, .. }
            | WireItem::NameRemove { name: text, .. }
            | WireItem::NameChange { name: text, .. } => text.bytes(),
            _ => &[],
        }
    }

    /// How many bytes it takes in a frame.
    pub(crate) fn length(&self) -> usize
        ensures { result ≡ wire_length self.now }
    {
        entry_length(8 * self.word_count() + self.bytes().len())
    }
}

/// The items of a frame, in its order.
#[derive(Debug, Drop)]
pub struct WireItems {
    members: Vec<WireItem>,
}

impl Model for WireItems {
    ghost Value = { List WireItem };

    ghost view = { λ l. l.members.items };
}

impl WireItems {
    /// The list of these items, which are moved and not copied.
    pub fn of(items: Vec<WireItem>) -> WireItems
        ensures { result ≡ items.items }
    {
        WireItems { members: items }
    }

    /// The items in order.
    pub fn items(&self) -> &[WireItem]
        ensures { result.now ≡ self.now }
    {
        &self.members
    }

    /// The items in order, moved out.
    pub fn into_vec(self) -> Vec<WireItem>
        ensures { result.items ≡ self }
    {
        self.members
    }
}

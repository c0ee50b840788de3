//! Every command and every reply as bytes, both ways. Layers above this one work on [`Command`] and
//! [`Reply`] alone.
//!
//! A frame is four words, the command's own words, and items:
//!
//! ```text
//! byte  0        8         16       24      32                 32 + 8 n
//!      +--------+---------+--------+-------+-----------------+------------------------------+
//!      | size   | command | caller | flags | n words         | items, each to a multiple    |
//!      |        | number  |        |       | of the command  | of 8 bytes                   |
//!      +--------+---------+--------+-------+-----------------+------------------------------+
//! ```
//!
//! A reply has a code in place of the flags: 0 and the answer, or a refusal's number and one word.
//! Each value has one spelling, which `specs/` gives command by command, and a reader takes that
//! spelling alone.
#![tactic(auto)]

mod command;
mod cutting;
mod forming;
mod frame;
mod item;
mod judging;
mod kinds;
mod laws;
mod opcode;
mod port;
mod reading;
mod reading_items;
mod reply;
mod reply_reading;
mod reply_writing;
mod writing;

pub use command::Command;
pub use cutting::{cut, head};
pub use frame::{Cut, Head};
pub use item::{WireItem, WireItems};
pub use laws::{
    a_frame_has_one_value, a_written_reply_is_read, no_frame_begins_another,
    the_test_tells_well_formed_commands, what_is_written_is_read,
};
pub use opcode::Opcode;
pub use port::Port;
pub use reading::read_command;
pub use reply::{ListedItem, ListedItems, Reply};
pub use reply_reading::read_reply;
pub use reply_writing::write_reply;
pub use writing::write_command;

//! Images: the bytes of messages and notices that a receiver finds in its slice.
//!
//! ```text
//!   0        64                                               size               the end
//!   | header | CREDS OWNED.. DESCRIPTION MOMENT DST_NAME OFF.. | payload 0 | 1 | .. |
//!                                                         |       ^
//!                                                         +-------+ an OFF's offset from the start
//! ```
//!
//! The header is eight words: the size of header and items, flags, priority, destination, source,
//! payload type, cookie, and the last word, a deadline or the cookie of the request that is
//! answered. The destination is the id of whom a message is for, so a monitor's copy has another's
//! id and not the monitor's; it is all ones for what goes to all. Items that tell nothing are left
//! out. Each payload is filled up with zeros to a multiple of 8. A notice has one item of its own,
//! and no payload.
#![tactic(auto)]

mod attached;
mod building;
mod contents;
mod draft;
mod header;
mod image;
mod kind;
mod length;
mod message;
mod notice;
mod notices;
mod order;
mod payloads;
mod reading;
mod telling;
mod writing;

pub use attached::Attached;
pub use building::build;
pub use image::Image;
pub use length::{image_len, is_short};
pub use message::{Message, SealedRange};
pub use notice::Notice;
pub use notices::build_notice;
pub use reading::read_image;

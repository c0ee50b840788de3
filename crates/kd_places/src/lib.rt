//! Where bytes break a format, said of the format and not of its reader: behind the longest
//! beginning that can still become a whole one. All of it stands in `specs/`; each function's
//! contract is a law.
//!
//! ```text
//!   size | command | caller | code | 1 | line | line | 7 7 7
//!          \_______________________________________/ ^
//!            some reply to a NAME_LIST begins so      no line begins so: the place
//! ```
//!
//! - `specs/Replies`: replies by their units, and the place where bytes break
//! - `specs/Images`: the items and the payloads of a message's image, and where they break
//! - `specs/Whole`: images, of messages and of notices, and where they break
#![tactic(auto)]

mod laws;

pub use laws::{
    image_places_are_one, image_places_are_true, item_places_are_true, payload_places_are_true,
    reply_places_are_one, reply_places_are_true, units_make_replies,
};

//! The small values that every crate of the bus shares: ids, texts, flag words, credentials and
//! refusals.
//!
//! Ids are seen by every contract as their numbers, texts and blobs as their bytes.
#![tactic(auto)]

mod creds;
mod flags;
mod id;
mod lists;
mod owner_change;
mod refusal;
mod reply_error;
mod session_end;
mod status;
mod text;

pub use creds::{Creds, Kind, Level};
pub use flags::{HelloFlags, ListFlags, NameFlags, RecvFlags, SendFlags};
pub use id::{ConnId, Cookie, Moment, Seat};
pub use kd_model::SliceNo;
pub use lists::{BlobList, TextList};
pub use owner_change::OwnerChange;
pub use refusal::Refusal;
pub use reply_error::ReplyError;
pub use session_end::SessionEnd;
pub use status::Status;
pub use text::{Blob, Text};

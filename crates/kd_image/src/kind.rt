//! The kinds of the items that stand in images.

/// The name that a message was sent to.
pub(crate) const DST_NAME: u64 = 3;
/// What the sender calls itself.
pub(crate) const DESCRIPTION: u64 = 10;
/// Notices: a connection came; it went.
pub(crate) const ID_ADD: u64 = 12;

pub(crate) const ID_REMOVE: u64 = 13;
/// Notices: a name has an owner; it has none; it has another.
pub(crate) const NAME_ADD: u64 = 14;

pub(crate) const NAME_REMOVE: u64 = 15;

pub(crate) const NAME_CHANGE: u64 = 16;
/// Notices: no reply came in time; none will come.
pub(crate) const REPLY_TIMEOUT: u64 = 17;

pub(crate) const REPLY_DEAD: u64 = 18;
/// A payload's length and offset.
pub(crate) const OFF: u64 = 19;
/// A range of sealed bytes.
pub(crate) const SHARED: u64 = 20;
/// The sender's credentials.
pub(crate) const CREDS: u64 = 21;
/// A name that the sender owns.
pub(crate) const OWNED: u64 = 22;
/// When the message was sent.
pub(crate) const MOMENT: u64 = 23;

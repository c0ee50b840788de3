//! A name's new owner.

use crate::id::ConnId;
use crate::text::Text;

/// A name that gets another owner than it had.
#[derive(Debug, Drop)]
pub struct OwnerChange {
    pub name: Text,
    /// The owner before, 0 for none.
    pub old: ConnId,
    /// The owner after, 0 for none.
    pub new: ConnId,
}

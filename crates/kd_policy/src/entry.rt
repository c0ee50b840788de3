//! Entries of a policy.

ghost use Rattle.std.specs.Prelude.{◌≡◌};
ghost use Rattle.kd_policy.specs.Level.{is_meant};

use kd_types::{Level, Text};

/// Grants a subject a level on names.
#[derive(Debug, PartialEq, Eq, Drop)]
pub struct Entry {
    /// Which names: a name for that name alone, a wildcard as `org.example.*` for those with one
    /// element more.
    pub pattern: Text,
    /// Whom it is for.
    pub subject: Subject,
    /// What it grants.
    pub level: Level,
}

/// Whom an entry is for.
#[derive(Clone, Copy, Debug, PartialEq, Eq)]
pub enum Subject {
    /// The user of this number.
    User(u32),
    /// The members of the group of this number.
    Group(u32),
    /// Everyone.
    World,
}

impl Subject {
    /// Whether this user and group is meant.
    pub(crate) fn is_meant(&self, uid: u32, gid: u32) -> bool
        ensures { result ≡ is_meant uid gid self.now }
    {
        match self {
            Subject::User(user) => *user == uid,
            Subject::Group(group) => *group == gid,
            Subject::World => true,
        }
    }
}

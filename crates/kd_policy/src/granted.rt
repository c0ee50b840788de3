//! What is found so far, when a list is looked through for one pattern.

ghost use Rattle.std.specs.Prelude.{◌≡◌, Some, if◌then◌else◌};
ghost use Rattle.kd_policy.specs.Level.{greater, is_meant};
ghost use Rattle.kd_policy.specs.Granted.{and_these};

use crate::entry::Entry;
use kd_types::Level;

/// What is found so far of the entries of one pattern.
#[derive(Clone, Copy, Debug)]
pub(crate) struct Granted {
    /// Whether there is one.
    pub(crate) named: bool,
    /// The greatest level of those that are for the credentials in question.
    pub(crate) level: Option<Level>,
}

impl Granted {
    /// What is found with these entries, all of the pattern.
    pub(crate) fn and(self, entries: &[Entry], uid: u32, gid: u32) -> Granted
        ensures { result ≡ and_these self entries.now uid gid }
    {
        let mut level = self.level;
        for entry in entries {
            level = raised(level, entry, uid, gid);
        }
        Granted {
            named: self.named || !entries.is_empty(),
            level,
        }
    }
}

/// The level with that of the entry, where it is for this user and group.
fn raised(level: Option<Level>, entry: &Entry, uid: u32, gid: u32) -> Option<Level>
    ensures { result
        ≡ (if is_meant uid gid entry.now.subject then greater level entry.now.level else level) }
{
    if entry.subject.is_meant(uid, gid) {
        Some(greater(level, entry.level))
    } else {
        level
    }
}

/// The greater of two levels, of which the first may be missing.
fn greater(level: Option<Level>, more: Level) -> Level
    ensures { Some result ≡ greater level more }
{
    match level {
        Some(level) if level >= more => level,
        _ => more,
    }
}

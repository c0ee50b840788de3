//! The entries of one owner.

ghost use Rattle.std.specs.Prelude.{◌≡◌, ◌<◌, ◌++◌};
ghost use Rattle.kd_policy.specs.Marks.{mark_of};
ghost use Rattle.kd_policy.specs.Order.{IsByPattern};
ghost use Rattle.kd_policy.specs.Policy.{is_held_by, part_of};
ghost use Rattle.kd_policy.specs.Granted.{and_among};

use crate::entry::Entry;
use crate::granted::Granted;
use crate::marks::Marks;
use crate::order::entries_for;
use crate::owner::{Owner, Scope};
use std::marker::Model;

/// An owner with its entries, which stand in the order of their patterns.
#[derive(Debug, Drop)]
pub(crate) struct Holding {
    owner: Owner,
    marks: Marks,
    entries: Vec<Entry>,
}

impl Model for Holding {
    ghost use Rattle.kd_policy.specs.Order.{IsByPattern};
    ghost use Rattle.kd_policy.specs.Marks.{AreMarked};
    ghost use Rattle.kd_policy.specs.Policy.{Held};

    ghost Value = { Held };

    ghost view = { λ h. record { owner = h.owner; entries = h.entries.items } };

    ghost invariant = { λ h.
        IsByPattern h.entries.items × AreMarked h.marks.words h.entries.items };
}

impl Holding {
    /// The holding of these sorted entries.
    pub(crate) fn of(owner: Owner, entries: Vec<Entry>) -> Holding
        requires { IsByPattern entries.items }
        ensures { result ≡ record { owner = owner; entries = entries.items } }
    {
        let marks = Marks::of(entries.as_slice());
        Holding {
            owner,
            marks,
            entries,
        }
    }

    /// Whether it is this owner's.
    pub(crate) fn is_of(&self, owner: &Owner) -> bool
        ensures { result ≡ is_held_by owner.now self.now }
    {
        self.owner.is_same(owner)
    }

    /// The entries, moved out.
    pub(crate) fn into_entries(self) -> Vec<Entry>
        ensures { result.items ≡ self.entries }
    {
        self.entries
    }

    /// What is found with those of the entries whose pattern is `front` with `back` behind it, if
    /// they stand in this list. `mark` is the mark of that pattern.
    pub(crate) fn grant(
        &self,
        found: Granted,
        scope: Scope,
        front: &[u8],
        back: &[u8],
        mark: usize,
        uid: u32,
        gid: u32,
    ) -> Granted
        requires marked { mark ≡ mark_of (front.now ++ back.now) }
        requires inside { mark < 8191 }
        ensures { result
            ≡ and_among found (part_of scope self.now) (front.now ++ back.now) uid gid }
    {
        if !scope.has(&self.owner) {
            return found;
        }
        if !self.marks.has(mark) {
            return found;
        }
        found.and(entries_for(self.entries.as_slice(), front, back), uid, gid)
    }
}

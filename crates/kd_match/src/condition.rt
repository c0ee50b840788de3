//! One condition of a rule.

ghost use Rattle.std.specs.Prelude.{◌≡◌, IsTrue, not};
ghost use Rattle.kd_model.specs.Words.{all_of, some_of};
ghost use Rattle.kd_match.specs.Told.{fits_change, fits_id, fits_name, condition_holds, owns, subject_told};
ghost use Rattle.kd_match.specs.Rules.{mask_fits, has_filter, is_bad_name, misnames};

use crate::subject::Subject;
use kd_bloom::{Mask, meets};
use kd_name::is_name;
use kd_types::{ConnId, OwnerChange, Text};

/// The id that fits any id.
const ANY: u64 = u64::MAX;

/// What a rule asks of a message or of a notice. A condition on messages is false of a notice, and
/// the reverse. In both an id of all ones fits any id, and an empty name any name.
#[derive(Debug, Drop)]
pub enum Condition {
    /// A message's filter meets the mask.
    Mask(Mask),
    /// A message's sender owns the name; some name, where this one is empty.
    Name {
        name: Text,
    },
    /// A message's sender has the id, or any where this one is all ones.
    Id {
        id: ConnId,
    },
    /// A connection with the id came.
    IdAdd {
        id: ConnId,
    },
    /// A connection with the id went.
    IdRemove {
        id: ConnId,
    },
    /// The name got an owner.
    NameAdd {
        old: ConnId,
        new: ConnId,
        name: Text,
    },
    /// The name lost its owner.
    NameRemove {
        old: ConnId,
        new: ConnId,
        name: Text,
    },
    /// The name went from one owner to another.
    NameChange {
        old: ConnId,
        new: ConnId,
        name: Text,
    },
}

impl Condition {
    /// Whether it holds of a message or a notice, whose filter has the size of its mask.
    #[tactic(auto, unfolding(crate::specs::Told::condition_holds))]
    pub(crate) fn holds(&self, subject: &Subject, size: u32) -> bool
        requires mask { IsTrue (mask_fits size self.now) }
        requires filter { IsTrue (has_filter size (subject_told subject.now)) }
        ensures { result ≡ condition_holds (subject_told subject.now) self.now }
    {
        match (self, subject) {
            (
                Condition::Mask(mask),
                Subject::Message {
                    filter,
                    generation,
                    ..
                },
            ) => meets(filter, *generation, mask),
            (Condition::Name { name }, Subject::Message { names, .. }) => owns(names, name),
            (Condition::Id { id }, Subject::Message { source, .. }) => fits_id(*id, *source),
            (Condition::IdAdd { id }, Subject::IdAdd { id: came }) => fits_id(*id, *came),
            (Condition::IdRemove { id }, Subject::IdRemove { id: gone }) => fits_id(*id, *gone),
            (Condition::NameAdd { old, new, name }, Subject::NameAdd { change }) => fits_change(
                *old, *new, name, change,
            ),
            (Condition::NameRemove { old, new, name }, Subject::NameRemove { change }) =>
                fits_change(*old, *new, name, change),
            (Condition::NameChange { old, new, name }, Subject::NameChange { change }) =>
                fits_change(*old, *new, name, change),
            _ => false,
        }
    }

    /// Whether it has a name that is neither empty nor a name.
    pub(crate) fn misnames(&self) -> bool
        ensures { result ≡ misnames self.now }
    {
        match self {
            Condition::Name { name } => is_bad_name(name),
            Condition::NameAdd { name, .. } => is_bad_name(name),
            Condition::NameRemove { name, .. } => is_bad_name(name),
            Condition::NameChange { name, .. } => is_bad_name(name),
            _ => false,
        }
    }

    /// Whether its mask, if it is one, has generations of this size.
    pub(crate) fn fits(&self, size: u32) -> bool
        ensures { result ≡ mask_fits size self.now }
    {
        match self {
            Condition::Mask(mask) => mask.is_sized(size),
            _ => true,
        }
    }
}

/// Whether one of the conditions has a name that is neither empty nor a name.
pub(crate) fn misname(conditions: &[Condition]) -> bool
    ensures { result ≡ some_of misnames conditions.now }
{
    conditions.iter().any(|condition| condition.misnames())
}

/// Whether one of the conditions is a mask of another size.
pub(crate) fn misfit(conditions: &[Condition], size: u32) -> bool
    ensures { result ≡ some_of (λ c. not (mask_fits size c)) conditions.now }
{
    conditions.iter().any(|condition| !condition.fits(size))
}

/// Whether all conditions hold of a message or a notice.
pub(crate) fn all_hold(conditions: &[Condition], subject: &Subject, size: u32) -> bool
    requires masks { IsTrue (all_of (mask_fits size) conditions.now) }
    requires filter { IsTrue (has_filter size (subject_told subject.now)) }
    ensures { result ≡ all_of (condition_holds (subject_told subject.now)) conditions.now }
{
    'conditions: for condition in conditions {
        if !condition.holds(subject, size) {
            return false;
        }
    }
    true
}

/// Whether one of the names is the wanted one, or is there any where that one is empty.
fn owns(names: &[Text], wanted: &Text) -> bool
    ensures { result ≡ owns names.now wanted.now }
{
    if wanted.bytes().is_empty() {
        return !names.is_empty();
    }
    names.iter().any(|name| *wanted == *name)
}

fn fits_id(wanted: ConnId, id: ConnId) -> bool
    ensures { result ≡ fits_id wanted id }
{
    wanted.0 == ANY || wanted == id
}

fn fits_name(wanted: &Text, name: &Text) -> bool
    ensures { result ≡ fits_name wanted.now name.now }
{
    wanted.bytes().is_empty() || *wanted == *name
}

fn fits_change(old: ConnId, new: ConnId, name: &Text, change: &OwnerChange) -> bool
    ensures { result ≡ fits_change old new name.now change.now.old change.now.new change.now.name }
{
    fits_id(old, change.old) && fits_id(new, change.new) && fits_name(name, &change.name)
}

fn is_bad_name(text: &Text) -> bool
    ensures { result ≡ is_bad_name text.now }
{
    !(text.bytes().is_empty() || is_name(text.bytes()))
}

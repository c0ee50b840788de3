//! A rule.

ghost use Rattle.std.specs.Prelude.{◌≡◌, IsTrue, List};
ghost use Rattle.kd_match.specs.Told.{subject_told};
ghost use Rattle.kd_match.specs.Rules.{rule_fits, has_filter, rule_admits};

use crate::condition::{Condition, all_hold};
use crate::subject::Subject;
use kd_types::{ConnId, Cookie};
use std::marker::Model;

/// Conditions in order, seen by every contract as their list.
#[derive(Debug, Drop)]
pub struct Conditions {
    members: Vec<Condition>,
}

impl Model for Conditions {
    ghost use Rattle.std.specs.Prelude.{List};
    ghost use Rattle.kd_match.specs.declared.condition.Condition.{Condition};

    ghost Value = { List Condition };

    ghost view = { λ c. c.members.items };
}

impl Conditions {
    /// The list of these conditions, which are moved and not copied.
    pub fn of(conditions: Vec<Condition>) -> Conditions
        ensures { result ≡ conditions.items }
    {
        Conditions {
            members: conditions,
        }
    }

    /// The conditions in order.
    pub fn conditions(&self) -> &[Condition]
        ensures { result.now ≡ self.now }
    {
        &self.members
    }
}

/// A rule of a connection.
#[derive(Debug, Drop)]
pub struct Rule {
    /// The connection.
    pub id: ConnId,
    /// The number by which the connection removes it.
    pub cookie: Cookie,
    pub conditions: Conditions,
}

impl Rule {
    /// Whether each condition holds.
    pub(crate) fn admits(&self, subject: &Subject, size: u32) -> bool
        requires masks { IsTrue (rule_fits size self.now) }
        requires filter { IsTrue (has_filter size (subject_told subject.now)) }
        ensures { result ≡ rule_admits (subject_told subject.now) self.now }
    {
        all_hold(self.conditions.conditions(), subject, size)
    }
}

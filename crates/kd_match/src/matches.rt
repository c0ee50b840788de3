//! The rules of all connections of a bus.

ghost use Rattle.std.specs.Prelude.{◌≡◌, ◌<◌, ◌==◌, [], length, nat_le, IfOk, IsTrue, OnErr, OnOk};
ghost use Rattle.kd_model.specs.Words.{some_of};
ghost use Rattle.kd_match.specs.Told.{subject_told};
ghost use Rattle.kd_match.specs.Rules.{rule_refusal, admits, result_of, has_filter, is_named, rules_left, remove_refusal, rules_of, with_rule, without_conn, without_rules};

use crate::condition::{Condition, misfit, misname};
use crate::rule::{Conditions, Rule};
use crate::subject::Subject;
use crate::table::{
    ROOM, any_admits, count_without, has_cookie, insert, remove_all, remove_named, remove_replaced,
    rules_of,
};
use kd_bloom::{Bits, Param};
use kd_types::{ConnId, Cookie, Refusal};
use std::alloc::{AllocError, Global};
use std::marker::Model;

/// A rule that asks for more than so many things at once is refused, so that a broadcast's test
/// stays short.
const CONDITIONS: usize = 16;

/// The rules of one connection; the next one is refused. With 64 connections they are [`ROOM`].
const RULES: usize = 64;

/// The rules of a bus. A contract sees the size of its filters and the list of rules.
#[derive(Debug, Drop)]
pub struct Matches {
    size: u32,
    rules: Vec<Rule>,
}

impl Model for Matches {
    ghost use Rattle.std.specs.Prelude.{◌≤◌};
    ghost use Rattle.std.specs.Vec.{vec_capacity};
    ghost use Rattle.kd_match.specs.Rules.{IsTable, Table};

    ghost Value = { Table };

    ghost view = { λ m. record { size = m.size; rules = m.rules.items } };

    ghost invariant = { λ m.
        IsTable m.size m.rules.items × (m.size ≤ 512) × (4096 ≤ vec_capacity m.rules) };
}

impl Matches {
    /// No rules, with room for [`ROOM`], of a bus whose filters have this parameter.
    pub fn make(alloc: Global, param: Param) -> Result<Matches, AllocError>
        ensures { IfOk result (λ m. m ≡ record { size = param.size; rules = [] }) }
    {
        Ok(Matches {
            size: param.size,
            rules: Vec::with_capacity(alloc, ROOM)?,
        })
    }

    /// What [`Matches::add`] would answer: BadName where a name of the conditions is neither empty
    /// nor a name, BloomSize where a mask isn't of the bus's size, TooMany{16} at more than 16
    /// conditions, and TooMany{64} where the connection has 64 rules already, without those that
    /// are replaced.
    #[tactic(auto, unfolding(crate::specs::Rules::rule_refusal))]
    pub fn may_add(
        &self,
        id: ConnId,
        cookie: Cookie,
        conditions: &[Condition],
        replace: bool,
    ) -> Result<(), Refusal>
        ensures { result ≡ result_of (rule_refusal self.now id cookie conditions.now replace) }
    {
        if misname(conditions) {
            return Err(Refusal::BadName);
        }
        if misfit(conditions, self.size) {
            return Err(Refusal::BloomSize);
        }
        if CONDITIONS < conditions.len() {
            return Err(Refusal::TooMany { limit: 16 });
        }
        if RULES <= self.stay(id, cookie, replace) {
            return Err(Refusal::TooMany { limit: 64 });
        }
        Ok(())
    }

    /// Adds a rule of a connection, in place of its rules with the cookie where `replace` is set.
    /// The refusals are those of [`Matches::may_add`], and then nothing changes.
    #[tactic(auto, unfolding(crate::specs::Rules::with_rule))]
    pub fn add(
        &mut self,
        id: ConnId,
        cookie: Cookie,
        conditions: Vec<Condition>,
        replace: bool,
    ) -> Result<(), Refusal>
        requires room { length (rules_left self.old.rules id cookie replace) < 4096 }
        ensures answer { result
            ≡ result_of (rule_refusal self.old id cookie conditions.items replace) }
        ensures added { OnOk result (self.new
            ≡ with_rule self.old (record {
              id = id;
              cookie = cookie;
              conditions = conditions.items;
            }) replace) }
        ensures unchanged { OnErr result (self.new ≡ self.old) }
    {
        self.may_add(id, cookie, &conditions, replace)?;
        remove_replaced(&mut self.rules, id, cookie, replace);
        let conditions = Conditions::of(conditions);
        insert(
            &mut self.rules,
            Rule {
                id,
                cookie,
                conditions,
            },
        );
        Ok(())
    }

    /// What [`Matches::remove`] would answer: NoSuchMatch where the connection has no rule with the
    /// cookie.
    pub fn may_remove(&self, id: ConnId, cookie: Cookie) -> Result<(), Refusal>
        ensures { result ≡ result_of (remove_refusal self.now id cookie) }
    {
        if self.has(id, cookie) {
            Ok(())
        } else {
            Err(Refusal::NoSuchMatch)
        }
    }

    /// Removes every rule of the connection with the cookie. At NoSuchMatch nothing changes.
    pub fn remove(&mut self, id: ConnId, cookie: Cookie) -> Result<(), Refusal>
        ensures answer { result ≡ result_of (remove_refusal self.old id cookie) }
        ensures removed { OnOk result (self.new ≡ without_rules self.old id cookie) }
        ensures unchanged { OnErr result (self.new ≡ self.old) }
    {
        self.may_remove(id, cookie)?;
        remove_named(&mut self.rules, id, cookie);
        Ok(())
    }

    /// Removes all rules of a connection.
    pub fn drop_conn(&mut self, id: ConnId)
        ensures { self.new ≡ without_conn self.old id }
    {
        remove_all(&mut self.rules, id);
    }

    /// Removes all rules. The room for them stays.
    pub fn clear(&mut self)
        ensures { self.new ≡ record self.old { rules = [] } }
    {
        self.rules.clear();
    }

    /// Whether a rule of the connection admits the message or the notice: whether each of its
    /// conditions holds. A message's filter has the size of the bus's filters.
    pub fn admits(&self, id: ConnId, subject: &Subject) -> bool
        requires filter { IsTrue (has_filter self.now.size (subject_told subject.now)) }
        ensures { result ≡ admits self.now id (subject_told subject.now) }
    {
        any_admits(rules_of(&self.rules, id), subject, self.size)
    }

    /// Whether the room for rules is used up.
    pub fn is_full(&self) -> bool
        ensures { result ≡ nat_le 4096 (length self.now.rules) }
    {
        ROOM <= self.rules.len()
    }

    /// Whether the filter has the size of the bus's filters.
    pub fn fits(&self, filter: &Bits) -> bool
        ensures { result ≡ (length filter.now == self.now.size) }
    {
        filter.size() == self.size
    }

    /// How many rules of the connection stay where a rule with the cookie is added.
    #[tactic(auto, using(crate::proofs::Kept::own_kept))]
    fn stay(&self, id: ConnId, cookie: Cookie, replace: bool) -> usize
        ensures { result ≡ length (rules_of id (rules_left self.now.rules id cookie replace)) }
    {
        let rules = rules_of(&self.rules, id);
        if replace {
            count_without(rules, cookie)
        } else {
            rules.len()
        }
    }

    /// Whether the connection has a rule with the cookie.
    #[tactic(auto, using(crate::proofs::Kept::own_named))]
    fn has(&self, id: ConnId, cookie: Cookie) -> bool
        ensures { result ≡ some_of (is_named id cookie) self.now.rules }
    {
        has_cookie(rules_of(&self.rules, id), cookie)
    }
}

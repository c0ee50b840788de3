//! The list of all rules, in the order of their connections' ids.

ghost use Rattle.std.specs.Prelude.{◌≡◌, ◌<◌, ◌≤◌, length, nat_eq, IsTrue};
ghost use Rattle.std.specs.Vec.{vec_capacity, vec_len};
ghost use Rattle.std.specs.List.Sorted.{IsNonDecreasingBy};
ghost use Rattle.kd_model.specs.Words.{all_of, but_those, put_in_order, some_of};
ghost use Rattle.kd_match.specs.Told.{subject_told};
ghost use Rattle.kd_match.specs.declared.rule.Rule.{Rule};
ghost use Rattle.kd_match.specs.Rules.{rule_fits, has_filter, comes_before, is_named, rules_left, rule_admits, rules_of};

use crate::rule::Rule;
use crate::subject::Subject;
use kd_types::{ConnId, Cookie};

/// The rules of a bus: 64 for each of its 64 connections.
pub const ROOM: usize = 4096;

/// The rules of a connection, which lie together.
pub(crate) fn rules_of(rules: &[Rule], id: ConnId) -> &[Rule]
    requires { IsNonDecreasingBy (λ (r : Rule). r.id) rules.now }
    ensures { result.now ≡ rules_of id rules.now }
{
    let start = rules.partition_point(|rule| rule.id < id);
    let (_, from) = rules.split_at(start);
    let len = from.partition_point(|rule| rule.id <= id);
    from.split_at(len).0
}

/// Puts a rule behind the others of its connection.
pub(crate) fn insert(rules: &mut Vec<Rule>, rule: Rule)
    requires order { IsNonDecreasingBy (λ (r : Rule). r.id) rules.old.items }
    requires room { vec_len rules.old < vec_capacity rules.old }
    ensures items { rules.new.items ≡ put_in_order comes_before rule rules.old.items }
    ensures order { IsNonDecreasingBy (λ (r : Rule). r.id) rules.new.items }
    ensures room { vec_capacity rules.old ≤ vec_capacity rules.new }
{
    let place = rules.partition_point(|other| other.id <= rule.id);
    rules.insert(place, rule).unwrap();
}

/// Removes a connection's rules with the cookie.
pub(crate) fn remove_named(rules: &mut Vec<Rule>, id: ConnId, cookie: Cookie)
    ensures items { rules.new.items ≡ but_those (is_named id cookie) rules.old.items }
    ensures room { vec_capacity rules.old ≤ vec_capacity rules.new }
{
    rules.retain(|rule| !(rule.id == id && rule.cookie == cookie));
}

/// Removes the rules that a new one replaces, if it is to.
pub(crate) fn remove_replaced(rules: &mut Vec<Rule>, id: ConnId, cookie: Cookie, replace: bool)
    ensures items { rules.new.items ≡ rules_left rules.old.items id cookie replace }
    ensures room { vec_capacity rules.old ≤ vec_capacity rules.new }
{
    if replace {
        remove_named(rules, id, cookie);
    }
}

/// Removes all rules of a connection.
pub(crate) fn remove_all(rules: &mut Vec<Rule>, id: ConnId)
    ensures items { rules.new.items ≡ but_those (λ (r : Rule). nat_eq r.id id) rules.old.items }
    ensures room { vec_capacity rules.old ≤ vec_capacity rules.new }
{
    rules.retain(|rule| !(rule.id == id));
}

/// Whether one of the rules admits a message or a notice.
pub(crate) fn any_admits(rules: &[Rule], subject: &Subject, size: u32) -> bool
    requires masks { IsTrue (all_of (rule_fits size) rules.now) }
    requires filter { IsTrue (has_filter size (subject_told subject.now)) }
    ensures { result ≡ some_of (rule_admits (subject_told subject.now)) rules.now }
{
    'rules: for rule in rules {
        if rule.admits(subject, size) {
            return true;
        }
    }
    false
}

/// How many of the rules have another cookie.
pub(crate) fn count_without(rules: &[Rule], cookie: Cookie) -> usize
    ensures { result ≡ length (but_those (λ (r : Rule). nat_eq r.cookie cookie) rules.now) }
{
    rules.iter().filter(|rule| !(rule.cookie == cookie)).count()
}

/// Whether one of the rules has the cookie.
pub(crate) fn has_cookie(rules: &[Rule], cookie: Cookie) -> bool
    ensures { result ≡ some_of (λ (r : Rule). nat_eq r.cookie cookie) rules.now }
{
    rules.iter().any(|rule| rule.cookie == cookie)
}

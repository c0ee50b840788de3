//! The policy of a bus: the lists of all owners.

ghost use Rattle.std.specs.Prelude.{◌≡◌, ◌+◌, ◌<◌, ◌≤◌, ◌++◌, ◌||◌, nat_lt, is_some, None, Some, [], length, vec_len, IfOk, IfSome, OnOk, OnErr, MatchResult};
ghost use Rattle.std.specs.Vec.{vec_capacity};
ghost use Rattle.kd_policy.specs.Granted.{found_in};
ghost use Rattle.kd_types.specs.Words.{but_those, some_of};
ghost use Rattle.kd_policy.specs.Order.{IsByPattern};
ghost use Rattle.kd_policy.specs.Policy.{is_held_by, level_in, place_of, put_refusal, entries_of, with_held, after_put, after_drop, is_ill_named, has_star};

use crate::entry::Entry;
use crate::granted::Granted;
use crate::holding::Holding;
use crate::marks::mark_of;
use crate::order::{NOTHING, STAR, sorted};
use crate::owner::{Owner, Scope};
use kd_name::{is_pattern, is_wildcard, parent};
use kd_types::{Level, Refusal};
use std::alloc::{AllocError, Global};
use std::marker::Model;
use std::mem;

/// The most owners: one for each of a bus's 64 seats, and one for each of the 8 endpoints that it
/// may have beside the default one.
pub const OWNERS: usize = 72;

/// The most entries of one owner: the list is looked through while the bus is held, and one more is
/// refused.
pub const ENTRIES: usize = 256;

/// The policy of a bus. A contract sees it as the list of its owners, each with its entries by
/// their patterns.
#[derive(Debug, Drop)]
pub struct PolicyDb {
    holdings: Vec<Holding>,
    /// Room in which entries are sorted; empty between calls.
    sorting: Vec<Entry>,
}

impl Model for PolicyDb {
    ghost use Rattle.std.specs.Prelude.{◌≡◌, ◌≤◌, []};
    ghost use Rattle.std.specs.Vec.{vec_capacity};
    ghost use Rattle.kd_policy.specs.Policy.{Policy};

    ghost Value = { Policy };

    ghost view = { λ p. p.holdings.items };

    ghost invariant = { λ p.
        (72 ≤ vec_capacity p.holdings) × (256 ≤ vec_capacity p.sorting) × (p.sorting.items ≡ []) };
}

impl PolicyDb {
    /// The policy without entries. All memory that later calls need is taken now: room for 72
    /// owners, and to sort the entries of one.
    pub fn make(alloc: Global) -> Result<PolicyDb, AllocError>
        ensures empty { IfOk result (λ p. p ≡ []) }
    {
        Ok(PolicyDb {
            holdings: Vec::with_capacity(alloc, OWNERS)?,
            sorting: Vec::with_capacity(alloc, ENTRIES)?,
        })
    }

    /// Gives the owner these entries in place of those that it had, which are handed back. It is
    /// refused where a pattern is none (`BadName`), where an endpoint is to have a wildcard
    /// (`BadFlags`), and where there are more than 256 entries (`TooMany`); a refusal changes
    /// nothing. There must be room for one more owner, or the owner has entries already. It takes
    /// no memory.
    #[tactic(auto, unfolding(crate::specs::Policy::after_put))]
    pub fn put(&mut self, owner: Owner, entries: Vec<Entry>) -> Result<Vec<Entry>, Refusal>
        requires room { place_of self.old owner ≡ None → length self.old < 72 }
        ensures answer { MatchResult result
            (λ old. (put_refusal owner entries.items ≡ None) × (old.items ≡ entries_of self.old owner))
            (λ refusal. put_refusal owner entries.items ≡ Some refusal) }
        ensures after { self.new ≡ after_put self.old owner entries.items }
        ensures refused { OnErr result (self.new ≡ self.old) }
        ensures count { length self.new ≤ length self.old + 1 }
    {
        judge(&owner, entries.as_slice())?;
        let sorted = sorted(entries, &mut self.sorting);
        Ok(exchange(&mut self.holdings, owner, sorted))
    }

    /// What `put` would answer for these entries.
    pub fn may_put(&self, owner: Owner, entries: &[Entry]) -> Result<(), Refusal>
        ensures { MatchResult result
            (λ _. put_refusal owner entries.now ≡ None)
            (λ refusal. put_refusal owner entries.now ≡ Some refusal) }
    {
        judge(&owner, entries)
    }

    /// Whether `put` finds room for the entries of this owner: it has some already, or there is room
    /// for one owner more.
    pub fn has_room(&self, owner: Owner) -> bool
        ensures { result ≡ (is_some (place_of self.now owner) || nat_lt (length self.now) 72) }
    {
        place_of(&self.holdings, &owner).is_some() || self.holdings.len() < OWNERS
    }

    /// Takes the owner and its entries out.
    #[tactic(auto, unfolding(crate::specs::Policy::after_drop))]
    pub fn drop_owner(&mut self, owner: Owner)
        ensures after { self.new ≡ after_drop self.old owner }
        ensures count { length self.new ≤ length self.old }
    {
        keep_others(&mut self.holdings, &owner);
    }

    /// Takes all owners and their entries out. The room for them stays.
    pub fn clear(&mut self)
        ensures { self.new ≡ [] }
    {
        self.holdings.clear();
    }

    /// The level that the list grants these credentials on the name: the greatest of those entries
    /// that have the name as their pattern, or, where there is none, of those whose wildcard covers
    /// it. None where no such entry is for the credentials.
    pub fn level(&self, scope: Scope, name: &[u8], uid: u32, gid: u32) -> Option<Level>
        ensures { result ≡ level_in self.now scope name.now uid gid }
    {
        let exact = self.granted(scope, name, NOTHING, uid, gid);
        if exact.named {
            return exact.level;
        }
        let parent = parent(name)?;
        self.granted(scope, parent, STAR, uid, gid).level
    }

    /// What the list has on the pattern that is `front` with `back` behind it.
    fn granted(&self, scope: Scope, front: &[u8], back: &[u8], uid: u32, gid: u32) -> Granted
        ensures { result ≡ found_in self.now scope (front.now ++ back.now) uid gid }
    {
        let mark = mark_of(front, back);
        let mut found = Granted {
            named: false,
            level: None,
        };
        'holdings: for holding in &self.holdings {
            found = holding.grant(found, scope, front, back, mark, uid, gid);
        }
        found
    }
}

/// Whether the owner may have these entries.
#[tactic(auto, unfolding(crate::specs::Policy::put_refusal))]
fn judge(owner: &Owner, entries: &[Entry]) -> Result<(), Refusal>
    ensures answer { MatchResult result
        (λ _. put_refusal owner.now entries.now ≡ None)
        (λ refusal. put_refusal owner.now entries.now ≡ Some refusal) }
    ensures few { OnOk result (length entries.now ≤ 256) }
{
    if has_ill_named(entries) {
        return Err(Refusal::BadName);
    }
    if owner.is_endpoint() && has_wildcard(entries) {
        return Err(Refusal::BadFlags);
    }
    if entries.len() > ENTRIES {
        return Err(Refusal::TooMany { limit: 256 });
    }
    Ok(())
}

/// Puts these sorted entries in the place of those that the owner has, or behind all others, and
/// hands back what it had.
fn exchange(holdings: &mut Vec<Holding>, owner: Owner, entries: Vec<Entry>) -> Vec<Entry>
    requires sorted { IsByPattern entries.items }
    requires room { place_of holdings.old.items owner ≡ None
        → vec_len holdings.old < vec_capacity holdings.old }
    ensures after { holdings.new.items
        ≡ with_held holdings.old.items (record { owner = owner; entries = entries.items }) }
    ensures old { result.items ≡ entries_of holdings.old.items owner }
    ensures count { vec_len holdings.new ≤ vec_len holdings.old + 1 }
    ensures capacity { vec_capacity holdings.old ≤ vec_capacity holdings.new }
{
    let place = place_of(holdings.as_slice(), &owner);
    let holding = Holding::of(owner, entries);
    match place {
        Some(place) => mem::replace(&mut holdings[place], holding).into_entries(),
        None => {
            let none = Vec::new(*holdings.allocator());
            holdings.push(holding).unwrap();
            none
        }
    }
}

/// Takes the holdings of this owner out.
fn keep_others(holdings: &mut Vec<Holding>, owner: &Owner)
    ensures others { holdings.new.items ≡ but_those (is_held_by owner.now) holdings.old.items }
    ensures count { vec_len holdings.new ≤ vec_len holdings.old }
    ensures capacity { vec_capacity holdings.old ≤ vec_capacity holdings.new }
{
    holdings.retain(|holding| !holding.is_of(owner));
}

/// Where the holding of this owner stands.
fn place_of(holdings: &[Holding], owner: &Owner) -> Option<usize>
    ensures place { result ≡ place_of holdings.now owner.now }
    ensures inside { IfSome result (λ place. place < length holdings.now) }
{
    holdings.iter().position(|holding| holding.is_of(owner))
}

/// Whether the pattern of one of the entries is none.
fn has_ill_named(entries: &[Entry]) -> bool
    ensures { result ≡ some_of is_ill_named entries.now }
{
    entries.iter().any(is_ill_named)
}

/// Whether the pattern of one of them is a wildcard.
fn has_wildcard(entries: &[Entry]) -> bool
    ensures { result ≡ some_of has_star entries.now }
{
    entries.iter().any(has_star)
}

/// Whether the entry's pattern is none.
fn is_ill_named(entry: &Entry) -> bool
    ensures { result ≡ is_ill_named entry.now }
{
    !is_pattern(entry.pattern.bytes())
}

/// Whether the entry's pattern is a wildcard.
fn has_star(entry: &Entry) -> bool
    ensures { result ≡ has_star entry.now }
{
    is_wildcard(entry.pattern.bytes())
}

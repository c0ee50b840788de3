//! What is told of all names at once.

ghost use Rattle.std.specs.Prelude.{◌≡◌, not, IsTrue, IfOk};
ghost use Rattle.kd_model.specs.Words.{contains, first};
ghost use Rattle.kd_registry.specs.declared.claim.Claim.{Claim};
ghost use Rattle.kd_registry.specs.Claims.{id_of, owner_id, ranked};
ghost use Rattle.kd_registry.specs.Changes.{TellsOwners, changes_without, is_owners, is_same_claim, is_wanted, listing, names_of, claim_standing, claims_without};

use crate::claim::{Claim, Listed};
use crate::registry::Registry;
use crate::search::{owner_of, ranks};
use kd_types::{ConnId, ListFlags, OwnerChange, Text};
use std::alloc::{AllocError, Global};

/// Whether two claims on a name are one: a connection has one of each kind at most.
fn is_same(a: &Claim, b: &Claim) -> bool
    ensures { result ≡ is_same_claim a.now b.now }
{
    a.id == b.id && a.is_ordinary() == b.is_ordinary()
}

/// Whether the claim is the owner's on its name.
fn is_owners(claims: &[Claim], claim: &Claim) -> bool
    requires { IsTrue (ranked claims.now) }
    ensures { result ≡ is_owners claims.now claim.now }
{
    match owner_of(claims, claim.name.bytes()) {
        Some(owner) => is_same(owner, claim),
        None => false,
    }
}

/// The standing of a claim: 4 for an activator, 1 for another owner, 2 in the queue.
fn standing(claims: &[Claim], claim: &Claim) -> u64
    requires { IsTrue (ranked claims.now) }
    ensures { result ≡ claim_standing claims.now claim.now }
{
    if !claim.is_ordinary() {
        return 4;
    }
    if is_owners(claims, claim) { 1 } else { 2 }
}

/// Whether claims of the standing are to be listed.
fn is_wanted(flags: ListFlags, standing: u64) -> bool
    ensures { result ≡ is_wanted flags.0 standing }
{
    match standing {
        4 => flags.activators(),
        1 => flags.names(),
        _ => flags.queued(),
    }
}

fn owned_names(alloc: Global, claims: &[Claim], id: ConnId) -> Result<Vec<Text>, AllocError>
    requires { IsTrue (ranked claims.now) }
    ensures { IfOk result (λ names. names.items ≡ names_of claims.now id) }
{
    let mut names = Vec::new(alloc);
    for claim in claims {
        if claim.id == id && is_owners(claims, claim) {
            names.push(Text::of(alloc, claim.name.bytes())?)?;
        }
    }
    Ok(names)
}

fn rows(alloc: Global, claims: &[Claim], flags: ListFlags) -> Result<Vec<Listed>, AllocError>
    requires { IsTrue (ranked claims.now) }
    ensures { IfOk result (λ rows. rows.items ≡ listing claims.now flags) }
{
    let mut rows = Vec::new(alloc);
    for claim in claims {
        let standing = standing(claims, claim);
        if is_wanted(flags, standing) {
            let name = Text::of(alloc, claim.name.bytes())?;
            rows.push(Listed {
                id: claim.id,
                standing,
                name,
            })?;
        }
    }
    Ok(rows)
}

/// Whether the connection is one of these.
fn is_among(id: ConnId, ids: &[ConnId]) -> bool
    ensures { result ≡ contains id ids.now }
{
    ids.iter().any(|other| id == *other)
}

/// Who is first among the claims on a name without those of some connections; 0 for nobody.
fn first_without(ranks: &[Claim], ids: &[ConnId]) -> ConnId
    ensures { result ≡ id_of (first (λ (c : Claim). not (contains c.id ids.now)) ranks.now) }
{
    match ranks.iter().find(|claim| !is_among(claim.id, ids)) {
        Some(claim) => claim.id,
        None => ConnId(0),
    }
}

/// Who owns a name without these connections; 0 for nobody.
fn owner_without(claims: &[Claim], ids: &[ConnId], name: &[u8]) -> ConnId
    requires { IsTrue (ranked claims.now) }
    ensures { result ≡ owner_id (claims_without ids.now claims.now) name.now }
{
    first_without(ranks(claims, name), ids)
}

fn changes(alloc: Global, claims: &[Claim], ids: &[ConnId]) -> Result<Vec<OwnerChange>, AllocError>
    requires { IsTrue (ranked claims.now) }
    ensures { IfOk result (λ changes. changes.items ≡ changes_without claims.now ids.now) }
{
    let mut changes = Vec::new(alloc);
    for claim in claims {
        if is_among(claim.id, ids) && is_owners(claims, claim) {
            let name = Text::of(alloc, claim.name.bytes())?;
            let new = owner_without(claims, ids, claim.name.bytes());
            changes.push(OwnerChange {
                name,
                old: claim.id,
                new,
            })?;
        }
    }
    Ok(changes)
}

impl Registry {
    /// The names that the connection owns, in byte order.
    pub fn names_of(&self, alloc: Global, id: ConnId) -> Result<Vec<Text>, AllocError>
        ensures { IfOk result (λ names. names.items ≡ names_of self.now id) }
    {
        owned_names(alloc, self.book.claims(), id)
    }

    /// The names in byte order, and for each those that the flags ask for: the owner that isn't an
    /// activator, the queue by rank, the activator.
    pub fn listing(&self, alloc: Global, flags: ListFlags) -> Result<Vec<Listed>, AllocError>
        ensures { IfOk result (λ rows. rows.items ≡ listing self.now flags) }
    {
        rows(alloc, self.book.claims(), flags)
    }

    /// The owner changes if all of these connections left at once, by name.
    pub fn changes_without(
        &self,
        alloc: Global,
        ids: &[ConnId],
    ) -> Result<Vec<OwnerChange>, AllocError>
        ensures changes { IfOk result
            (λ changes. changes.items ≡ changes_without self.now ids.now) }
        ensures owners { IfOk result (λ changes. TellsOwners self.now ids.now changes.items) }
    {
        changes(alloc, self.book.claims(), ids)
    }
}

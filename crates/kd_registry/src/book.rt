//! All claims in one vector, and beside it how many each connection has.
//!
//! Whatever is done to a claim here is done to the count of its connection too.

ghost use Rattle.std.specs.Prelude.{◌≡◌, ◌<◌, ◌≤◌, [], IfOk, length, slice_index_or, slice_set};
ghost use Rattle.std.specs.List.{insert, remove};
ghost use Rattle.kd_registry.specs.Claims.{held, left_by};

use crate::claim::Claim;
use crate::holdings::Holdings;
use crate::registry::ROOM;
use kd_types::ConnId;
use std::alloc::{AllocError, Global};
use std::marker::Model;

/// The claims, in the order that its user gives them.
#[derive(Debug, Drop)]
pub(crate) struct Book {
    claims: Vec<Claim>,
    holdings: Holdings,
}

impl Model for Book {
    ghost use Rattle.std.specs.Prelude.{List, ◌≤◌, vec_len, vec_capacity};
    ghost use Rattle.kd_registry.specs.declared.claim.Claim.{Claim};

    ghost Value = { List Claim };

    ghost use Rattle.kd_registry.specs.Counts.{Tells};

    ghost view = { λ b. b.claims.items };

    ghost invariant = { λ b.
        Tells b.holdings b.claims.items × (vec_len b.claims ≤ 4160)
        × (4160 ≤ vec_capacity b.claims) };
}

impl Book {
    /// No claims, with room for [`ROOM`] of them.
    pub(crate) fn make(alloc: Global) -> Result<Book, AllocError>
        ensures { IfOk result (λ b. b ≡ []) }
    {
        Ok(Book {
            claims: Vec::with_capacity(alloc, ROOM)?,
            holdings: Holdings::make(alloc)?,
        })
    }

    pub(crate) fn claims(&self) -> &[Claim]
        ensures { result.now ≡ self.now }
    {
        &self.claims
    }

    /// How many ordinary claims a connection has.
    pub(crate) fn held(&self, id: ConnId) -> usize
        ensures { result ≡ held self.now id }
    {
        self.holdings.of(id)
    }

    /// Puts a claim at a place; there is room for it.
    pub(crate) fn insert(&mut self, place: usize, claim: Claim)
        requires within { place ≤ length self.old }
        requires room { length self.old < 4160 }
        ensures { self.new ≡ insert self.old place claim }
    {
        self.holdings.enter(&claim);
        self.claims.insert(place, claim).unwrap();
    }

    /// Takes out the claim at a place.
    pub(crate) fn remove(&mut self, place: usize) -> Claim
        requires { place < length self.old }
        ensures gone { result ≡ slice_index_or self.old place result }
        ensures left { self.new ≡ remove self.old place }
    {
        let gone = self.claims.remove(place);
        self.holdings.strike(&gone);
        gone
    }

    /// Puts a claim in the place of another.
    pub(crate) fn replace(&mut self, place: usize, claim: Claim)
        requires { place < length self.old }
        ensures { self.new ≡ slice_set self.old place claim }
    {
        self.holdings.strike(&self.claims[place]);
        self.holdings.enter(&claim);
        self.claims[place] = claim;
    }

    /// Takes out all claims.
    pub(crate) fn clear(&mut self)
        ensures { self.new ≡ [] }
    {
        self.claims.clear();
        self.holdings.forget();
    }

    /// Takes out all claims of a connection, an activator's too.
    pub(crate) fn leave(&mut self, id: ConnId)
        ensures { self.new ≡ left_by self.old id }
    {
        self.claims.retain(|claim| !(claim.id == id));
        self.holdings.clear(id);
    }
}

//! How many claims each connection has.

ghost use Rattle.std.specs.Prelude.{◌≡◌, ℕ, ◌+◌, ◌<◌, ◌≤◌, Bool, [], IfOk, IfErr};
ghost use Rattle.kd_registry.specs.Counts.{IsAt, IsGapFor, AreRows, anyone, but, claim_count, one_if, only, weight};

use crate::claim::Claim;
use crate::registry::ROOM;
use kd_types::ConnId;
use std::alloc::{AllocError, Global};
use std::marker::Model;

/// How many claims a connection has, which is more than 0.
#[derive(Clone, Copy, Debug)]
pub(crate) struct Holding {
    id: ConnId,
    count: usize,
}

/// A row for each connection that has claims, by rising id, with room for as many as there can be
/// claims.
#[derive(Debug, Drop)]
pub(crate) struct Holdings {
    rows: Vec<Holding>,
}

impl Model for Holdings {
    ghost use Rattle.std.specs.Prelude.{List, ◌≤◌, vec_capacity};
    ghost use Rattle.kd_registry.specs.declared.holdings.Holding.{Holding};
    ghost use Rattle.kd_registry.specs.Counts.{AreRows};

    ghost Value = { List Holding };

    ghost view = { λ h. h.rows.items };

    ghost invariant = { λ h. AreRows h.rows.items × (4160 ≤ vec_capacity h.rows) };
}

/// Where the row of the connection stands, or else where it would stand.
fn find(rows: &[Holding], id: ConnId) -> Result<usize, usize>
    requires { AreRows rows.now }
    ensures found { IfOk result (IsAt rows.now id) }
    ensures absent { IfErr result (IsGapFor rows.now id) }
{
    rows.binary_search_by_key(&id.0, |row| row.id.0)
}

impl Holdings {
    /// No connection has claims.
    pub(crate) fn make(alloc: Global) -> Result<Holdings, AllocError>
        ensures { IfOk result (λ h. h ≡ []) }
    {
        Ok(Holdings {
            rows: Vec::with_capacity(alloc, ROOM)?,
        })
    }

    /// No connection has claims any more.
    pub(crate) fn forget(&mut self)
        ensures { self.new ≡ [] }
    {
        self.rows.clear();
    }

    /// How many claims the connection has.
    pub(crate) fn of(&self, id: ConnId) -> usize
        ensures { result ≡ claim_count (only id) self.now }
    {
        match find(&self.rows, id) {
            Ok(place) => self.rows[place].count,
            Err(_) => 0,
        }
    }

    /// One claim more of the connection.
    fn add(&mut self, id: ConnId)
        requires { claim_count anyone self.old < 4160 }
        ensures { (chosen : ℕ → Bool)
            → claim_count chosen self.new ≡ claim_count chosen self.old + one_if (chosen id) }
    {
        match find(&self.rows, id) {
            Ok(place) => {
                let count = self.rows[place].count + 1;
                self.rows[place] = Holding { id, count };
            }
            Err(place) => {
                self.rows.insert(place, Holding { id, count: 1 }).unwrap();
            }
        }
    }

    /// One claim less of the connection, which has some.
    fn take_off(&mut self, id: ConnId)
        requires { 0 < claim_count (only id) self.old }
        ensures { (chosen : ℕ → Bool)
            → claim_count chosen self.new + one_if (chosen id) ≡ claim_count chosen self.old }
    {
        if let Ok(place) = find(&self.rows, id) {
            let count = self.rows[place].count;
            if count == 1 {
                self.rows.remove(place);
            } else {
                self.rows[place] = Holding {
                    id,
                    count: count - 1,
                };
            }
        }
    }

    /// The claim came; an activator's isn't counted.
    pub(crate) fn enter(&mut self, claim: &Claim)
        requires { claim_count anyone self.old < 4160 }
        ensures { (chosen : ℕ → Bool)
            → claim_count chosen self.new ≡ claim_count chosen self.old + weight chosen claim.now }
    {
        if claim.is_ordinary() {
            self.add(claim.id);
        }
    }

    /// The claim goes.
    pub(crate) fn strike(&mut self, claim: &Claim)
        requires { weight (only claim.now.id) claim.now ≤ claim_count (only claim.now.id) self.old }
        ensures { (chosen : ℕ → Bool)
            → claim_count chosen self.new + weight chosen claim.now ≡ claim_count chosen self.old }
    {
        if claim.is_ordinary() {
            self.take_off(claim.id);
        }
    }

    /// All claims of the connection go.
    pub(crate) fn clear(&mut self, id: ConnId)
        ensures { (chosen : ℕ → Bool)
            → claim_count chosen self.new ≡ claim_count (but chosen id) self.old }
    {
        if let Ok(place) = find(&self.rows, id) {
            self.rows.remove(place);
        }
    }
}

//! The registry of names.

ghost use Rattle.std.specs.Prelude.{◌≡◌, ◌↔◌, ◌<◌, length, [], List, IsTrue, IfOk, option_map};
ghost use Rattle.kd_registry.specs.Claims.{as_owner, owner};

use crate::book::Book;
use crate::search::owner_of;
use kd_types::ConnId;
use std::alloc::{AllocError, Global};
use std::marker::Model;

/// The most claims of one connection, as owner or in a queue.
pub const CLAIM_LIMIT: usize = 64;

/// The room for claims: 64 of each of the 64 connections that a bus can have at once, and one for
/// each of them that may be an activator.
pub const ROOM: usize = 4160;

/// The claims on all names. A contract sees them as one list, by name in byte order and then by
/// rank.
#[derive(Debug, Drop)]
pub struct Registry {
    pub(crate) book: Book,
}

impl Model for Registry {
    ghost use Rattle.std.specs.Prelude.{List, ◌≤◌, IsTrue, length};
    ghost use Rattle.kd_registry.specs.declared.claim.Claim.{Claim};
    ghost use Rattle.kd_registry.specs.Claims.{ranked};

    ghost Value = { List Claim };

    ghost view = { λ r. r.book };

    ghost invariant = { λ r. IsTrue (ranked r.book) × (length r.book ≤ 4160) };
}

impl Registry {
    /// A registry without claims, with room for [`ROOM`] of them.
    pub fn make(alloc: Global) -> Result<Registry, AllocError>
        ensures empty { IfOk result (λ r. r ≡ []) }
    {
        Ok(Registry {
            book: Book::make(alloc)?,
        })
    }

    /// Whether there is room for one more claim.
    pub fn has_room(&self) -> bool
        ensures { IsTrue result ↔ (length self.now < 4160) }
    {
        self.book.claims().len() < ROOM
    }

    /// Takes all claims out. The room for them stays.
    pub fn clear(&mut self)
        ensures { self.new ≡ [] }
    {
        self.book.clear();
    }

    /// Who owns the name, and whether it is an activator.
    pub fn owner(&self, name: &[u8]) -> Option<(ConnId, bool)>
        ensures { result ≡ option_map as_owner (owner self.now name.now) }
    {
        match owner_of(self.book.claims(), name) {
            Some(owner) => Some((owner.id, !owner.is_ordinary())),
            None => None,
        }
    }
}

//! The sealed payloads of all connections of a bus.

ghost use Rattle.std.specs.Prelude.{◌≡◌, ◌<◌, ◌≤◌, ◌+◌, ◌-◌, ◌^◌, ◌⊎◌, ◌↔◌, ◌&&◌, ◌||◌, [], ◌∷◌, ◌++◌, length, Err, IfErr, IfOk, IsTrue, None, OnErr, OnOk, Some, nat_lt, option_copied, vec_capacity, vec_len};
ghost use Rattle.kd_model.specs.Words.{but_those, first, some_of, those};
ghost use Rattle.kd_seal.specs.Book.{counts, has_counted, is_seal_of, is_seal, next_in, next_number, no_seals, seal_answer, shared, unseal_answer, unsealed, with_seal, seals_without_conn};

use crate::sealed::Sealed;
use kd_types::{ConnId, Refusal};
use std::alloc::{AllocError, Global};
use std::marker::Model;

/// The longest payload that is sealed, in bytes: as much as an image has without its metadata.
pub const LONGEST: u64 = 65_536;

/// How many seals one connection has at most. The 17th is refused until one is unsealed.
pub const SEALS_OF_ONE: u64 = 16;

/// How many connections a bus has at once: one on each of its seats.
pub const CONNECTIONS: usize = 64;

/// How many seals there are at most: what all connections have together.
pub const SEALS: usize = 1_024;

/// A sealed payload: whose it is, its number, its bytes.
#[derive(Debug, Drop)]
pub struct Seal {
    pub id: ConnId,
    pub number: u64,
    pub content: Sealed,
}

/// The number of a connection's next seal.
#[derive(Clone, Copy, Debug, PartialEq, Eq)]
pub struct Counter {
    pub id: ConnId,
    pub next: u64,
}

/// The seals of a bus with each connection's next number, seen as two lists.
#[derive(Debug, Drop)]
pub struct Seals {
    seals: Vec<Seal>,
    counters: Vec<Counter>,
}

impl Model for Seals {
    ghost use Rattle.kd_seal.specs.Book.{SealBook};

    ghost Value = { SealBook };

    ghost use Rattle.kd_seal.specs.Room.{seal_book, HasRoom};

    ghost view = { seal_book };

    ghost invariant = { HasRoom };
}

impl Seals {
    /// No seals, with room for those of all connections.
    pub fn make(alloc: Global) -> Result<Seals, AllocError>
        ensures empty { IfOk result (λ s. s ≡ no_seals) }
    {
        Ok(Seals {
            seals: Vec::with_capacity(alloc, SEALS)?,
            counters: Vec::with_capacity(alloc, CONNECTIONS)?,
        })
    }

    /// The number that a seal of so many bytes would get. `TooLong` above [`LONGEST`], `TooMany`
    /// where the connection has [`SEALS_OF_ONE`] already.
    pub fn may_seal(&self, id: ConnId, length: u64) -> Result<u64, Refusal>
        ensures answer { result ≡ seal_answer self.now id length }
    {
        if length > LONGEST {
            return Err(Refusal::TooLong);
        }
        if count_of(&self.seals, id) >= SEALS_OF_ONE {
            return Err(Refusal::TooMany {
                limit: SEALS_OF_ONE,
            });
        }
        Ok(next_number(&self.counters, id))
    }

    /// Whether there is room for one more seal of the connection, and for its counter, where it has
    /// none yet.
    pub fn has_room(&self, id: ConnId) -> bool
        ensures { result
            ≡ (nat_lt (length self.now.seals) SEALS
            && (has_counted self.now id || nat_lt (length self.now.counters) CONNECTIONS)) }
    {
        self.seals.len() < SEALS
            && (has_counter(&self.counters, id) || self.counters.len() < CONNECTIONS)
    }

    /// Seals the bytes under the connection's next number, with the refusals of `may_seal`. There
    /// is room where not all [`SEALS`] are taken, and where the connection has sealed before or
    /// fewer than [`CONNECTIONS`] others have.
    #[tactic(auto, using(crate::proofs::Counting::has_counter))]
    pub fn seal(&mut self, id: ConnId, sealed: Sealed) -> Result<u64, Refusal>
        requires seals { length self.old.seals < SEALS }
        requires counters { IsTrue (has_counted self.old id)
            ⊎ (length self.old.counters < CONNECTIONS) }
        requires counting { next_number self.old id ≤ 2 ^ 63 - 1 }
        ensures answer { result ≡ seal_answer self.old id (length sealed) }
        ensures ok { OnOk result (self.new ≡ with_seal self.old id sealed) }
        ensures next { IfOk result (λ number. next_number self.new id ≡ number + 1) }
        ensures counted { OnOk result (IsTrue (has_counted self.new id)) }
        ensures err { OnErr result (self.new ≡ self.old) }
    {
        let number = self.may_seal(id, sealed.bytes().len() as u64)?;
        count(&mut self.counters, id, number + 1);
        self.seals
            .push(Seal {
                id,
                number,
                content: sealed,
            })
            .unwrap();
        Ok(number)
    }

    /// A share of a range of a seal. `NoSuchSeal` where the connection has no seal of the number,
    /// or the range isn't inside it.
    pub fn share(&self, id: ConnId, number: u64, start: u64, length: u64) -> Result<Sealed, Refusal>
        ensures ok { IfOk result (λ s. shared self.now id number start length ≡ Some s) }
        ensures none { result ≡ Err Refusal.NoSuchSeal
            ↔ (shared self.now id number start length ≡ None) }
        ensures only { IfErr result (λ e. (e ≡ Refusal.NoSuchSeal) ⊎ (e ≡ Refusal.OutOfMemory)) }
    {
        let Some(seal) = find(&self.seals, id, number) else {
            return Err(Refusal::NoSuchSeal);
        };
        let size = seal.content.bytes().len() as u64;
        if start > size {
            return Err(Refusal::NoSuchSeal);
        }
        if length > size - start {
            return Err(Refusal::NoSuchSeal);
        }
        let part = seal
            .content
            .part(start as usize, (start + length) as usize)?;
        Ok(part)
    }

    /// What `unseal` would answer.
    pub fn may_unseal(&self, id: ConnId, number: u64) -> Result<(), Refusal>
        ensures answer { result ≡ unseal_answer self.now id number }
    {
        if stands(&self.seals, id, number) {
            Ok(())
        } else {
            Err(Refusal::NoSuchSeal)
        }
    }

    /// Removes the number of a seal. The shares of its bytes stay, and the number isn't used again.
    /// `NoSuchSeal` where the connection has no seal of the number.
    pub fn unseal(&mut self, id: ConnId, number: u64) -> Result<(), Refusal>
        ensures answer { result ≡ unseal_answer self.old id number }
        ensures ok { OnOk result (self.new ≡ unsealed self.old id number) }
        ensures err { OnErr result (self.new ≡ self.old) }
    {
        self.may_unseal(id, number)?;
        remove(&mut self.seals, id, number);
        Ok(())
    }

    /// The connection has left: its seals go, and its counter, since its id is never used again.
    pub fn drop_conn(&mut self, id: ConnId)
        ensures { self.new ≡ seals_without_conn self.old id }
    {
        remove_of(&mut self.seals, id);
        forget(&mut self.counters, id);
    }

    /// All connections have left: all seals and counters go. The room for them stays.
    pub fn clear(&mut self)
        ensures { self.new ≡ no_seals }
    {
        self.seals.clear();
        self.counters.clear();
    }
}

/// How many seals the connection has.
fn count_of(seals: &[Seal], id: ConnId) -> u64
    ensures { result ≡ length (those (is_seal_of id) seals.now) }
{
    seals.iter().filter(|seal| seal.id == id).count() as u64
}

/// The connection's seal of this number.
fn find(seals: &[Seal], id: ConnId, number: u64) -> Option<&Seal>
    ensures { option_copied result ≡ first (is_seal id number) seals.now }
{
    seals
        .iter()
        .find(|seal| seal.id == id && seal.number == number)
}

/// Whether the connection has a seal of this number.
fn stands(seals: &[Seal], id: ConnId, number: u64) -> bool
    ensures { result ≡ some_of (is_seal id number) seals.now }
{
    seals
        .iter()
        .any(|seal| seal.id == id && seal.number == number)
}

/// The connection's counter.
fn counter_of(counters: &[Counter], id: ConnId) -> Option<&Counter>
    ensures { option_copied result ≡ first (counts id) counters.now }
{
    counters.iter().find(|counter| counter.id == id)
}

/// Whether the connection has a counter.
fn has_counter(counters: &[Counter], id: ConnId) -> bool
    ensures { result ≡ some_of (counts id) counters.now }
{
    counters.iter().any(|counter| counter.id == id)
}

/// The number of the connection's next seal.
fn next_number(counters: &[Counter], id: ConnId) -> u64
    ensures { result ≡ next_in counters.now id }
{
    match counter_of(counters, id) {
        Some(counter) => counter.next,
        None => 1,
    }
}

/// The connection's counter goes behind the others, with its next number.
fn count(counters: &mut Vec<Counter>, id: ConnId, next: u64)
    requires room { IsTrue (some_of (counts id) counters.old.items)
        ⊎ (vec_len counters.old < vec_capacity counters.old) }
    ensures counted { counters.new.items
        ≡ but_those (counts id) counters.old.items ++ record { id = id; next = next } ∷ [] }
    ensures room { vec_capacity counters.old ≤ vec_capacity counters.new }
{
    forget(counters, id);
    counters.push(Counter { id, next }).unwrap();
}

fn forget(counters: &mut Vec<Counter>, id: ConnId)
    ensures others { counters.new.items ≡ but_those (counts id) counters.old.items }
    ensures room { vec_capacity counters.new ≡ vec_capacity counters.old }
{
    counters.retain(|counter| counter.id != id);
}

fn remove(seals: &mut Vec<Seal>, id: ConnId, number: u64)
    ensures others { seals.new.items ≡ but_those (is_seal id number) seals.old.items }
    ensures room { vec_capacity seals.new ≡ vec_capacity seals.old }
{
    seals.retain(|seal| !(seal.id == id && seal.number == number));
}

fn remove_of(seals: &mut Vec<Seal>, id: ConnId)
    ensures others { seals.new.items ≡ but_those (is_seal_of id) seals.old.items }
    ensures room { vec_capacity seals.new ≡ vec_capacity seals.old }
{
    seals.retain(|seal| seal.id != id);
}

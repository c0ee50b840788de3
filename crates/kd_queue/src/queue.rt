//! The entries of one pool, in order of arrival.

ghost use Rattle.std.specs.Prelude.{◌≡◌, ◌<◌, [], ◌∷◌, ◌++◌, IfOk, IfSome, IsFalse, IsTrue, Some, option_map, option_to_list, vec_capacity};
ghost use Rattle.kd_model.specs.Words.{but_those, is_empty};
ghost use Rattle.kd_model.specs.declared.slice_no.TheConstants.{SLICES};
ghost use Rattle.kd_queue.specs.Order.{entry_number, has_entry, is_entry_of, most_urgent, next_entry, oldest, those_within};

use crate::entry::Entry;
use kd_model::{SLICES, SliceNo};
use std::alloc::{AllocError, Global};
use std::marker::Model;

/// The waiting slices of a pool, seen as the list of their entries in order of arrival.
///
/// Its vector is made once, with room for every number that a pool has, so that no later call takes
/// memory.
#[derive(Debug, Drop)]
pub struct Queue {
    entries: Vec<Entry>,
}

impl Model for Queue {
    ghost use Rattle.std.specs.Prelude.{List};
    ghost use Rattle.kd_queue.specs.declared.entry.Entry.{Entry};

    ghost Value = { List Entry };

    ghost use Rattle.kd_queue.specs.Room.{IsQueue};

    ghost view = { λ q. q.entries.items };

    ghost invariant = { IsQueue };
}

impl Queue {
    /// An empty queue.
    pub fn make(alloc: Global) -> Result<Queue, AllocError>
        ensures empty { IfOk result (λ q. q ≡ []) }
    {
        Ok(Queue {
            entries: Vec::with_capacity(alloc, SLICES as usize)?,
        })
    }

    /// Lets a slice wait behind all others.
    pub fn push(&mut self, number: SliceNo, priority: i64)
        requires below { number < SLICES }
        requires new { IsFalse (has_entry number self.old) }
        ensures last { self.new ≡ self.old ++ record { number = number; priority = priority } ∷ [] }
    {
        self.entries.push(Entry { number, priority }).unwrap();
    }

    /// The slice that is received next: without a limit the oldest; with one, of those whose
    /// priority is at most the limit, the least by priority and then by arrival. None exactly where
    /// no slice waits, or none within the limit.
    pub fn next(&self, limit: Option<i64>) -> Option<SliceNo>
        ensures next { result ≡ option_map entry_number (next_entry self.now limit) }
        ensures waits { IfSome result (λ n. IsTrue (has_entry n self.now)) }
    {
        match limit {
            None => oldest(&self.entries),
            Some(limit) => least_within(&self.entries, limit),
        }
    }

    /// Takes a slice out. The others keep their order.
    pub fn take(&mut self, number: SliceNo)
        requires waits { IsTrue (has_entry number self.old) }
        ensures others { self.new ≡ but_those (is_entry_of number) self.old }
    {
        remove(&mut self.entries, number);
    }

    /// Takes all slices out.
    pub fn clear(&mut self)
        ensures { self.new ≡ [] }
    {
        self.entries.clear();
    }

    /// The entries of the slices that wait, in order of arrival.
    pub fn entries(&self) -> &[Entry]
        ensures { result.now ≡ self.now }
    {
        &self.entries
    }

    /// Whether no slice waits.
    pub fn is_empty(&self) -> bool
        ensures { result ≡ is_empty self.now }
    {
        self.entries.is_empty()
    }
}

/// The entry that came first.
fn oldest(entries: &[Entry]) -> Option<SliceNo>
    ensures { result ≡ option_map entry_number (oldest entries.now) }
{
    match entries {
        [] => None,
        [entry, ..] => Some(entry.number),
    }
}

/// Of the entries within the limit the least priority, and of equals the one that came first.
fn least_within(entries: &[Entry], limit: i64) -> Option<SliceNo>
    ensures { result ≡ option_map entry_number (next_entry entries.now (Some limit)) }
{
    let mut best: Option<Entry> = None;
    'entries: for entry in entries {
        best = better(best, *entry, limit);
    }
    best.map(|entry| entry.number)
}

/// The best so far, unless the entry behind it is within the limit and goes before it.
fn better(best: Option<Entry>, entry: Entry, limit: i64) -> Option<Entry>
    ensures { result ≡ most_urgent (option_to_list best ++ those_within limit (entry ∷ [])) }
{
    if entry.priority > limit {
        return best;
    }
    let Some(before) = best else {
        return Some(entry);
    };
    if entry.priority < before.priority {
        Some(entry)
    } else {
        Some(before)
    }
}

fn remove(entries: &mut Vec<Entry>, number: SliceNo)
    ensures others { entries.new.items ≡ but_those (is_entry_of number) entries.old.items }
    ensures room { vec_capacity entries.new ≡ vec_capacity entries.old }
{
    entries.retain(|entry| entry.number != number);
}

//! A source in memory, which tells what it has left.

ghost use Rattle.std.specs.Prelude.{◌≡◌, ◌+◌, ◌≤◌, ◌↔◌, min, List, [], take, drop, length, filter, nat_lt, vec_len, IsTrue, IsErr, IfOk};
ghost use Rattle.std.specs.declared.option.Option.TheVariants.{Some};
ghost use Rattle.std.specs.Io.{ReadsAtMost};
ghost use Rattle.std.specs.Io.KnownBytes.{ReadConsumes};
ghost use Rattle.kd_outside.specs.Causes.{HasCause};
ghost use Rattle.kd_outside.specs.Told.{no_side};
ghost use Rattle.kd_outside.specs.Memory.{Tape, unread_bytes, new_tape, least_of, fails_next, piece_length, after_read};

use crate::calls::Calls;
use crate::traits::{Failed, Source};
use std::marker::Model;

/// Bytes to be read. A piece ends at the latest at the least cut above the place where it starts.
#[derive(Debug, Drop)]
pub struct MemSource {
    content: Vec<u8>,
    cuts: Vec<usize>,
    place: usize,
    calls: Calls,
}

impl Model for MemSource {
    ghost Value = { Tape };

    ghost view = { λ s. record {
      content = s.content.items;
      cuts = s.cuts.items;
      place = s.place;
      calls = s.calls;
    } };

    ghost invariant = { λ s. s.place ≤ vec_len s.content };
}

impl MemSource {
    /// A source of these bytes, whose calls of the numbers in `fails` fail, counted from 1. It
    /// takes no memory.
    pub fn make(bytes: Vec<u8>, cuts: Vec<usize>, fails: Vec<u64>) -> MemSource
        ensures { result ≡ new_tape bytes.items cuts.items fails.items }
    {
        MemSource {
            content: bytes,
            cuts,
            place: 0,
            calls: Calls::of(fails),
        }
    }
}

/// The least of the cuts above a place, or the end.
fn cut_above(cuts: &[usize], place: usize, end: usize) -> usize
    requires { place ≤ end }
    ensures value { result ≡ least_of (filter (λ cut. nat_lt place cut) cuts.now) end }
    ensures inside { result ≤ end }
    ensures above { min (place + 1) end ≤ result }
{
    let mut best = end;
    'cuts: for cut in cuts {
        if place < *cut {
            best = best.min(*cut);
        }
    }
    best
}

impl Source for MemSource {
    ghost left = { λ s. Some (unread_bytes s) };

    ghost faults = { λ s. s.calls.faults };

    ghost beside = { λ _. no_side };

    /// Reads the next piece, as much of it as there is room for; fails at the calls that were
    /// named, and at no other.
    fn read(&mut self, into: &mut [u8]) -> Result<usize, Failed>
        ensures bound { ReadsAtMost result into.new }
        ensures bytes { ReadConsumes (Some (unread_bytes self.old))
            (Some (unread_bytes self.new)) result into.new }
        ensures cause { HasCause self.old.calls.faults self.new.calls.faults result }
        ensures failing { IsErr result ↔ IsTrue (fails_next self.old.calls) }
        ensures count { IfOk result (λ n. n ≡ piece_length self.old (length into.old)) }
        ensures after { self.new ≡ after_read (length into.old) self.old }
    {
        if self.calls.fails_next() {
            self.calls.count_fault();
            return Err(Failed);
        }
        let end = cut_above(&self.cuts, self.place, self.content.len());
        let count = into.len().min(end - self.place);
        let (piece, _) = self.content.split_at(self.place).1.split_at(count);
        into.split_at_mut(count).0.copy_from_slice(piece);
        self.place += count;
        self.calls.count();
        Ok(count)
    }
}

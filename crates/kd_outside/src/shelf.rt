//! A sink in memory, which tells what it took.

ghost use Rattle.std.specs.Prelude.{◌≡◌, ◌+◌, ◌-◌, ◌≤◌, ◌<◌, ◌↔◌, ◌++◌, min, [], take, length, vec_len, IsTrue, IsErr, IfOk};
ghost use Rattle.std.specs.declared.option.Option.TheVariants.{Some};
ghost use Rattle.std.specs.Io.{WritesAtMost};
ghost use Rattle.std.specs.Io.KnownBytes.{WriteAppends};
ghost use Rattle.kd_outside.specs.Causes.{HasCause};
ghost use Rattle.kd_outside.specs.Told.{no_side};
ghost use Rattle.kd_outside.specs.Memory.{Shelf, new_shelf, room_of, refuses, after_write};

use crate::calls::Calls;
use crate::traits::{Failed, Sink};
use std::marker::Model;

/// Room for bytes that are written. A write takes what fits, and fails where nothing of its piece
/// does.
#[derive(Debug, Drop)]
pub struct MemSink {
    room: Vec<u8>,
    place: usize,
    calls: Calls,
}

impl Model for MemSink {
    ghost Value = { Shelf };

    ghost view = { λ s. record {
      held = take s.place s.room.items;
      size = vec_len s.room;
      calls = s.calls;
    } };

    ghost invariant = { λ s. s.place ≤ vec_len s.room };
}

/// Writes a piece at a place where it fits.
fn put_at(room: &mut Vec<u8>, place: usize, piece: &[u8])
    requires { place + length piece.now ≤ vec_len room.old }
    ensures front { take (place + length piece.now) room.new.items
        ≡ take place room.old.items ++ piece.now }
    ensures size { vec_len room.new ≡ vec_len room.old }
{
    room[place..place + piece.len()].copy_from_slice(piece);
}

impl MemSink {
    /// A sink that writes into `room` from its start, and whose calls of the numbers in `fails`
    /// fail, counted from 1. It takes no memory.
    pub fn make(room: Vec<u8>, fails: Vec<u64>) -> MemSink
        ensures { result ≡ new_shelf (vec_len room) fails.items }
    {
        MemSink {
            room,
            place: 0,
            calls: Calls::of(fails),
        }
    }

    /// What was written.
    pub fn held(&self) -> &[u8]
        ensures { result.now ≡ self.now.held }
    {
        self.room.split_at(self.place).0
    }

    /// Whether the next write of this piece fails.
    fn refuses(&self, piece: &[u8]) -> bool
        ensures { result ≡ refuses piece.now self.now }
    {
        if self.calls.fails_next() {
            return true;
        }
        self.room.len() - self.place == 0 && !piece.is_empty()
    }
}

impl Sink for MemSink {
    ghost held = { λ s. Some s.held };

    ghost faults = { λ s. s.calls.faults };

    ghost beside = { λ _. no_side };

    /// Takes as much of the piece as fits; fails at the calls that were named and where nothing
    /// fits, and at no other.
    fn write(&mut self, piece: &[u8]) -> Result<usize, Failed>
        ensures bound { WritesAtMost result piece.now }
        ensures some { IfOk result (λ n. 0 < length piece.now → 0 < n) }
        ensures bytes { WriteAppends (Some self.old.held) (Some self.new.held) result piece.now }
        ensures cause { HasCause self.old.calls.faults self.new.calls.faults result }
        ensures failing { IsErr result ↔ IsTrue (refuses piece.now self.old) }
        ensures count { IfOk result (λ n. n ≡ min (room_of self.old) (length piece.now)) }
        ensures after { self.new ≡ after_write piece.now self.old }
    {
        if self.refuses(piece) {
            self.calls.count_fault();
            return Err(Failed);
        }
        let count = piece.len().min(self.room.len() - self.place);
        put_at(&mut self.room, self.place, piece.split_at(count).0);
        self.place += count;
        self.calls.count();
        Ok(count)
    }
}

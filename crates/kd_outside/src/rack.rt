//! Things that are handed out in order, and taken back in order, in the vector that they came in.
//!
//! ```text
//! | came back | to be handed out | room for those that are out |
//! 0        `back`           `items.len()`                 capacity
//! ```

ghost use Rattle.std.specs.Prelude.{◌≡◌, ◌+◌, ◌≤◌, ◌<◌, ◌∷◌, ◌^◌, false, length, take, drop, nat_lt, vec_len, vec_capacity};
ghost use Rattle.std.specs.declared.option.Option.TheVariants.{Some};
ghost use Rattle.kd_model.specs.Words.{is_empty};
ghost use Rattle.kd_outside.specs.Racks.{Rack as RackValue, full_rack, next_of, with_one_out, with_one_back};

use std::alloc::Global;
use std::marker::Model;

/// A vector of things, each of which is handed out once and may come back.
#[derive(Debug, Drop)]
pub(crate) struct Rack<T> {
    items: Vec<T>,
    back: usize,
    out: usize,
}

impl<T> Model for Rack<T> {
    ghost Value = { RackValue T };

    ghost view = { λ r. record {
      coming = drop r.back r.items.items;
      back = take r.back r.items.items;
      out = r.out;
    } };

    ghost invariant = { λ r. (r.back ≤ vec_len r.items)
        × (vec_len r.items + r.out ≤ vec_capacity r.items) };
}

impl<T> Rack<T> {
    /// All of these are to be handed out.
    pub(crate) fn of(items: Vec<T>) -> Rack<T>
        ensures { result ≡ full_rack items.items }
    {
        Rack {
            items,
            back: 0,
            out: 0,
        }
    }

    /// Whether nothing is to be handed out any more.
    pub(crate) fn is_over(&self) -> bool
        ensures { result ≡ is_empty self.now.coming }
    {
        self.back == self.items.len()
    }

    /// Whether one that was handed out hasn't come back.
    pub(crate) fn is_lent(&self) -> bool
        ensures { result ≡ nat_lt 0 self.now.out }
    {
        self.out > 0
    }

    /// Hands out the first.
    pub(crate) fn hand_out(&mut self) -> T
        requires { is_empty self.old.coming ≡ false }
        ensures first { self.old.coming ≡ result ∷ self.new.coming }
        ensures next { next_of self.old.coming ≡ Some result }
        ensures after { self.new ≡ with_one_out self.old }
        // A vector has at most as many places as its type's greatest number.
        ensures counted { length self.new.back + self.new.out < 2 ^ 64 }
    {
        self.out += 1;
        self.items.remove(self.back)
    }

    /// Takes one back.
    pub(crate) fn take_back(&mut self, item: T)
        requires { 0 < self.old.out }
        ensures { self.new ≡ with_one_back item self.old }
    {
        self.out -= 1;
        self.items.insert(self.back, item).unwrap();
        self.back += 1;
    }

    /// Those that came back.
    pub(crate) fn ended(&self) -> &[T]
        ensures { result.now ≡ self.now.back }
    {
        self.items.split_at(self.back).0
    }

    /// What their vector was allocated from.
    pub(crate) fn alloc(&self) -> Global {
        *self.items.allocator()
    }
}

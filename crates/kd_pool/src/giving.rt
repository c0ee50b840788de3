//! Giving the slices of slots back to their book.

ghost use Rattle.std.specs.Prelude.{[], ◌≡◌, IsTrue, map};
ghost use Rattle.kd_model.specs.Slices.{IsSound, is_placed};
ghost use Rattle.kd_model.specs.Words.{but_those};
ghost use Rattle.kd_acts.specs.State.{is_freed, is_waiting, placed_of};
ghost use Rattle.kd_pool.specs.Table.{with_slots, without_if};

use crate::table;
use kd_acts::Slot;
use kd_links::Links;
use kd_model::SliceBook;

/// Gives the slices of all freed slots back.
pub fn give_back_freed(book: &mut Links, slots: &[Slot])
    requires tied { book.old.slices ≡ map placed_of slots.now }
    requires sound { IsSound book.old }
    ensures freed { book.new ≡ with_slots (but_those is_freed slots.now) book.old }
    ensures sound { IsSound book.new }
{
    'slots: for slot in slots {
        give_back_if_freed(book, slot);
    }
}

fn give_back_if_freed(book: &mut Links, slot: &Slot)
    requires placed { IsTrue (is_placed slot.now.number book.old) }
    requires sound { IsSound book.old }
    ensures freed { book.new ≡ without_if (is_freed slot.now) slot.now.number book.old }
    ensures sound { IsSound book.new }
{
    if table::is_freed(slot) {
        book.give_back(slot.number);
    }
}

/// Gives the slices of all slots back that wait.
pub fn give_back_waiting(book: &mut Links, slots: &[Slot])
    requires tied { book.old.slices ≡ map placed_of slots.now }
    requires sound { IsSound book.old }
    ensures gone { book.new ≡ with_slots (but_those is_waiting slots.now) book.old }
    ensures sound { IsSound book.new }
{
    'slots: for slot in slots {
        give_back_if_waiting(book, slot);
    }
}

fn give_back_if_waiting(book: &mut Links, slot: &Slot)
    requires placed { IsTrue (is_placed slot.now.number book.old) }
    requires sound { IsSound book.old }
    ensures gone { book.new ≡ without_if (is_waiting slot.now) slot.now.number book.old }
    ensures sound { IsSound book.new }
{
    if table::is_waiting(slot) {
        book.give_back(slot.number);
    }
}

/// Gives the slices of all slots back.
pub fn give_back_all(book: &mut Links, slots: &[Slot])
    requires tied { book.old.slices ≡ map placed_of slots.now }
    requires sound { IsSound book.old }
    ensures all { book.new ≡ with_slots [] book.old }
    ensures sound { IsSound book.new }
{
    'slots: for slot in slots {
        book.give_back(slot.number);
    }
}

//! The shares of sealed bytes that slices hold, by slice number.

ghost use Rattle.std.specs.Prelude.{◌≡◌, ℕ, IfOk, List, None, option_map, replicate, set, true};
ghost use Rattle.std.specs.Borrow.{Bor};
ghost use Rattle.kd_model.specs.declared.slice_no.TheConstants.{SLICES};
ghost use Rattle.kd_acts.specs.State.{is_freed, is_waiting};
ghost use Rattle.kd_pool.specs.Sealed.{share_at, with_all_moved, with_moved, without_share, without_shares};

use crate::table;
use kd_acts::Slot;
use kd_model::{SLICES, SliceNo};
use kd_seal::Sealed;
use std::alloc::{AllocError, Global};

/// No shares, with room for one of each slice.
pub fn none(alloc: Global) -> Result<Vec<Option<Sealed>>, AllocError>
    ensures { IfOk result (λ v. v.items ≡ replicate SLICES None) }
{
    Ok(vec![in alloc; None; SLICES as usize]?)
}

/// The bytes of a slice's share.
pub fn bytes(shares: &[Option<Sealed>], number: SliceNo) -> Option<&[u8]>
    ensures { option_map (λ (b : Bor (List ℕ)). b.now) result ≡ share_at shares.now number }
{
    match shares.get(number.0 as usize) {
        Some(Some(share)) => Some(share.bytes()),
        _ => None,
    }
}

/// Gives a slice its share, or none.
pub fn put(shares: &mut Vec<Option<Sealed>>, number: SliceNo, share: Option<Sealed>)
    ensures { shares.new.items ≡ set shares.old.items number share }
{
    if let Some(place) = shares.get_mut(number.0 as usize) {
        *place = share;
    }
}

/// Takes a slice's share away.
pub fn take(shares: &mut Vec<Option<Sealed>>, number: SliceNo) -> Option<Sealed>
    ensures share { result ≡ share_at shares.old.items number }
    ensures rest { shares.new.items ≡ set shares.old.items number None }
{
    match shares.get_mut(number.0 as usize) {
        Some(place) => place.take(),
        None => None,
    }
}

/// Ends the shares of all freed slots.
pub fn end_freed(shares: &mut Vec<Option<Sealed>>, slots: &[Slot])
    ensures { shares.new.items ≡ without_shares is_freed slots.now shares.old.items }
{
    'slots: for slot in slots {
        end_if_freed(shares, slot);
    }
}

fn end_if_freed(shares: &mut Vec<Option<Sealed>>, slot: &Slot)
    ensures { shares.new.items
        ≡ without_share (is_freed slot.now) slot.now.number shares.old.items }
{
    if table::is_freed(slot) {
        put(shares, slot.number, None);
    }
}

/// Ends the shares of all slots.
pub fn end_all(shares: &mut Vec<Option<Sealed>>, slots: &[Slot])
    ensures { shares.new.items ≡ without_shares (λ _. true) slots.now shares.old.items }
{
    'slots: for slot in slots {
        put(shares, slot.number, None);
    }
}

/// Moves the shares of all slots that wait to another table.
pub fn move_waiting(from: &mut Vec<Option<Sealed>>, to: &mut Vec<Option<Sealed>>, slots: &[Slot])
    ensures from { from.new.items ≡ without_shares is_waiting slots.now from.old.items }
    ensures to { to.new.items
        ≡ with_all_moved is_waiting slots.now from.old.items to.old.items }
{
    'slots: for slot in slots {
        move_if_waiting(from, to, slot);
    }
}

fn move_if_waiting(from: &mut Vec<Option<Sealed>>, to: &mut Vec<Option<Sealed>>, slot: &Slot)
    ensures from { from.new.items
        ≡ without_share (is_waiting slot.now) slot.now.number from.old.items }
    ensures to { to.new.items
        ≡ with_moved (is_waiting slot.now) slot.now.number from.old.items to.old.items }
{
    if table::is_waiting(slot) {
        let share = take(from, slot.number);
        put(to, slot.number, share);
    }
}

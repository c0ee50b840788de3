//! Reading a whole list of items.

ghost use Rattle.std.specs.Prelude.{◌≡◌, ◌<◌, ◌≤◌, List, length, drop, option_map, IfSome, IfOk, IfErr, IsOkAnd};
ghost use Rattle.kd_item.specs.Spelling.{Entry, AreItems, BreaksAt, spellings};
ghost use Rattle.kd_item.specs.Reading.{item_at, item_entry, placed, unread_items};

use crate::item::{At, Item};
use crate::reading::Items;

/// The items of the bytes, or where the first one begins that breaks the format.
pub fn read_items(bytes: &[u8]) -> Result<Items<'_>, At>
    // What is read is spelled so, item by item, each with its place.
    ensures found { IfOk result (λ items.
        (es : List Entry) × AreItems es × (bytes.now ≡ spellings es)
        × (unread_items items ≡ placed 0 es)) }
    // What is spelled so is read.
    ensures only { (es : List Entry) → AreItems es → bytes.now ≡ spellings es
        → IsOkAnd result (λ items. unread_items items ≡ placed 0 es) }
    ensures broken { IfErr result (λ e. BreaksAt bytes.now e.at) }
{
    Items::of(bytes)
}

/// The item at the front of the bytes, which begin at this place, and how many bytes it takes with
/// its padding; None where no item begins there.
pub fn first_item(bytes: &[u8], at: usize) -> Option<(Item<'_>, usize)>
    ensures value { option_map (λ f. (item_entry f.0, drop f.1 bytes.now)) result
        ≡ item_at bytes.now }
    ensures place { IfSome result (λ f. f.0.at ≡ at) }
    ensures inside { IfSome result (λ f. f.1 ≤ length bytes.now) }
    ensures some { IfSome result (λ f. 0 < f.1) }
{
    Items::first(bytes, at)
}

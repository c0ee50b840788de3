//! Reading items.

ghost use Rattle.std.specs.Prelude.{◌≡◌, ◌+◌, ◌^◌, ◌≤◌, ◌<◌, length, ◌==◌, drop};
ghost use Rattle.std.specs.List.{list_all};
ghost use Rattle.kd_item.specs.Spelling.{number};

use crate::item::{At, Item};
use crate::writing::padding;
use byteorder::{ByteOrder, LittleEndian};

/// The word that stands at this place.
#[tactic(auto, unfolding(crate::specs::Spelling::number))]
pub fn word_at(bytes: &[u8], at: usize) -> u64
    requires { at + 8 ≤ length bytes.now }
    ensures { result ≡ number (drop at bytes.now) }
{
    LittleEndian::read_u64(bytes.split_at(at).1)
}

/// Whether no byte is other than zero.
pub fn are_zeros(bytes: &[u8]) -> bool
    ensures { result ≡ list_all (λ b. b == 0) bytes.now }
{
    bytes.iter().all(|b| *b == 0)
}

/// The items of a list that was judged, one after the other.
#[derive(Clone, Copy, Debug)]
pub struct Items<'a> {
    rest: &'a [u8],
    at: usize,
    ghost within: { at + length rest.now < 2 ^ 64 },
}

impl<'a> Items<'a> {
    ghost use Rattle.std.specs.Prelude.{◌≡◌, ◌≤◌, ◌<◌, List, length, drop, option_map, IfSome, IfOk, IfErr, IsOkAnd};
    ghost use Rattle.kd_item.specs.Spelling.{Entry, AreItems, BreaksAt, spellings};
    ghost use Rattle.kd_item.specs.Reading.{item_at, item_entry, placed, unread_items};

    /// The items of the bytes, or where the first one begins that breaks the format.
    pub(crate) fn of(bytes: &'a [u8]) -> Result<Items<'a>, At>
        ensures found { IfOk result (λ items.
            (es : List Entry) × AreItems es × (bytes.now ≡ spellings es)
            × (unread_items items ≡ placed 0 es)) }
        ensures only { (es : List Entry) → AreItems es → bytes.now ≡ spellings es
            → IsOkAnd result (λ items. unread_items items ≡ placed 0 es) }
        ensures broken { IfErr result (λ e. BreaksAt bytes.now e.at) }
    {
        let mut rest = bytes;
        let mut at = 0;
        while !rest.is_empty() {
            let Some((_, size)) = Items::first(rest, at) else {
                return Err(At { at: at as u64 });
            };
            rest = rest.split_at(size).1;
            at += size;
        }
        Ok(Items { rest: bytes, at: 0 })
    }

    /// The item at the front, and how many bytes it takes.
    #[tactic(auto, unfolding(crate::specs::Reading::item_at, crate::specs::Spelling::number))]
    pub(crate) fn first(rest: &'a [u8], at: usize) -> Option<(Item<'a>, usize)>
        ensures value { option_map (λ f. (item_entry f.0, drop f.1 rest.now)) result
            ≡ item_at rest.now }
        ensures place { IfSome result (λ f. f.0.at ≡ at) }
        ensures inside { IfSome result (λ f. f.1 ≤ length rest.now) }
        ensures some { IfSome result (λ f. 0 < f.1) }
    {
        if rest.len() < 16 {
            return None;
        }
        let size = LittleEndian::read_u64(rest);
        if size < 16 {
            return None;
        }
        if (rest.len() as u64) < size {
            return None;
        }
        let size = size as usize;
        let zeros = padding(size);
        if rest.len() < size + zeros {
            return None;
        }
        let (whole, behind) = rest.split_at(size);
        let (fill, _) = behind.split_at(zeros);
        if !are_zeros(fill) {
            return None;
        }
        let (_, behind_size) = rest.split_at(8);
        let kind = LittleEndian::read_u64(behind_size);
        let (_, body) = whole.split_at(16);
        Some((Item { kind, body, at }, size + zeros))
    }
}

impl<'a> Iterator for Items<'a> {
    type Item = Item<'a>;

    ghost use Rattle.std.specs.Iterator.{YieldsFirstBy, item_count};
    ghost use Rattle.kd_item.specs.Reading.{placed_item, unread_items};

    ghost next_gives = { YieldsFirstBy placed_item unread_items };

    ghost remaining = { item_count unread_items };

    fn next(&mut self) -> Option<Item<'a>> {
        let (item, size) = Items::first(self.rest, self.at)?;
        self.rest = self.rest.split_at(size).1;
        self.at += size;
        Some(item)
    }
}

//! The seal that a message names.

ghost use Rattle.std.specs.Prelude.{◌≡◌, ◌+◌, [], ◌∷◌, length, option_map, IfOk};
ghost use Rattle.kd_commands.specs.Items.{payloads, sealed_among};
ghost use Rattle.kd_said.specs.Said.{named_of};

use kd_image::SealedRange;
use kd_wire::WireItem;
use std::alloc::AllocError;

/// A seal that a message names, and the range of it that is meant.
#[derive(Clone, Copy, Debug)]
pub struct Named {
    /// The number of the seal among its owner's.
    pub number: u64,
    /// Where the bytes stand in it, and behind how many payloads they come.
    pub range: SealedRange,
}

/// How many payloads stand before what follows the item. No frame has more than a `u32` counts.
fn behind(place: u32, item: &WireItem) -> Result<u32, AllocError>
    ensures { IfOk result (λ n. n ≡ place + length (payloads (item.now ∷ []))) }
{
    match item {
        WireItem::Payload(_) => match place.checked_add(1) {
            Some(next) => Ok(next),
            None => Err(AllocError),
        },
        _ => Ok(place),
    }
}

/// The seal that a message names, if it names one.
pub fn named_seal(items: &[WireItem]) -> Result<Option<Named>, AllocError>
    ensures { IfOk result (λ n. option_map named_of n ≡ sealed_among items.now) }
{
    let mut place = 0;
    'items: for item in items {
        if let WireItem::Sealed {
            number,
            start,
            length,
        } = item
        {
            let range = SealedRange {
                place,
                start: *start,
                length: *length,
            };
            return Ok(Some(Named {
                number: *number,
                range,
            }));
        }
        place = behind(place, item)?;
    }
    Ok(None)
}

/// The range of the seal that is named, if one is.
pub fn range_in(named: Option<Named>) -> Option<SealedRange>
    ensures { result ≡ option_map (λ n. n.range) (option_map named_of named) }
{
    match named {
        Some(named) => Some(named.range),
        None => None,
    }
}

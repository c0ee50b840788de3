//! Writing words and items whose bodies are made of words and a text.

ghost use Rattle.std.specs.Prelude.{◌≡◌, ◌≤◌, ◌++◌, length, OnOk};
ghost use Rattle.kd_item.specs.Spelling.{spelling, words};
ghost use Rattle.kd_image.specs.Items.{item};

use crate::length::item_len;
use kd_item::put_entry;
use std::alloc::AllocError;

/// Appends up to eight numbers. Where there is room it takes no memory.
pub(crate) fn put_words(out: &mut Vec<u8>, numbers: &[u64]) -> Result<(), AllocError>
    requires { length numbers.now ≤ 8 }
    ensures { OnOk result (out.new.items ≡ out.old.items ++ words numbers.now) }
{
    out.reserve(8 * numbers.len())?;
    kd_item::put_words(out, numbers);
    Ok(())
}

/// Appends an item whose body is up to eight numbers and then a text, with its padding. Where there
/// is room it takes no memory.
pub(crate) fn put_item(
    out: &mut Vec<u8>,
    kind: u64,
    numbers: &[u64],
    text: &[u8],
) -> Result<(), AllocError>
    requires { length numbers.now ≤ 8 }
    ensures { OnOk result (out.new.items
        ≡ out.old.items ++ spelling (item kind numbers.now text.now)) }
{
    out.reserve(item_len(numbers.len(), text.len()))?;
    put_entry(out, kind, numbers, text);
    Ok(())
}

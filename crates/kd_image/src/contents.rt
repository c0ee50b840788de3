//! Reading the items of a message.

ghost use Rattle.std.specs.Prelude.{◌≡◌, ◌+◌, Ok, length, IfOk, IfErr};
ghost use Rattle.kd_image.specs.Said.{BreaksSo};
ghost use Rattle.kd_image.specs.Reading.{contents_in};

use crate::draft::Draft;
use kd_item::first_item;
use kd_types::ReplyError;
use std::alloc::Global;

/// What the items behind the header say, or where they break the format. Size is what the header
/// says of header and items.
pub(crate) fn read_contents(alloc: Global, size: u64, area: &[u8]) -> Result<Draft, ReplyError>
    requires { 64 + length area.now ≡ size }
    ensures read { IfOk result (λ d. contents_in size area.now ≡ Ok d) }
    ensures refused { IfErr result (λ e. BreaksSo e (contents_in size area.now)) }
{
    let mut draft = Draft::blank(alloc);
    let mut rest = area;
    let mut at: usize = 64;
    'items: while !rest.is_empty() {
        let Some((item, taken)) = first_item(rest, at) else {
            return Err(ReplyError::Bad { at: at as u64 });
        };
        if !draft.add(alloc, size, item)? {
            return Err(ReplyError::Bad { at: at as u64 });
        }
        rest = rest.split_at(taken).1;
        at += taken;
    }
    Ok(draft)
}

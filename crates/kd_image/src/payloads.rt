//! Reading the payloads of a message.

ghost use Rattle.std.specs.Prelude.{◌≡◌, ◌+◌, ◌^◌, ◌<◌, Ok, [], length, option_map, IfOk, IfErr, IfSome};
ghost use Rattle.kd_image.specs.Items.{padded_length};
ghost use Rattle.kd_image.specs.Said.{BreaksSo};
ghost use Rattle.kd_image.specs.Reading.{payload_at, payloads_from};

use kd_item::{are_zeros, padding};
use kd_types::{Blob, ReplyError};
use std::alloc::Global;

/// The payload of this length at the front, and the bytes behind it and its zeros.
#[tactic(auto, unfolding(crate::specs::Reading::payload_at))]
fn first_payload<'a>(count: u64, bytes: &'a [u8]) -> Option<(&'a [u8], &'a [u8])>
    ensures value { option_map (λ f. (f.0.now, f.1.now)) result ≡ payload_at count bytes.now }
    ensures taken { IfSome result (λ f. padded_length count + length f.1.now ≡ length bytes.now) }
{
    if (bytes.len() as u64) < count {
        return None;
    }
    let count = count as usize;
    let zeros = padding(count);
    if bytes.len() < count + zeros {
        return None;
    }
    let (payload, behind) = bytes.split_at(count);
    if !are_zeros(behind.split_at(zeros).0) {
        return None;
    }
    Some((payload, bytes.split_at(count + zeros).1))
}

/// Payloads of these lengths, the first of which begins at this place of the image, up to the end
/// of its bytes; or where they break the format.
pub(crate) fn read_payloads(
    alloc: Global,
    lengths: &[u64],
    begin: u64,
    bytes: &[u8],
) -> Result<Vec<Blob>, ReplyError>
    requires { begin + length bytes.now < 2 ^ 64 }
    ensures read { IfOk result (λ v. payloads_from [] begin lengths.now bytes.now ≡ Ok v.items) }
    ensures refused { IfErr result
        (λ e. BreaksSo e (payloads_from [] begin lengths.now bytes.now)) }
{
    let mut payloads = Vec::with_capacity(alloc, lengths.len())?;
    let mut rest = bytes;
    let mut at = begin;
    'payloads: for count in lengths {
        let Some((payload, behind)) = first_payload(*count, rest) else {
            return Err(ReplyError::Bad { at });
        };
        payloads.push(Blob::of(Vec::from_slice(alloc, payload)?))?;
        at += (rest.len() - behind.len()) as u64;
        rest = behind;
    }
    if !rest.is_empty() {
        return Err(ReplyError::Bad { at });
    }
    Ok(payloads)
}

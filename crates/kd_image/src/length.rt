//! How long images are.

ghost use Rattle.std.specs.Prelude.{◌≡◌, ◌↔◌, ℕ, ◌+◌, ◌*◌, ◌^◌, ◌<◌, ◌≤◌, min, IsTrue, [], length, map};
ghost use Rattle.kd_item.specs.Spelling.{spellings};
ghost use Rattle.kd_image.specs.Items.{contents, padded_length, item, maybe, creds_item, owned_item, moment_item, shared_item};
ghost use Rattle.kd_image.specs.Images.{front_length, image, image_length, laid};

use crate::attached::Attached;
use crate::message::{Message, SealedRange};
use kd_item::padding;
use kd_types::{Blob, Creds, Moment, Text};

/// The bytes of the eight words in front of each image.
pub(crate) const HEADER: usize = 64;

/// No image is as long: its length has 32 bits, as each length in a pool.
const LIMIT: usize = 1 << 32;

/// So many bytes with the zeros behind them.
pub(crate) fn padded_len(count: usize) -> usize
    requires { count < 2 ^ 63 + 128 }
    ensures { result ≡ padded_length count }
{
    count + padding(count)
}

/// The bytes of an item whose body is so many numbers and a text of so many bytes.
pub(crate) fn item_len(numbers: usize, text: usize) -> usize
    requires few { numbers ≤ 8 }
    requires short { text < 2 ^ 63 }
    ensures { result ≡ padded_length (16 + 8 * numbers + text) }
{
    padded_len(16 + 8 * numbers + text)
}

fn creds_len(creds: &Option<Creds>) -> usize
    ensures value { result ≡ length (spellings (maybe creds_item creds.now)) }
    ensures small { result ≤ 40 }
{
    match creds {
        Some(_) => item_len(3, 0),
        None => 0,
    }
}

fn moment_len(moment: &Option<Moment>) -> usize
    ensures value { result ≡ length (spellings (maybe moment_item moment.now)) }
    ensures small { result ≤ 24 }
{
    match moment {
        Some(_) => item_len(1, 0),
        None => 0,
    }
}

fn range_len(range: &Option<SealedRange>) -> usize
    ensures value { result ≡ length (spellings (maybe shared_item range.now)) }
    ensures small { result ≤ 32 }
{
    match range {
        Some(_) => item_len(2, 0),
        None => 0,
    }
}

/// The bytes of the text's item, if there is one, or LIMIT. They are as many for each kind, so 0
/// stands for it here.
fn text_len(text: &Option<Text>) -> usize
    ensures value { result ≡ min (length (spellings (maybe (item 0 []) text.now))) (2 ^ 32) }
    ensures small { result ≤ 2 ^ 32 }
{
    match text {
        Some(text) => item_len(0, text.bytes().len()).min(LIMIT),
        None => 0,
    }
}

/// The bytes of the items of these names, or LIMIT.
fn names_len(names: &[Text]) -> usize
    ensures value { result ≡ min (length (spellings (map owned_item names.now))) (2 ^ 32) }
    ensures small { result ≤ 2 ^ 32 }
{
    let mut total = 0;
    'names: for name in names {
        total = (total + item_len(0, name.bytes().len())).min(LIMIT);
    }
    total
}

/// The bytes of payloads with their zeros, or LIMIT.
fn payloads_len(payloads: &[Blob]) -> usize
    ensures value { result ≡ min (length (laid payloads.now)) (2 ^ 32) }
    ensures small { result ≤ 2 ^ 32 }
{
    let mut total = 0;
    'payloads: for payload in payloads {
        total = (total + padded_len(payload.bytes().len())).min(LIMIT);
    }
    total
}

/// The bytes of header and items, or LIMIT.
pub(crate) fn front_len(message: &Message, attached: &Attached) -> usize
    ensures value { result ≡ min (front_length (contents message.now attached.now)) (2 ^ 32) }
    ensures small { result ≤ 2 ^ 32 }
{
    let attached_len = creds_len(&attached.creds)
        + names_len(attached.names.texts())
        + text_len(&attached.description)
        + moment_len(&attached.moment);
    let body_len = item_len(2, 0) * message.payloads.blobs().len().min(LIMIT)
        + range_len(&message.sealed);
    (HEADER + attached_len + text_len(&message.dst_name) + body_len).min(LIMIT)
}

/// The bytes of the whole image, or LIMIT.
fn whole_len(message: &Message, attached: &Attached) -> usize
    ensures { result ≡ min (image_length message.now attached.now) (2 ^ 32) }
{
    (front_len(message, attached) + payloads_len(message.payloads.blobs())).min(LIMIT)
}

/// Whether the image has fewer than 2^32 bytes, so that its length is a pool's number.
pub fn is_short(message: &Message, attached: &Attached) -> bool
    ensures { IsTrue result ↔ (image_length message.now attached.now < 2 ^ 32) }
{
    whole_len(message, attached) < LIMIT
}

/// The bytes of the whole image: header, items, and payloads with their zeros. [`is_short`] tells
/// whether it may be asked.
pub fn image_len(message: &Message, attached: &Attached) -> u64
    requires { image_length message.now attached.now < 2 ^ 32 }
    ensures value { result ≡ image_length message.now attached.now }
    ensures whole { (source dst : ℕ) → result ≡ length (image message.now source dst attached.now) }
{
    whole_len(message, attached) as u64
}

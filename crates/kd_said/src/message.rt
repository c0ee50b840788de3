//! A message, as its items spell it.

ghost use Rattle.std.specs.Prelude.{◌≡◌, ◌++◌, IfOk, OnOk, nat_lt, option_map};
ghost use Rattle.kd_commands.specs.Items.{destination_name, filter_among, payloads, sealed_among};
ghost use Rattle.kd_commands.specs.Messages.{message_of};
ghost use Rattle.kd_image.specs.Images.{image_length, laid, padded};
ghost use Rattle.kd_image.specs.Said.{nothing_attached};
ghost use Rattle.kd_said.specs.Said.{filter_of};

use kd_commands::Sent;
use kd_image::{Attached, Message, SealedRange, image_len, is_short};
use kd_item::{padding, put_bytes, put_zeros};
use kd_types::{Blob, BlobList, Cookie, Text, TextList};
use kd_wire::WireItem;
use std::alloc::{AllocError, Global};

/// The most bytes of a message's image, metadata aside.
const LONGEST: u64 = 65_536;

/// The filter of a broadcast, if one is given: its generation and its bits.
pub fn filter(items: &[WireItem]) -> Option<(u64, &Blob)>
    ensures { option_map filter_of result ≡ filter_among items.now }
{
    'items: for item in items {
        if let WireItem::Filter { generation, bits } = item {
            return Some((*generation, bits));
        }
    }
    None
}

/// The name that a message is sent to, if one is given, and its payloads in order. They are moved
/// and not copied.
fn sort(alloc: Global, items: Vec<WireItem>) -> Result<(Option<Text>, Vec<Blob>), AllocError>
    ensures name { IfOk result (λ found. found.0 ≡ destination_name items.items) }
    ensures payloads { IfOk result (λ found. found.1.items ≡ payloads items.items) }
{
    let mut destination = None;
    let mut pieces = Vec::new(alloc);
    'items: for item in items {
        match item {
            WireItem::Payload(bytes) => pieces.push(bytes)?,
            WireItem::DstName(name) => {
                if destination.is_none() {
                    destination = Some(name);
                }
            }
            other => drop(other),
        }
    }
    Ok((destination, pieces))
}

/// The message of what was handed in, in which this range of a seal is named.
pub fn message_of(
    alloc: Global,
    sent: Sent,
    sealed: Option<SealedRange>,
) -> Result<Message, AllocError>
    requires { sealed ≡ option_map (λ n. n.range) (sealed_among sent.items) }
    ensures { IfOk result (λ g. g ≡ message_of sent) }
{
    let Sent {
        flags,
        priority,
        payload_type,
        cookie,
        last,
        items,
        ..
    } = sent;
    let (dst_name, payloads) = sort(alloc, items.into_vec())?;
    Ok(Message {
        flags,
        priority,
        payload_type,
        cookie: Cookie(cookie),
        last,
        dst_name,
        payloads: BlobList::of(payloads),
        sealed,
    })
}

/// Whether the message has more bytes than may be sent, metadata aside.
pub fn is_too_long(alloc: Global, message: &Message) -> bool
    ensures { result ≡ nat_lt 65536 (image_length message.now nothing_attached) }
{
    let nothing = Attached {
        creds: None,
        names: TextList::of(Vec::new(alloc)),
        description: None,
        moment: None,
    };
    if !is_short(message, &nothing) {
        return true;
    }
    LONGEST < image_len(message, &nothing)
}

/// Appends a payload, with zeros up to the next multiple of 8.
fn put_padded(out: &mut Vec<u8>, payload: &[u8]) -> Result<(), AllocError>
    ensures { OnOk result (out.new.items ≡ out.old.items ++ padded payload.now) }
{
    let zeros = padding(payload.len());
    out.reserve(payload.len() + zeros)?;
    put_bytes(out, payload);
    put_zeros(out, zeros);
    Ok(())
}

/// The payloads one after the other, each with its padding.
pub fn lay(alloc: Global, payloads: &[Blob]) -> Result<Vec<u8>, AllocError>
    ensures { IfOk result (λ v. v.items ≡ laid payloads.now) }
{
    let mut out = Vec::new(alloc);
    'payloads: for payload in payloads {
        put_padded(&mut out, payload.bytes())?;
    }
    Ok(out)
}

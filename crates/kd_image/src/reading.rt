//! Reading images.

ghost use Rattle.std.specs.Prelude.{◌≡◌, ◌+◌, ◌^◌, ◌<◌, Ok, length, IfOk, IfErr};
ghost use Rattle.kd_image.specs.Said.{BreaksSo, Gives, IsSound, Origin, origin_bytes, image_of_origin};
ghost use Rattle.kd_image.specs.Reading.{behind_header, blank, message_reading, message_value, notice_reading, reading};

use crate::attached::Attached;
use crate::contents::read_contents;
use crate::draft::Draft;
use crate::header::{Header, find_break, read_header};
use crate::image::Image;
use crate::notice::Notice;
use crate::payloads::read_payloads;
use crate::telling::find_notice;
use kd_types::{Blob, BlobList, ConnId, Cookie, ReplyError, TextList};
use std::alloc::Global;

/// What an image of a message says.
fn image_of(header: &Header, draft: Draft, payloads: Vec<Blob>) -> Image
    ensures { result ≡ message_value header.now draft payloads.items }
{
    Image {
        size: header.size,
        flags: header.flags,
        priority: header.priority.cast_signed(),
        dst: header.dst,
        source: ConnId(header.source),
        payload_type: header.payload_type,
        cookie: Cookie(header.cookie),
        last: header.last,
        attached: Attached {
            creds: draft.creds,
            names: TextList::of(draft.names),
            description: draft.description,
            moment: draft.moment,
        },
        dst_name: draft.name,
        payloads: BlobList::of(payloads),
        shared: draft.range,
        notice: None,
    }
}

/// A notice, of whose image these bytes are left behind its item and behind header and items.
#[tactic(auto, unfolding(crate::specs::Reading::notice_reading))]
fn finish_notice(
    alloc: Global,
    header: &Header,
    notice: Notice,
    rest: &[u8],
    behind: &[u8],
) -> Result<Image, ReplyError>
    requires { length rest.now < header.now.size }
    ensures { result ≡ notice_reading header.now notice rest.now behind.now }
{
    if !rest.is_empty() {
        return Err(ReplyError::Bad {
            at: header.size - rest.len() as u64,
        });
    }
    if !behind.is_empty() {
        return Err(ReplyError::Bad { at: header.size });
    }
    let mut image = image_of(header, Draft::blank(alloc), Vec::new(alloc));
    image.notice = Some(notice);
    Ok(image)
}

/// A message, with these bytes for its items and for its payloads.
#[tactic(auto, unfolding(crate::specs::Reading::message_reading))]
fn read_message(
    alloc: Global,
    header: &Header,
    area: &[u8],
    behind: &[u8],
) -> Result<Image, ReplyError>
    requires size { 64 + length area.now ≡ header.now.size }
    requires fits { header.now.size + length behind.now < 2 ^ 64 }
    ensures read { IfOk result (λ i. message_reading header.now area.now behind.now ≡ Ok i) }
    ensures refused { IfErr result
        (λ e. BreaksSo e (message_reading header.now area.now behind.now)) }
{
    let draft = read_contents(alloc, header.size, area)?;
    let payloads = read_payloads(alloc, &draft.lengths, header.size, behind)?;
    Ok(image_of(header, draft, payloads))
}

/// What the bytes behind a header say.
#[tactic(auto, unfolding(crate::specs::Reading::behind_header))]
fn read_behind(
    alloc: Global,
    header: &Header,
    area: &[u8],
    behind: &[u8],
) -> Result<Image, ReplyError>
    requires size { 64 + length area.now ≡ header.now.size }
    requires fits { header.now.size + length behind.now < 2 ^ 64 }
    ensures read { IfOk result (λ i. behind_header header.now area.now behind.now ≡ Ok i) }
    ensures refused { IfErr result
        (λ e. BreaksSo e (behind_header header.now area.now behind.now)) }
{
    match find_notice(alloc, header, area)? {
        Some((notice, rest)) => finish_notice(alloc, header, notice, rest, behind),
        None => read_message(alloc, header, area, behind),
    }
}

/// What the bytes say, or where they break the format.
#[tactic(auto, unfolding(crate::specs::Reading::reading))]
fn read_bytes(alloc: Global, bytes: &[u8]) -> Result<Image, ReplyError>
    ensures fits { length bytes.now < 2 ^ 64 }
    ensures read { IfOk result (λ i. reading bytes.now ≡ Ok i) }
    ensures refused { IfErr result (λ e. BreaksSo e (reading bytes.now)) }
{
    if let Some(at) = find_break(bytes) {
        return Err(ReplyError::Bad { at });
    }
    let header = read_header(bytes);
    let (front, behind) = bytes.split_at(header.size as usize);
    let (_, area) = front.split_at(64);
    read_behind(alloc, &header, area, behind)
}

/// What an image says. Bytes that are no image are refused with the place of the first word, item
/// or run of bytes that breaks the format, read from left to right: one that would run past the end
/// of the bytes or of its header breaks at its own start, what is left over at its start, and what
/// is missing where it would begin. An item out of order breaks at its start, and so does an owned
/// name that isn't above the one before it in byte order.
pub fn read_image(alloc: Global, bytes: &[u8]) -> Result<Image, ReplyError>
    // What is read was built from what it says.
    ensures found { IfOk result (λ i. (o : Origin) × IsSound o × (i ≡ image_of_origin o)
        × (bytes.now ≡ origin_bytes o)) }
    // What was built reads back as what it was built from.
    ensures built { (o : Origin) → IsSound o → bytes.now ≡ origin_bytes o
        → Gives result (image_of_origin o) }
    ensures read { IfOk result (λ i. reading bytes.now ≡ Ok i) }
    ensures refused { IfErr result (λ e. BreaksSo e (reading bytes.now)) }
{
    read_bytes(alloc, bytes)
}

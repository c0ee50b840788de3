//! Building images.

ghost use Rattle.std.specs.Prelude.{◌≡◌, ◌^◌, ◌<◌, ◌++◌, [], ◌∷◌, Ok, IfOk, OnOk, length, map};
ghost use Rattle.kd_item.specs.Spelling.{spellings};
ghost use Rattle.kd_image.specs.Items.{item, maybe, creds_item, owned_item, moment_item, off_items, shared_item, begins, with_range, contents, items};
ghost use Rattle.kd_image.specs.Images.{front, image_length, laid, message_header};
ghost use Rattle.kd_image.specs.Said.{IsSent, sent, image_of_origin};
ghost use Rattle.kd_image.specs.Reading.{reading};

use crate::attached::Attached;
use crate::kind::{CREDS, DESCRIPTION, DST_NAME, MOMENT, OFF, OWNED, SHARED};
use crate::length::{front_len, padded_len};
use crate::message::{Message, SealedRange};
use crate::writing::{put_item, put_words};
use kd_types::{Blob, ConnId, Creds, Moment, Text};
use std::alloc::{AllocError, Global};

fn put_creds(out: &mut Vec<u8>, creds: &Option<Creds>) -> Result<(), AllocError>
    ensures { OnOk result (out.new.items
        ≡ out.old.items ++ spellings (maybe creds_item creds.now)) }
{
    match creds {
        Some(creds) => put_item(
            out,
            CREDS,
            &[creds.uid as u64, creds.gid as u64, creds.privileged as u64],
            &[],
        ),
        None => Ok(()),
    }
}

fn put_moment(out: &mut Vec<u8>, moment: &Option<Moment>) -> Result<(), AllocError>
    ensures { OnOk result (out.new.items
        ≡ out.old.items ++ spellings (maybe moment_item moment.now)) }
{
    match moment {
        Some(moment) => put_item(out, MOMENT, &[moment.0], &[]),
        None => Ok(()),
    }
}

fn put_text(out: &mut Vec<u8>, kind: u64, text: &Option<Text>) -> Result<(), AllocError>
    ensures { OnOk result (out.new.items
        ≡ out.old.items ++ spellings (maybe (item kind []) text.now)) }
{
    match text {
        Some(text) => put_item(out, kind, &[], text.bytes()),
        None => Ok(()),
    }
}

fn put_names(out: &mut Vec<u8>, names: &[Text]) -> Result<(), AllocError>
    ensures { OnOk result (out.new.items ≡ out.old.items ++ spellings (map owned_item names.now)) }
{
    'names: for name in names {
        put_item(out, OWNED, &[], name.bytes())?;
    }
    Ok(())
}

/// An item for each payload, the first of which begins at this offset; where the bytes behind them
/// begin.
fn put_offsets(out: &mut Vec<u8>, begin: u64, payloads: &[Blob]) -> Result<u64, AllocError>
    requires { begins begin (map length payloads.now) < 2 ^ 63 }
    ensures ok { OnOk result (out.new.items
        ≡ out.old.items ++ spellings (off_items begin [] (map length payloads.now))) }
    ensures end { IfOk result (λ n. n ≡ begins begin (map length payloads.now)) }
{
    let mut at = begin;
    'payloads: for payload in payloads {
        let len = payload.bytes().len();
        put_item(out, OFF, &[len as u64, at], &[])?;
        at += padded_len(len) as u64;
    }
    Ok(at)
}

fn put_range(out: &mut Vec<u8>, range: &SealedRange) -> Result<(), AllocError>
    ensures { OnOk result (out.new.items
        ≡ out.old.items ++ spellings (shared_item range.now ∷ [])) }
{
    put_item(out, SHARED, &[range.start, range.length], &[])
}

/// The items of the payloads, and among them that of the range.
fn put_body(out: &mut Vec<u8>, begin: u64, message: &Message) -> Result<(), AllocError>
    requires { begins begin (map length message.now.payloads) < 2 ^ 63 }
    ensures { OnOk result (out.new.items
        ≡ out.old.items
        ++ spellings (with_range message.now.sealed
        (off_items begin [] (map length message.now.payloads)))) }
{
    let payloads = message.payloads.blobs();
    let Some(range) = &message.sealed else {
        put_offsets(out, begin, payloads)?;
        return Ok(());
    };
    let (before, behind) = payloads.split_at((range.place as usize).min(payloads.len()));
    let next = put_offsets(out, begin, before)?;
    put_range(out, range)?;
    put_offsets(out, next, behind)?;
    Ok(())
}

/// The eight words in front.
#[tactic(auto, unfolding(crate::specs::Images::header))]
fn put_header(
    out: &mut Vec<u8>,
    size: u64,
    message: &Message,
    sender: ConnId,
    dst: u64,
) -> Result<(), AllocError>
    ensures { OnOk result (out.new.items
        ≡ out.old.items ++ message_header size message.now sender dst) }
{
    put_words(
        out,
        &[
            size,
            message.flags.word(),
            message.priority.cast_unsigned(),
            dst,
            sender.0,
            message.payload_type,
            message.cookie.0,
            message.last,
        ],
    )
}

/// The items, of an image whose header and items have so many bytes.
fn put_items(
    out: &mut Vec<u8>,
    size: u64,
    message: &Message,
    attached: &Attached,
) -> Result<(), AllocError>
    requires { begins size (map length message.now.payloads) < 2 ^ 63 }
    ensures { OnOk result (out.new.items
        ≡ out.old.items ++ spellings (items size (contents message.now attached.now))) }
{
    put_creds(out, &attached.creds)?;
    put_names(out, attached.names.texts())?;
    put_text(out, DESCRIPTION, &attached.description)?;
    put_moment(out, &attached.moment)?;
    put_text(out, DST_NAME, &message.dst_name)?;
    put_body(out, size, message)?;
    Ok(())
}

/// Header and items of the message's image: the prefix that is published in front of its payloads.
/// The names that are attached are written in the order in which they are handed in. It takes
/// memory once, as much as the prefix has bytes.
#[tactic(auto, using(crate::proofs::Lengths::length_parts), unfolding(crate::specs::Images::front))]
pub fn build(
    alloc: Global,
    message: &Message,
    sender: ConnId,
    dst: u64,
    attached: &Attached,
) -> Result<Vec<u8>, AllocError>
    requires { image_length message.now attached.now < 2 ^ 32 }
    ensures front { IfOk result (λ v. v.items ≡ front message.now sender dst attached.now) }
    // Of what can be sent, with names that rise in byte order, the prefix and the payloads read
    // back as what they were built from.
    ensures again { IsSent message.now sender dst attached.now
        → IfOk result (λ v.
        reading (v.items ++ laid message.now.payloads)
        ≡ Ok (image_of_origin (sent message.now sender dst attached.now))) }
{
    let size = front_len(message, attached);
    let mut out = Vec::with_capacity(alloc, size)?;
    put_header(&mut out, size as u64, message, sender, dst)?;
    put_items(&mut out, size as u64, message, attached)?;
    Ok(out)
}

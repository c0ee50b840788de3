//! Images as parts of lines.

ghost use Rattle.std.specs.Prelude.{◌≡◌, ◌++◌, List, codes, OnOk};
ghost use Rattle.std.specs.List.{flat_map};
ghost use Rattle.kd_image.specs.Reading.{reading};
ghost use Rattle.kd_lines.specs.Marks.{word_text};
ghost use Rattle.kd_lines.specs.Images.{maybe, creds_text, attached_text, range_text, notice_text, header_text, front_text, payload_text, image_text, slice_text};

use crate::commands::{put_flags, put_sense, put_way};
use crate::marks::{put_change, put_field, put_flag, put_text, put_word_field, put_word_text};
use kd_image::{Attached, Image, Notice, SealedRange, read_image};
use kd_types::{Blob, Creds, ReplyError, Text};
use kd_wire::Opcode;
use std::alloc::{AllocError, Global};

/// A word, and bytes within quotes, where they are there.
fn put_maybe(out: &mut Vec<u8>, word: &str, text: &Option<Text>) -> Result<(), AllocError>
    ensures { OnOk result (out.new.items
        ≡ out.old.items ++ maybe (word_text word.now) text.now) }
{
    match text {
        Some(text) => put_word_text(out, word, text.bytes()),
        None => Ok(()),
    }
}

/// The sender's credentials.
fn put_creds(out: &mut Vec<u8>, creds: &Creds) -> Result<(), AllocError>
    ensures { OnOk result (out.new.items ≡ out.old.items ++ creds_text creds.now) }
{
    put_text(out, " CREDS")?;
    put_flag(out, "PRIVILEGED", creds.privileged)?;
    put_field(out, "uid", u64::from(creds.uid))?;
    put_field(out, "gid", u64::from(creds.gid))
}

/// The names that the sender owns.
fn put_owned(out: &mut Vec<u8>, names: &[Text]) -> Result<(), AllocError>
    ensures { OnOk result (out.new.items
        ≡ out.old.items ++ flat_map (word_text (codes " OWNED")) names.now) }
{
    'names: for name in names {
        put_word_text(out, " OWNED", name.bytes())?;
    }
    Ok(())
}

/// What the bus tells about the sender.
fn put_attached(out: &mut Vec<u8>, attached: &Attached) -> Result<(), AllocError>
    ensures { OnOk result (out.new.items ≡ out.old.items ++ attached_text attached.now) }
{
    if let Some(creds) = &attached.creds {
        put_creds(out, creds)?;
    }
    put_owned(out, attached.names.texts())?;
    put_maybe(out, " DESCRIPTION", &attached.description)?;
    match &attached.moment {
        Some(moment) => put_word_field(out, " MOMENT", "moment", moment.0),
        None => Ok(()),
    }
}

/// The payloads in order.
fn put_payloads(out: &mut Vec<u8>, payloads: &[Blob]) -> Result<(), AllocError>
    ensures { OnOk result (out.new.items
        ≡ out.old.items ++ flat_map (word_text (codes " PAYLOAD")) payloads.now) }
{
    'payloads: for payload in payloads {
        put_word_text(out, " PAYLOAD", payload.bytes())?;
    }
    Ok(())
}

/// The range of sealed bytes that goes with a message, if there is one.
fn put_range(out: &mut Vec<u8>, range: &Option<SealedRange>) -> Result<(), AllocError>
    ensures { OnOk result (out.new.items ≡ out.old.items ++ maybe range_text range.now) }
{
    match range {
        Some(range) => {
            put_text(out, " SHARED")?;
            put_field(out, "behind", u64::from(range.place))?;
            put_field(out, "start", range.start)?;
            put_field(out, "length", range.length)
        }
        None => Ok(()),
    }
}

/// What a notice tells.
fn put_notice(out: &mut Vec<u8>, notice: &Notice) -> Result<(), AllocError>
    ensures { OnOk result (out.new.items ≡ out.old.items ++ notice_text notice.now) }
{
    match notice {
        Notice::IdAdd { id } => put_word_field(out, " ID_ADD", "id", id.0),
        Notice::IdRemove { id } => put_word_field(out, " ID_REMOVE", "id", id.0),
        Notice::NameAdd { old, new, name } => put_change(
            out,
            " NAME_ADD",
            old.0,
            new.0,
            name.bytes(),
        ),
        Notice::NameRemove { old, new, name } => put_change(
            out,
            " NAME_REMOVE",
            old.0,
            new.0,
            name.bytes(),
        ),
        Notice::NameChange { old, new, name } => put_change(
            out,
            " NAME_CHANGE",
            old.0,
            new.0,
            name.bytes(),
        ),
        Notice::ReplyTimeout { cookie } => put_word_field(
            out,
            " REPLY_TIMEOUT",
            "cookie",
            cookie.0,
        ),
        Notice::ReplyDead { cookie } => put_word_field(out, " REPLY_DEAD", "cookie", cookie.0),
    }
}

/// A notice, if it is one.
fn put_maybe_notice(out: &mut Vec<u8>, notice: &Option<Notice>) -> Result<(), AllocError>
    ensures { OnOk result (out.new.items ≡ out.old.items ++ maybe notice_text notice.now) }
{
    match notice {
        Some(notice) => put_notice(out, notice),
        None => Ok(()),
    }
}

/// The numbers of an image's header.
fn put_header(out: &mut Vec<u8>, image: &Image) -> Result<(), AllocError>
    ensures { OnOk result (out.new.items ≡ out.old.items ++ header_text image.now) }
{
    put_flags(out, Opcode::Send, image.flags)?;
    put_way(out, image.dst, image.source.0, image.priority)?;
    put_sense(out, image.payload_type, image.cookie.0, image.last)
}

/// What stands before the payloads of a message.
#[tactic(auto, unfolding(crate::specs::Images::front_text))]
fn put_front(out: &mut Vec<u8>, image: &Image) -> Result<(), AllocError>
    ensures { OnOk result (out.new.items ≡ out.old.items ++ front_text image.now) }
{
    put_header(out, image)?;
    put_attached(out, &image.attached)?;
    put_maybe(out, " DST_NAME", &image.dst_name)
}

/// Its payloads, and the sealed bytes that it shares; or what a notice tells.
#[tactic(auto, unfolding(crate::specs::Images::payload_text))]
fn put_rest(out: &mut Vec<u8>, image: &Image) -> Result<(), AllocError>
    ensures { OnOk result (out.new.items ≡ out.old.items ++ payload_text image.now) }
{
    put_payloads(out, image.payloads.blobs())?;
    put_range(out, &image.shared)?;
    put_maybe_notice(out, &image.notice)
}

/// An image.
fn put_image(out: &mut Vec<u8>, image: &Image) -> Result<(), AllocError>
    ensures { OnOk result (out.new.items ≡ out.old.items ++ image_text image.now) }
{
    put_front(out, image)?;
    put_rest(out, image)
}

/// What was read of a slice: an image, or bytes that are none.
pub(crate) fn put_slice(out: &mut Vec<u8>, alloc: Global, bytes: &[u8]) -> Result<(), AllocError>
    ensures { OnOk result (out.new.items ≡ out.old.items ++ slice_text bytes.now) }
{
    match read_image(alloc, bytes) {
        Ok(image) => {
            put_text(out, " IMAGE")?;
            put_image(out, &image)
        }
        Err(ReplyError::Bad { .. }) => put_word_text(out, " BYTES", bytes),
        Err(ReplyError::OutOfMemory) => Err(AllocError),
    }
}

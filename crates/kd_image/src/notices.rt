//! Building notices.

ghost use Rattle.std.specs.Prelude.{◌≡◌, ◌+◌, ◌^◌, ◌<◌, ◌++◌, length, IfOk, OnOk};
ghost use Rattle.kd_item.specs.Spelling.{spelling};
ghost use Rattle.kd_image.specs.Images.{notice_destination, notice_image, notice_item, notice_last};

use crate::kind::{
    ID_ADD, ID_REMOVE, NAME_ADD, NAME_CHANGE, NAME_REMOVE, REPLY_DEAD, REPLY_TIMEOUT,
};
use crate::length::{HEADER, item_len};
use crate::notice::Notice;
use crate::writing::{put_item, put_words};
use kd_types::Text;
use std::alloc::{AllocError, Global};

/// The destination of what goes to all.
const ANY: u64 = u64::MAX;

/// The bytes of the notice's item.
fn notice_len(notice: &Notice) -> usize
    ensures value { result ≡ length (spelling (notice_item notice.now)) }
    ensures small { result < 2 ^ 63 + 128 }
{
    match notice {
        Notice::IdAdd { .. } => item_len(1, 0),
        Notice::IdRemove { .. } => item_len(1, 0),
        Notice::NameAdd { name, .. } => item_len(2, name.bytes().len()),
        Notice::NameRemove { name, .. } => item_len(2, name.bytes().len()),
        Notice::NameChange { name, .. } => item_len(2, name.bytes().len()),
        Notice::ReplyTimeout { .. } => item_len(0, 0),
        Notice::ReplyDead { .. } => item_len(0, 0),
    }
}

fn put_notice(out: &mut Vec<u8>, notice: &Notice) -> Result<(), AllocError>
    ensures { OnOk result (out.new.items ≡ out.old.items ++ spelling (notice_item notice.now)) }
{
    match notice {
        Notice::IdAdd { id } => put_item(out, ID_ADD, &[id.0], &[]),
        Notice::IdRemove { id } => put_item(out, ID_REMOVE, &[id.0], &[]),
        Notice::NameAdd { old, new, name } => put_item(
            out,
            NAME_ADD,
            &[old.0, new.0],
            name.bytes(),
        ),
        Notice::NameRemove { old, new, name } => put_item(
            out,
            NAME_REMOVE,
            &[old.0, new.0],
            name.bytes(),
        ),
        Notice::NameChange { old, new, name } => put_item(
            out,
            NAME_CHANGE,
            &[old.0, new.0],
            name.bytes(),
        ),
        Notice::ReplyTimeout { .. } => put_item(out, REPLY_TIMEOUT, &[], &[]),
        Notice::ReplyDead { .. } => put_item(out, REPLY_DEAD, &[], &[]),
    }
}

/// Whom a notice goes to: a notice of a reply to the one that asked, every other to all.
pub(crate) fn destination(notice: &Notice, dst: u64) -> u64
    ensures { result ≡ notice_destination notice.now dst }
{
    match notice {
        Notice::ReplyTimeout { .. } | Notice::ReplyDead { .. } => dst,
        _ => ANY,
    }
}

/// The last word of a notice's header: of a notice of a reply the request's cookie.
pub(crate) fn last_word(notice: &Notice) -> u64
    ensures { result ≡ notice_last notice.now }
{
    match notice {
        Notice::ReplyTimeout { cookie } | Notice::ReplyDead { cookie } => cookie.0,
        _ => 0,
    }
}

/// The image of a notice. `dst` is the id of the one that asked, for the two notices of a reply;
/// all others go to all, whatever it is. It takes memory once, as much as the image has bytes.
#[tactic(auto, unfolding(crate::specs::Images::notice_image))]
pub fn build_notice(alloc: Global, notice: &Notice, dst: u64) -> Result<Vec<u8>, AllocError>
    ensures { IfOk result (λ v. v.items ≡ notice_image notice.now dst) }
{
    let size = HEADER + notice_len(notice);
    let mut out = Vec::with_capacity(alloc, size)?;
    put_words(
        &mut out,
        &[
            size as u64,
            0,
            0,
            destination(notice, dst),
            0,
            0,
            0,
            last_word(notice),
        ],
    )?;
    put_notice(&mut out, notice)?;
    Ok(out)
}

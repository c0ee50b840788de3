//! Reading notices.

ghost use Rattle.std.specs.Prelude.{◌≡◌, ◌≤◌, length, option_map, IfOk, IfErr, IfSome};
ghost use Rattle.kd_item.specs.Reading.{item_entry};
ghost use Rattle.kd_image.specs.Reading.{id_in, is_header_of, notice_in, notice_of, owners_in};

use crate::draft::is_text;
use crate::header::Header;
use crate::kind::{
    ID_ADD, ID_REMOVE, NAME_ADD, NAME_CHANGE, NAME_REMOVE, REPLY_DEAD, REPLY_TIMEOUT,
};
use crate::notice::Notice;
use crate::notices::{destination, last_word};
use kd_item::{Item, first_item, word_at};
use kd_types::{ConnId, Cookie, ReplyError, Text};
use std::alloc::Global;

/// The id of an id notice.
fn read_id(body: &[u8]) -> Option<ConnId>
    ensures { result ≡ id_in body.now }
{
    if body.len() != 8 {
        return None;
    }
    Some(ConnId(word_at(body, 0)))
}

/// The old and the new owner of a name notice, and the name.
#[tactic(auto, unfolding(crate::specs::Reading::owners_in))]
fn read_owners(alloc: Global, body: &[u8]) -> Result<Option<(ConnId, ConnId, Text)>, ReplyError>
    ensures ok { IfOk result (λ o. o ≡ owners_in body.now) }
    ensures err { IfErr result (λ e. e ≡ ReplyError.OutOfMemory) }
{
    if body.len() < 16 {
        return Ok(None);
    }
    let name = body.split_at(16).1;
    if !is_text(name) {
        return Ok(None);
    }
    let name = Text::of(alloc, name)?;
    Ok(Some((ConnId(word_at(body, 0)), ConnId(word_at(body, 8)), name)))
}

/// The notice of an item, if it is one.
#[tactic(auto, unfolding(crate::specs::Reading::notice_of))]
fn read_notice(alloc: Global, last: u64, item: Item<'_>) -> Result<Option<Notice>, ReplyError>
    ensures ok { IfOk result (λ n. n ≡ notice_of last (item_entry item.entry)) }
    ensures err { IfErr result (λ e. e ≡ ReplyError.OutOfMemory) }
{
    let body = item.body;
    let cookie = Cookie(last);
    Ok(match item.kind {
        ID_ADD => read_id(body).map(|id| Notice::IdAdd { id }),
        ID_REMOVE => read_id(body).map(|id| Notice::IdRemove { id }),
        NAME_ADD => read_owners(alloc, body)?.map(|(old, new, name)| Notice::NameAdd {
            old,
            new,
            name,
        }),
        NAME_REMOVE => read_owners(alloc, body)?.map(|(old, new, name)| Notice::NameRemove {
            old,
            new,
            name,
        }),
        NAME_CHANGE => read_owners(alloc, body)?.map(|(old, new, name)| Notice::NameChange {
            old,
            new,
            name,
        }),
        REPLY_TIMEOUT if body.is_empty() => Some(Notice::ReplyTimeout { cookie }),
        REPLY_DEAD if body.is_empty() => Some(Notice::ReplyDead { cookie }),
        _ => None,
    })
}

/// Whether the header is that of this notice.
fn is_notices(header: &Header, notice: &Notice) -> bool
    ensures { result ≡ is_header_of header.now notice.now }
{
    header.flags == 0
        && (header.priority == 0
            && (header.source == 0
                && (header.payload_type == 0
                    && (header.cookie == 0
                        && (header.dst == destination(notice, header.dst)
                            && header.last == last_word(notice))))))
}

/// The notice behind a header, and the bytes behind its item; None where no notice stands there.
#[tactic(auto, unfolding(crate::specs::Reading::notice_in))]
pub(crate) fn find_notice<'a>(
    alloc: Global,
    header: &Header,
    area: &'a [u8],
) -> Result<Option<(Notice, &'a [u8])>, ReplyError>
    ensures ok { IfOk result
        (λ o. option_map (λ f. (f.0, f.1.now)) o ≡ notice_in header.now area.now) }
    ensures inside { IfOk result (λ o. IfSome o (λ f. length f.1.now ≤ length area.now)) }
    ensures err { IfErr result (λ e. e ≡ ReplyError.OutOfMemory) }
{
    let Some((item, taken)) = first_item(area, 64) else {
        return Ok(None);
    };
    let Some(notice) = read_notice(alloc, header.last, item)? else {
        return Ok(None);
    };
    if !is_notices(header, &notice) {
        return Ok(None);
    }
    Ok(Some((notice, area.split_at(taken).1)))
}

//! Notices: whom each is told to.

ghost use Rattle.std.specs.Prelude.{◌≡◌, ◌==◌, ◌&&◌, ◌++◌, [], IfOk, OnOk};
ghost use Rattle.std.specs.List.{AllByRecursion};
ghost use Rattle.kd_image.specs.Images.{notice_image};
ghost use Rattle.kd_commands.specs.Audience.{asks_for, is_asker, is_shown, is_told, new_owner, owner_notice, sees_ids, change_told};
ghost use Rattle.kd_tables.specs.Drafts.{IsVisitable, StandByOffers, parts_with};
ghost use Rattle.kd_replies.specs.Requests.{is_among};
ghost use Rattle.kd_messages.specs.News.{still_told, news_subject, telling_of, without_leavers};
ghost use Rattle.kd_commands.specs.Plans.{posts};

use kd_bloom::Bits;
use kd_commands::Conn;
use kd_image::{Notice, build_notice};
use kd_match::Subject;
use kd_tables::{Desk, Part};
use kd_types::{Blob, ConnId, Cookie, Kind, OwnerChange, Text};
use std::alloc::{AllocError, Global};

/// What the bus tells by itself.
#[derive(Clone, Copy, Debug)]
pub enum News<'a> {
    /// A connection came.
    Came(ConnId),
    /// A connection left.
    Left(ConnId),
    /// A name has another owner.
    Owner(&'a OwnerChange),
    /// Who was to reply to the request is gone.
    Dead { asker: ConnId, cookie: Cookie },
    /// Nobody replied to the request in time.
    Late { asker: ConnId, cookie: Cookie },
}

/// The notice of a name's new owner.
fn notice_of(alloc: Global, change: &OwnerChange) -> Result<Notice, AllocError>
    ensures { IfOk result (λ n. n ≡ owner_notice change.now) }
{
    let name = Text::of(alloc, change.name.bytes())?;
    let (old, new) = (change.old, change.new);
    Ok(if old.0 == 0 {
        Notice::NameAdd { old, new, name }
    } else if new.0 == 0 {
        Notice::NameRemove { old, new, name }
    } else {
        Notice::NameChange { old, new, name }
    })
}

/// The image of a notice.
fn image_of(alloc: Global, news: &News) -> Result<Vec<u8>, AllocError>
    ensures { IfOk result
        (λ v. v.items ≡ notice_image (telling_of news.now).notice (telling_of news.now).dst) }
{
    match news {
        News::Came(id) => build_notice(alloc, &Notice::IdAdd { id: *id }, 0),
        News::Left(id) => build_notice(alloc, &Notice::IdRemove { id: *id }, 0),
        News::Owner(change) => build_notice(alloc, &notice_of(alloc, change)?, 0),
        News::Dead { asker, cookie } => {
            build_notice(alloc, &Notice::ReplyDead { cookie: *cookie }, asker.0)
        }
        News::Late { asker, cookie } => {
            build_notice(alloc, &Notice::ReplyTimeout { cookie: *cookie }, asker.0)
        }
    }
}

/// Whether the notice of an id is for the connection, if it asks for it.
fn sees_ids(conn: &Conn, id: ConnId) -> bool
    ensures { result ≡ sees_ids conn.now id }
{
    conn.endpoint == 0 && !(conn.id == id)
}

/// Whether the connection asked what the notice is about.
fn is_asker(conn: &Conn, news: &News) -> bool
    ensures { result ≡ is_asker (news_subject news.now) conn.now }
{
    match news {
        News::Dead { asker, .. } | News::Late { asker, .. } => conn.id == *asker,
        News::Came(_) | News::Left(_) | News::Owner(_) => false,
    }
}

/// Whether the connection is one of those that leave.
fn is_leaver(conn: &Conn, leavers: &[ConnId]) -> bool
    ensures { result ≡ is_among leavers.now conn.now.id }
{
    leavers.iter().any(|id| *id == conn.id)
}

/// Whether a rule of the connection admits the notice of a name's new owner. What a subject of
/// a rule may borrow is named, though a notice borrows none of it: the borrow checker asks for
/// it.
fn asks_for(desk: &Desk, conn: &Conn, change: &OwnerChange) -> bool
    ensures { result ≡ asks_for desk.now conn.now (change_told change.now) }
{
    let _filter: Option<&Bits> = None;
    let subject = if change.old.0 == 0 {
        Subject::NameAdd { change }
    } else if change.new.0 == 0 {
        Subject::NameRemove { change }
    } else {
        Subject::NameChange { change }
    };
    desk.matches.admits(conn.id, &subject)
}

/// Whether an ordinary connection is shown the notice.
#[tactic(auto, unfolding(kd_commands::specs::Audience::is_shown))]
fn is_shown(desk: &Desk, conn: &Conn, news: &News) -> bool
    ensures { result ≡ is_shown desk.now (news_subject news.now) conn.now }
{
    let _filter: Option<&Bits> = None;
    match news {
        News::Came(id) => {
            sees_ids(conn, *id) && desk.matches.admits(conn.id, &Subject::IdAdd { id: *id })
        }
        News::Left(id) => {
            sees_ids(conn, *id) && desk.matches.admits(conn.id, &Subject::IdRemove { id: *id })
        }
        News::Owner(change) => desk.may_see_name(conn, &change.name)
            && asks_for(desk, conn, change),
        News::Dead { .. } | News::Late { .. } => false,
    }
}

/// Whether the connection is told: a monitor is, whoever asked what it is about, and an
/// ordinary connection that is shown it.
fn is_told(desk: &Desk, conn: &Conn, news: &News) -> bool
    ensures { result ≡ is_told desk.now (news_subject news.now) conn.now }
{
    match conn.kind {
        Kind::Monitor => true,
        Kind::Ordinary => is_asker(conn, news) || is_shown(desk, conn, news),
        Kind::Activator | Kind::Holder => is_asker(conn, news),
    }
}

/// Whether the connection stays, and is told.
fn is_still_told(desk: &Desk, conn: &Conn, news: &News, leavers: &[ConnId]) -> bool
    ensures { result ≡ still_told leavers.now desk.now (news_subject news.now) conn.now }
{
    !is_leaver(conn, leavers) && is_told(desk, conn, news)
}

/// The posts of a notice by the desk without those that leave, by rising seat.
#[tactic(auto, using(crate::proofs::Telling::posts_without))]
fn posts(
    desk: &Desk,
    alloc: Global,
    news: &News,
    leavers: &[ConnId],
) -> Result<Vec<Part>, AllocError>
    ensures { IfOk result (λ parts.
        parts_with [] parts.items
        ≡ posts (without_leavers leavers.now desk.now) (news_subject news.now)) }
{
    let image = image_of(alloc, news)?;
    let mut parts = Vec::new(alloc);
    'receivers: for conn in &desk.conns {
        if is_still_told(desk, conn, news, leavers) {
            let image = Blob::of(image.to_vec(alloc)?);
            parts.push(Part::Post {
                seat: conn.seat,
                image,
            })?;
        }
    }
    Ok(parts)
}

/// The posts of the notice of a name's new owner, by rising seat.
pub fn owner_posts(
    desk: &Desk,
    alloc: Global,
    change: &OwnerChange,
) -> Result<Vec<Part>, AllocError>
    ensures posts { IfOk result (λ parts.
        parts_with [] parts.items
        ≡ posts desk.now (new_owner change.now)) }
    ensures visitable { IfOk result (λ parts. AllByRecursion IsVisitable parts.items) }
    ensures contents { IfOk result (λ parts. StandByOffers [] parts.items) }
{
    let _ = &desk.conns;
    let parts = posts(desk, alloc, &News::Owner(change), &[])?;
    Ok(parts)
}

/// Puts the posts of a notice behind other parts.
pub fn tell(
    desk: &Desk,
    alloc: Global,
    parts: &mut Vec<Part>,
    news: &News,
    leavers: &[ConnId],
) -> Result<(), AllocError>
    ensures { OnOk result (parts_with [] parts.new.items
        ≡ parts_with [] parts.old.items
        ++ posts (without_leavers leavers.now desk.now) (news_subject news.now)) }
{
    let mut posts = posts(desk, alloc, news, leavers)?;
    parts.append(&mut posts)
}

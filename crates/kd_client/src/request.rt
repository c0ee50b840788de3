//! Requests, and what an image is to those that wait.

ghost use Rattle.std.specs.Prelude.{◌≡◌, ◌<◌, Some, IsSome, option_and_then, vec_capacity, vec_len};
ghost use Rattle.kd_model.specs.Words.{but_those, some_of};
ghost use Rattle.kd_client.specs.Requests.{answer, answers, failure, has_cookie, meaning, name_told, outstanding_with, request_to, unsettled};

use crate::next::Next;
use kd_image::{Image, Notice};
use kd_types::{ConnId, Cookie, Refusal, SendFlags, Text};

/// The destination of what goes to all.
const ANY: u64 = u64::MAX;

/// A request that was placed, and was neither answered nor failed yet.
#[derive(Clone, Copy, Debug, PartialEq, Eq)]
pub struct Request {
    /// Its number among those that the client asked for, from 1.
    pub cookie: Cookie,
    /// The connection that was asked.
    pub dst: ConnId,
}

/// Whether a message answers a request: it names the request's cookie, comes from whom was asked,
/// is no request itself, and isn't sent to all.
fn answers(image: &Image, request: &Request) -> bool
    ensures { result ≡ answers image.now request.now }
{
    request.cookie.0 == image.last
        && image.source == request.dst
        && !SendFlags(image.flags).expects_reply()
        && image.dst != ANY
}

/// Whether a message answers one of the requests.
fn is_answered(requests: &[Request], image: &Image) -> bool
    ensures { result ≡ some_of (answers image.now) requests.now }
{
    requests.iter().any(|request| answers(image, request))
}

/// Whether a request of this cookie waits.
fn is_outstanding(requests: &[Request], cookie: Cookie) -> bool
    ensures { result ≡ some_of (has_cookie cookie) requests.now }
{
    requests.iter().any(|request| request.cookie == cookie)
}

/// What an image is to a client that waits for answers to these requests.
#[tactic(auto, unfolding(crate::specs::Requests::meaning))]
pub(crate) fn meaning(requests: &[Request], image: Image) -> Next
    ensures { result ≡ meaning requests.now image }
{
    match &image.notice {
        None => answer(requests, image),
        Some(Notice::ReplyTimeout { cookie }) => {
            let cookie = *cookie;
            failure(requests, cookie, false, image)
        }
        Some(Notice::ReplyDead { cookie }) => {
            let cookie = *cookie;
            failure(requests, cookie, true, image)
        }
        Some(Notice::IdAdd { .. } | Notice::IdRemove { .. }) => Next::Message(image),
        Some(
            Notice::NameAdd { old, new, .. }
            | Notice::NameRemove { old, new, .. }
            | Notice::NameChange { old, new, .. },
        ) => {
            let (old, new) = (*old, *new);
            let name = name_in(image.notice);
            Next::Changed { old, new, name }
        }
    }
}

/// The name in the notice of a name.
fn name_in(notice: Option<Notice>) -> Text
    requires { IsSome (option_and_then name_told notice) }
    ensures { Some result ≡ option_and_then name_told notice }
{
    match notice {
        Some(
            Notice::NameAdd { name, .. }
            | Notice::NameRemove { name, .. }
            | Notice::NameChange { name, .. },
        ) => name,
        _ => unreachable!(),
    }
}

/// What a message is to a client that waits for answers to these requests.
fn answer(requests: &[Request], image: Image) -> Next
    ensures { result ≡ answer requests.now image }
{
    if is_answered(requests, &image) {
        Next::Answer {
            cookie: Cookie(image.last),
            image,
        }
    } else {
        Next::Message(image)
    }
}

/// What a notice of a reply that doesn't come is to a client that waits for answers to these
/// requests.
fn failure(requests: &[Request], cookie: Cookie, dead: bool, image: Image) -> Next
    ensures { result ≡ failure requests.now cookie dead image }
{
    if is_outstanding(requests, cookie) {
        Next::Failed { cookie, dead }
    } else {
        Next::Message(image)
    }
}

/// A request that was settled goes.
pub(crate) fn settle(requests: &mut Vec<Request>, next: &Next)
    ensures left { requests.new.items ≡ unsettled next.now requests.old.items }
{
    match next {
        Next::Answer { cookie, .. } | Next::Failed { cookie, .. } => remove(requests, *cookie),
        _ => {}
    }
}

/// The request of this cookie goes.
fn remove(requests: &mut Vec<Request>, cookie: Cookie)
    ensures left { requests.new.items ≡ but_those (has_cookie cookie) requests.old.items }
{
    requests.retain(|request| request.cookie != cookie);
}

/// A request that was placed waits behind the others.
pub(crate) fn record(
    requests: &mut Vec<Request>,
    cookie: Cookie,
    dst: ConnId,
    answer: &Result<Cookie, Refusal>,
)
    requires room { vec_len requests.old < vec_capacity requests.old }
    ensures with { requests.new.items
        ≡ outstanding_with (request_to cookie dst) answer.now requests.old.items }
{
    if answer.is_ok() {
        requests.push(Request { cookie, dst }).unwrap();
    }
}

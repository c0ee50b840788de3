//! Planning a message: to one receiver, or to all that may and want to have it.

ghost use Rattle.std.specs.Prelude.{◌≡◌, false, true, IfOk};
ghost use Rattle.kd_replies.specs.Requests.{request_waits};
ghost use Rattle.kd_model.specs.Words.{some_of};
ghost use Rattle.kd_tables.specs.Drafts.{PlanResult};
ghost use Rattle.kd_commands.specs.Send.{fits_filters, has_bad_cookie, is_misuse, send};
ghost use Rattle.kd_commands.specs.Messages.{is_broadcast, message_of, share_in};
ghost use Rattle.kd_messages.specs.Sending.{Judges, refusals_of_bytes, refusals_of_form};

use crate::broadcasting::broadcast_offers;
use crate::offers::unicast_offers;
use crate::routing::{change_of, is_reply, receiver, route};
use crate::sharing::{Parcel, share_of};
use kd_bloom::Bits;
use kd_commands::{Conn, Sent, WhoKind};
use kd_said::{destination, filter, is_too_long, message_of, named_seal, range_in};
use kd_tables::{Change, Desk, Plan};
use kd_types::{Cookie, Refusal};
use std::alloc::Global;

/// The destination of a broadcast.
pub(crate) const ANY: u64 = u64::MAX;

/// Whether a broadcast wants a reply or names a receiver, or a message to one receiver is a signal.
fn is_misuse(sent: &Sent) -> bool
    ensures { result ≡ is_misuse sent.now }
{
    if sent.dst == ANY {
        sent.flags.expects_reply() || destination(sent.items.items()).is_some()
    } else {
        sent.flags.signal()
    }
}

/// Whether the sender waits for the reply to this cookie.
fn waits(desk: &Desk, sender: &Conn, cookie: u64) -> bool
    ensures { result ≡ some_of (request_waits sender.now.id cookie) desk.now.requests }
{
    match desk.replies.may_expect(sender.id, Cookie(cookie)) {
        Err(Refusal::BadCookie) => true,
        _ => false,
    }
}

/// Whether a reply is expected under the cookie 0 or up to the deadline 0, or under a cookie
/// for which the sender waits.
fn has_bad_cookie(desk: &Desk, sender: &Conn, sent: &Sent) -> bool
    ensures { result ≡ has_bad_cookie desk.now sender.now sent.now }
{
    sent.flags.expects_reply()
        && (sent.cookie == 0 || sent.last == 0 || waits(desk, sender, sent.cookie))
}

/// Whether the message has a filter of the bus's size.
fn fits_filters(desk: &Desk, sent: &Sent) -> bool
    ensures { result ≡ fits_filters desk.now sent.now }
{
    match filter(sent.items.items()) {
        Some((_, bits)) => bits.bytes().len() == desk.param.size as usize,
        None => false,
    }
}

/// Whether the message may be sent as it is, its bytes and whom it is for aside.
fn judge_form(desk: &Desk, sender: &Conn, sent: &Sent) -> Result<(), Refusal>
    ensures { Judges (refusals_of_form desk.now sender.now sent.now) result }
{
    if has_bad_cookie(desk, sender, sent) {
        return Err(Refusal::BadCookie);
    }
    if is_misuse(sent) {
        return Err(Refusal::BroadcastMisuse);
    }
    if sent.dst == ANY && !fits_filters(desk, sent) {
        return Err(Refusal::BloomSize);
    }
    Ok(())
}

/// The message of what was handed in, with the sealed bytes that it takes along; `TooLong` or
/// `NoSuchSeal`.
fn parcel_of(desk: &Desk, alloc: Global, sender: &Conn, sent: Sent) -> Result<Parcel, Refusal>
    ensures judged { Judges (refusals_of_bytes desk.now sender.now sent) result }
    ensures message { IfOk result (λ p. p.message ≡ message_of sent) }
    ensures share { IfOk result (λ p. p.share ≡ share_in desk.now sender.now sent) }
{
    let named = named_seal(sent.items.items())?;
    // Looked up before the items are moved, and told after the length.
    let share = share_of(desk, sender, named);
    let message = message_of(alloc, sent, range_in(named))?;
    if is_too_long(alloc, &message) {
        return Err(Refusal::TooLong);
    }
    Ok(Parcel {
        message,
        share: share?,
    })
}

/// What a message to one receiver comes to: an offer at the receiver, which has to take it, and
/// one at each monitor, which may let it go by. It leaves a request behind where it expects a
/// reply, and a reply takes the request away that it answers.
fn plan_unicast(desk: &Desk, alloc: Global, sender: &Conn, sent: Sent) -> Result<Plan, Refusal>
    requires { is_broadcast sent ≡ false }
    ensures { PlanResult desk.now (send desk.now sender.now sent) result }
{
    judge_form(desk, sender, &sent)?;
    let found = receiver(desk, &sent);
    let is_reply = is_reply(desk, sender, &sent);
    let change = change_of(desk, sender, &sent, found, is_reply);
    // Judged before its items are moved, and told after its bytes.
    let route = route(desk, alloc, sender, &sent, found, is_reply);
    let parcel = parcel_of(desk, alloc, sender, sent)?;
    let offers = unicast_offers(desk, alloc, sender, parcel, route?)?;
    let after = WhoKind::Conn {
        id: sender.id,
        seat: sender.seat,
    };
    Ok(offers.into_plan(change, after))
}

/// What a broadcast comes to: an offer at each receiver that may and wants to have it, and at
/// each monitor. None of them has to take it.
fn plan_broadcast(desk: &Desk, alloc: Global, sender: &Conn, sent: Sent) -> Result<Plan, Refusal>
    requires { is_broadcast sent ≡ true }
    ensures { PlanResult desk.now (send desk.now sender.now sent) result }
{
    judge_form(desk, sender, &sent)?;
    let Some((generation, bits)) = filter(sent.items.items()) else {
        return Err(Refusal::BloomSize);
    };
    let filter = Bits::of(alloc, bits.bytes())?;
    let parcel = parcel_of(desk, alloc, sender, sent)?;
    let offers = broadcast_offers(desk, alloc, sender, parcel, &filter, generation)?;
    let after = WhoKind::Conn {
        id: sender.id,
        seat: sender.seat,
    };
    Ok(offers.into_plan(Change::Nothing, after))
}

/// What a message comes to, for one receiver or for all.
pub fn plan_send(desk: &Desk, alloc: Global, sender: &Conn, sent: Sent) -> Result<Plan, Refusal>
    ensures { PlanResult desk.now (send desk.now sender.now sent) result }
{
    if sent.dst == ANY {
        plan_broadcast(desk, alloc, sender, sent)
    } else {
        plan_unicast(desk, alloc, sender, sent)
    }
}

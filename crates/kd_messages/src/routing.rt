//! Where a message to one receiver goes.

ghost use Rattle.std.specs.Prelude.{◌≡◌, ◌<◌, false, IfOk, IfSome, OnOk, Some, option_map};
ghost use Rattle.kd_commands.specs.Send.{asker_of, has_bad_cookie, is_reply, live_ordinary, receiver, refusals_by_id, refusals_by_name, refusals_of_unicast};
ghost use Rattle.kd_commands.specs.Messages.{is_broadcast};
ghost use Rattle.kd_messages.specs.Sending.{Judges, MayAsk, change_of, reaches_activator, refusals_of_request, refusals_of_talk, refusals_of_target, request_of};

use kd_commands::{Conn, Sent};
use kd_name::is_name;
use kd_replies::Request;
use kd_said::destination;
use kd_tables::{Change, Desk};
use kd_types::{ConnId, Cookie, Kind, Moment, Refusal, Text};
use std::alloc::Global;

/// Whether it is an activator.
fn is_placeholder(found: Option<&Conn>) -> bool
    ensures { result ≡ reaches_activator (option_map (λ c. c.now) found.entry) }
{
    match found {
        Some(conn) => matches!(conn.kind, Kind::Activator),
        None => false,
    }
}

/// The request that a message leaves behind for whom it reaches, if anybody.
fn request_of(sender: &Conn, sent: &Sent, found: Option<&Conn>) -> Change
    ensures { result
        ≡ request_of sender.now sent.now (option_map (λ c. c.now) found.entry) }
{
    match found {
        Some(receiver) => Change::Expects(Request {
            asker: sender.id,
            replier: receiver.id,
            cookie: Cookie(sent.cookie),
            deadline: Moment(sent.last),
        }),
        None => Change::Nothing,
    }
}

/// The live ordinary connection of this id.
fn live_ordinary(desk: &Desk, id: ConnId) -> Option<&Conn>
    ensures conn { option_map (λ c. c.now) result ≡ live_ordinary desk.now id }
    ensures seat { IfSome result (λ c. c.now.seat < 64) }
{
    desk.conns.iter().find(|conn| conn.id == id && matches!(conn.kind, Kind::Ordinary))
}

/// Whom the message would answer: the owner of the name, if one is given, and else the id.
fn asker(desk: &Desk, sent: &Sent) -> ConnId
    ensures { result ≡ asker_of desk.now sent.now }
{
    match destination(sent.items.items()) {
        Some(name) => desk.owner_id(name),
        None => ConnId(sent.dst),
    }
}

/// Whether the message is the reply to a request that waits for the sender's.
#[tactic(auto, unfolding(kd_commands::specs::Send::is_reply))]
pub(crate) fn is_reply(desk: &Desk, sender: &Conn, sent: &Sent) -> bool
    requires { is_broadcast sent.now ≡ false }
    ensures { result ≡ is_reply desk.now sender.now sent.now }
{
    if sent.flags.expects_reply() {
        return false;
    }
    if sent.last == 0 {
        return false;
    }
    desk.replies
        .has(asker(desk, sent), sender.id, Cookie(sent.last))
}

/// The change that a message is to the desk: it leaves a request behind for whom it reaches, or
/// as a reply it answers one.
pub(crate) fn change_of(
    desk: &Desk,
    sender: &Conn,
    sent: &Sent,
    found: Option<&Conn>,
    is_reply: bool,
) -> Change
    ensures { result
        ≡ change_of desk.now sender.now sent.now (option_map (λ c. c.now) found.entry) is_reply }
{
    if sent.flags.expects_reply() {
        request_of(sender, sent, found)
    } else if is_reply {
        Change::Answers {
            asker: asker(desk, sent),
            cookie: Cookie(sent.last),
        }
    } else {
        Change::Nothing
    }
}

/// Whom the message reaches, if anybody.
pub(crate) fn receiver<'a>(desk: &'a Desk, sent: &Sent) -> Option<&'a Conn>
    ensures conn { option_map (λ c. c.now) result ≡ receiver desk.now sent.now }
    ensures seat { IfSome result (λ c. c.now.seat < 64) }
{
    match destination(sent.items.items()) {
        Some(name) => desk.conn_of(desk.owner_id(name)),
        None => live_ordinary(desk, ConnId(sent.dst)),
    }
}

/// Whether the sender may send to the id: a connection has it, which the sender may see, or
/// whose request it answers.
fn judge_id(
    desk: &Desk,
    alloc: Global,
    sender: &Conn,
    sent: &Sent,
    found: Option<&Conn>,
    expected: bool,
) -> Result<(), Refusal>
    requires found { option_map (λ c. c.now) found ≡ receiver desk.now sent.now }
    requires expected { expected ≡ is_reply desk.now sender.now sent.now }
    ensures { Judges (refusals_by_id desk.now sender.now sent.now) result }
{
    if found.is_none() {
        return Err(Refusal::NoSuchConnection);
    }
    let sees = desk.may_see(alloc, sender, ConnId(sent.dst))?;
    if !sees && !expected {
        return Err(Refusal::NoSuchConnection);
    }
    Ok(())
}

/// Whether the sender may send to the owner of the name: it has one, which the sender may see,
/// or whose request it answers; it is the one that the id says too, if one is given; and it may
/// be started.
fn judge_name(
    desk: &Desk,
    sender: &Conn,
    sent: &Sent,
    name: &Text,
    found: Option<&Conn>,
    expected: bool,
) -> Result<(), Refusal>
    requires found { option_map (λ c. c.now) found ≡ receiver desk.now sent.now }
    requires expected { expected ≡ is_reply desk.now sender.now sent.now }
    ensures { Judges (refusals_by_name desk.now sender.now sent.now name.now) result }
{
    if !is_name(name.bytes()) {
        return Err(Refusal::BadName);
    }
    let Some((owner, _)) = desk.registry.owner(name.bytes()) else {
        return Err(Refusal::NoSuchName);
    };
    if !desk.may_see_name(sender, name) && !expected {
        return Err(Refusal::NoSuchName);
    }
    if sent.dst != 0 && sent.dst != owner.0 {
        return Err(Refusal::NameMoved { owner });
    }
    if sent.flags.no_auto_start() && is_placeholder(found) {
        return Err(Refusal::NotStarted);
    }
    Ok(())
}

/// Whether a connection may send to another one: if it may talk to it, or answers its request.
fn judge_talk(
    desk: &Desk,
    alloc: Global,
    sender: &Conn,
    receiver: &Conn,
    expected: bool,
) -> Result<(), Refusal>
    ensures { Judges (refusals_of_talk desk.now sender.now receiver.now expected) result }
{
    let talks = desk.may_talk(alloc, sender, receiver)?;
    if !talks && !expected {
        return Err(Refusal::NotPermitted);
    }
    Ok(())
}

/// Whether the sender may send to the name or the id that the message says.
fn judge_target(
    desk: &Desk,
    alloc: Global,
    sender: &Conn,
    sent: &Sent,
    found: Option<&Conn>,
    expected: bool,
) -> Result<(), Refusal>
    requires found { option_map (λ c. c.now) found ≡ receiver desk.now sent.now }
    requires expected { expected ≡ is_reply desk.now sender.now sent.now }
    ensures { Judges (refusals_of_target desk.now sender.now sent.now) result }
{
    match destination(sent.items.items()) {
        Some(name) => judge_name(desk, sender, sent, name, found, expected),
        None => judge_id(desk, alloc, sender, sent, found, expected),
    }
}

/// Whether one request more of the sender may wait, where the message expects a reply.
fn judge_request(desk: &Desk, sender: &Conn, sent: &Sent) -> Result<(), Refusal>
    requires fresh { has_bad_cookie desk.now sender.now sent.now ≡ false }
    ensures judged { Judges (refusals_of_request desk.now sender.now sent.now) result }
    ensures room { OnOk result (MayAsk desk.now sender.now sent.now) }
{
    if !sent.flags.expects_reply() {
        return Ok(());
    }
    desk.replies.may_expect(sender.id, Cookie(sent.cookie))?;
    // There is room for what all connections may have.
    if desk.replies.is_full() {
        return Err(Refusal::OutOfMemory);
    }
    Ok(())
}

/// Whom the message reaches, or why it is refused by where it goes.
pub(crate) fn route<'a>(
    desk: &Desk,
    alloc: Global,
    sender: &Conn,
    sent: &Sent,
    found: Option<&'a Conn>,
    expected: bool,
) -> Result<&'a Conn, Refusal>
    requires fresh { has_bad_cookie desk.now sender.now sent.now ≡ false }
    requires found { option_map (λ c. c.now) found ≡ receiver desk.now sent.now }
    requires seat { IfSome found (λ r. r.now.seat < 64) }
    requires expected { expected ≡ is_reply desk.now sender.now sent.now }
    ensures judged { Judges (refusals_of_unicast desk.now sender.now sent.now) result }
    ensures reached { IfOk result (λ r. receiver desk.now sent.now ≡ Some r.now) }
    ensures seat { IfOk result (λ r. r.now.seat < 64) }
    ensures room { OnOk result (MayAsk desk.now sender.now sent.now) }
{
    judge_target(desk, alloc, sender, sent, found, expected)?;
    // Whoever owns a name is connected.
    let Some(receiver) = found else {
        return Err(Refusal::OutOfMemory);
    };
    judge_talk(desk, alloc, sender, receiver, expected)?;
    judge_request(desk, sender, sent)?;
    Ok(receiver)
}

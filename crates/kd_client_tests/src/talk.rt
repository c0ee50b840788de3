//! Links in memory, and clients that ask over them.

ghost use Rattle.std.specs.Prelude.{All, IfOk};
ghost use Rattle.kd_wire.specs.Refusals.{IsWellFormed};

use crate::table::{bytes_of, number_of};
use kd_client::{Client, ClientError, Next};
use kd_outside::{MemLink, MemSink, MemSource};
use kd_types::{ConnId, Cookie, Moment, Refusal};
use kd_wire::{Command, Cut, Port, Reply, cut, read_command, write_reply};
use std::alloc::Global;
use std::test::Fail;

/// How many bytes a link has room for: more than any test writes.
pub const ROOM: usize = 4_096;

/// A link on which these bytes are to be read, cut at these places.
pub fn link_of(alloc: Global, replies: &[u8], cuts: &[usize]) -> Result<MemLink, Fail> {
    let source = MemSource::make(replies.to_vec(alloc)?, cuts.to_vec(alloc)?, Vec::new(alloc));
    let sink = MemSink::make(vec![in alloc; 0u8; ROOM]?, Vec::new(alloc));
    Ok(MemLink::make(source, sink))
}

/// A link whose read and whose write of these numbers fail, counted from 1, with room for so many
/// bytes.
pub fn failing_link(
    alloc: Global,
    replies: &[u8],
    read: u64,
    write: u64,
    room: usize,
) -> Result<MemLink, Fail> {
    let source = MemSource::make(
        replies.to_vec(alloc)?,
        Vec::new(alloc),
        vec![in alloc; read]?,
    );
    let sink = MemSink::make(vec![in alloc; 0u8; room]?, vec![in alloc; write]?);
    Ok(MemLink::make(source, sink))
}

/// The command whose frame a line spells.
pub fn command_of(alloc: Global, line: &str) -> Result<Command, Fail>
    ensures { IfOk result IsWellFormed }
{
    let frame = bytes_of(alloc, line)?;
    let size = frame.len() as u64;
    if cut(&frame) != (Cut::Frame { size }) {
        return Err("no whole frame")?;
    }
    let (_, command) = read_command(alloc, &frame, Port::Session)?;
    Ok(command)
}

/// A client on a link.
pub fn client_of(alloc: Global, link: MemLink) -> Result<Client<MemLink>, Fail> {
    Ok(Client::make(alloc, link).map_err(|_| "no memory")?)
}

/// What came of asking commands in turn.
#[derive(Debug, Drop)]
pub struct Heard {
    /// The replies, as bytes.
    pub replies: Vec<u8>,
    pub link: MemLink,
    /// What the client ended with, if a call did.
    pub error: Option<ClientError>,
}

/// Asks the commands of these frames in turn.
pub fn ask_each(alloc: Global, link: MemLink, frames: &str) -> Result<Heard, Fail> {
    let mut replies = Vec::new(alloc);
    let mut client = client_of(alloc, link)?;
    for line in frames.lines() {
        let command = command_of(alloc, line)?;
        let number = command.opcode().number();
        if client.place() > 1 << 30 {
            return Err("too much was read")?;
        }
        match client.ask(alloc, command) {
            Ok((asked, reply)) => {
                write_reply(&mut replies, 0, number, &reply)?;
                client = asked;
            }
            Err((link, error)) => return Ok(Heard {
                replies,
                link,
                error: Some(error),
            }),
        }
    }
    Ok(Heard {
        replies,
        link: client.into_link(),
        error: None,
    })
}

/// The commands whose frames the lines spell.
fn commands_of(alloc: Global, frames: &str) -> Result<Vec<Command>, Fail>
    ensures { IfOk result (λ commands. All IsWellFormed commands.items) }
{
    let mut commands = Vec::new(alloc);
    'frames: for line in frames.lines() {
        let command = command_of(alloc, line)?;
        commands.push(command)?;
    }
    Ok(commands)
}

/// What came of sending commands ahead.
#[derive(Debug, Drop)]
pub struct Sent {
    pub replies: Vec<Reply>,
    pub link: MemLink,
    /// What the client ended with, if it did.
    pub error: Option<ClientError>,
}

/// Sends the commands of these frames ahead of their replies.
pub fn send_ahead(alloc: Global, link: MemLink, frames: &str) -> Result<Sent, Fail> {
    let client = client_of(alloc, link)?;
    let commands = commands_of(alloc, frames)?;
    if client.place() > 1 << 30 || commands.len() > 1 << 10 {
        return Err("too much for one call")?;
    }
    match client.send_ahead(alloc, &commands) {
        Ok((client, replies)) => Ok(Sent {
            replies,
            link: client.into_link(),
            error: None,
        }),
        Err((link, error)) => Ok(Sent {
            replies: Vec::new(alloc),
            link,
            error: Some(error),
        }),
    }
}

/// The bytes of replies: a line `reply` has their words, a line `image` those of an image that is
/// received, read and given back.
pub fn replies_of(alloc: Global, lines: &str) -> Result<Vec<u8>, Fail> {
    let mut replies = Vec::new(alloc);
    for line in lines.lines() {
        let (kind, words) = line.split_once(':').ok_or("a line without a colon")?;
        let bytes = bytes_of(alloc, words)?;
        if kind == "reply" {
            replies.extend_from_slice(&bytes)?;
        } else {
            let length = bytes.len() as u64;
            put_words(&mut replies, &[64, 3, 0, 0, 7, 0, length, 0])?;
            put_words(&mut replies, &[length.wrapping_add(40), 4, 0, 0, length])?;
            replies.extend_from_slice(&bytes)?;
            put_words(&mut replies, &[32, 5, 0, 0])?;
        }
    }
    Ok(replies)
}

fn put_words(out: &mut Vec<u8>, words: &[u64]) -> Result<(), Fail> {
    for word in words {
        out.extend_from_slice(&word.to_le_bytes())?;
    }
    Ok(())
}

/// What came of calls in turn.
#[derive(Debug, Drop)]
pub struct Spoken {
    pub link: MemLink,
    /// The first call of which something else came than its line says, counted from 1.
    pub other: Option<u64>,
    /// What the client ended with, if a call did.
    pub error: Option<ClientError>,
}

/// A call by its words: what came of it, as a word and a number.
fn call(
    alloc: Global,
    client: Client<MemLink>,
    words: &str,
) -> Result<Result<(Client<MemLink>, (&'static str, u64)), (MemLink, ClientError)>, Fail> {
    if client.place() > 1 << 30 || client.requests() > 1 << 30 {
        return Err("too much was asked")?;
    }
    let Some(dst) = words.strip_prefix("request ") else {
        return Ok(match client.next(alloc) {
            Ok((client, next)) => Ok((client, found(&next))),
            Err(ended) => Err(ended),
        });
    };
    let dst = number_of(dst.trim())?;
    if dst == 0 || dst == u64::MAX {
        return Err("no connection")?;
    }
    let payload = b"hi".to_vec(alloc)?;
    Ok(
        match client.request(alloc, ConnId(dst), payload, Moment(1_000)) {
            Ok((client, answer)) => Ok((client, answered(answer))),
            Err(ended) => Err(ended),
        },
    )
}

/// What came of a request, as a word and a number.
fn answered(answer: Result<Cookie, Refusal>) -> (&'static str, u64) {
    match answer {
        Ok(cookie) => ("placed", cookie.0),
        Err(refusal) => ("refused", refusal.value()),
    }
}

/// What was found, as a word and a number.
fn found(next: &Next) -> (&'static str, u64) {
    match next {
        Next::Nothing { dropped } => ("nothing", *dropped),
        Next::Refused(refusal) => ("refused", refusal.value()),
        Next::Answer { cookie, .. } => ("answer", cookie.0),
        Next::Failed { cookie, dead } => (if *dead { "dead" } else { "late" }, cookie.0),
        Next::Changed { new, .. } => ("changed", new.0),
        Next::Message(image) => ("message", image.last),
    }
}

/// Makes these calls in turn; each line has behind `>` what is to come of it.
pub fn speak(alloc: Global, link: MemLink, calls: &str) -> Result<Spoken, Fail> {
    let mut client = client_of(alloc, link)?;
    let mut other = None;
    for (line, at) in calls.lines().zip(1u64..) {
        let (words, told) = line.split_once('>').ok_or("a call without an answer")?;
        let (word, number) = told
            .trim()
            .split_once(' ')
            .ok_or("an answer without a number")?;
        match call(alloc, client, words.trim())? {
            Ok((called, came)) => {
                client = called;
                if came != (word, number_of(number)?) {
                    other = other.or(Some(at));
                }
            }
            Err((link, error)) => return Ok(Spoken {
                link,
                other,
                error: Some(error),
            }),
        }
    }
    Ok(Spoken {
        link: client.into_link(),
        other,
        error: None,
    })
}

//! A client.

ghost use Rattle.std.specs.Prelude.{◌≡◌, ◌≢◌, ◌+◌, ◌^◌, ◌<◌, ◌≤◌, [], ◌∷◌, length, All, IfOk, IfErr};
ghost use Rattle.kd_image.specs.Images.{any};
ghost use Rattle.kd_wire.specs.Refusals.{IsWellFormed};
ghost use Rattle.kd_wire.specs.Replies.{IsReplyTo, reply_length};
ghost use Rattle.kd_wire.specs.declared.reply.Reply.TheVariants as replies;
ghost use Rattle.kd_client.specs.Exchanges.{Exchanged, exchange, number_of, outcome, paired};
ghost use Rattle.kd_client.specs.Causes.{Broke, BrokeAhead};
ghost use Rattle.kd_client.specs.Requests.{placing, request_command, request_to};
ghost use Rattle.kd_client.specs.Receptions.{IsReading, Reception, Stopped, exchanges, found};
ghost use Rattle.kd_client.specs.Clients.{ClientState, after, asked, looked, new_client, requested, sent};

use crate::dialogue::Dialogue;
use crate::error::ClientError;
use crate::next::Next;
use crate::request::{Request, record, settle};
use kd_outside::Link;
use kd_types::{ConnId, Cookie, Moment, Refusal};
use kd_wire::{Command, Reply};
use std::alloc::Global;
use std::marker::Model;

/// A program's side of a session.
#[derive(Drop)]
pub struct Client<L: Link + Drop> {
    dialogue: Dialogue<L>,
    /// The requests that wait for an answer, in the order in which they were placed.
    outstanding: Vec<Request>,
    /// How many requests were asked for.
    requests: u64,
}

impl<L: Link + Drop> Model for Client<L> {
    ghost Value = { ClientState L };

    ghost view = { λ c. record {
      link = c.dialogue.link;
      read = c.dialogue.read;
      outstanding = c.outstanding.items;
      requests = c.requests;
    } };
}

impl<L: Link + Drop> Client<L> {
    /// A client on this link, with nothing asked. The link comes back where memory runs out.
    pub fn make(alloc: Global, link: L) -> Result<Client<L>, L>
        ensures ok { IfOk result (λ c. c ≡ new_client link) }
        ensures err { IfErr result (λ l. l ≡ link) }
    {
        Ok(Client {
            dialogue: Dialogue::make(alloc, link)?,
            outstanding: Vec::new(alloc),
            requests: 0,
        })
    }

    /// Asks a command, and waits for its reply.
    pub fn ask(
        self,
        alloc: Global,
        command: Command,
    ) -> Result<(Client<L>, Reply), (L, ClientError)>
        requires form { IsWellFormed command }
        requires few { self.read < 2 ^ 62 }
        // What was written is the frame, what was read is the reply.
        ensures ok { IfOk result (λ r. Exchanged (L.told self.link) (L.told r.0.link)
            (exchange command r.1 ∷ [])) }
        ensures answers { IfOk result (λ r. IsReplyTo (number_of command) r.1) }
        ensures size { IfOk result (λ r. reply_length r.1 ≤ 2097152) }
        ensures rest { IfOk result (λ r. r.0
            ≡ after r.0.link (asked (exchange command r.1)) self) }
        ensures err { IfErr result (λ e. Broke self.read (L.told self.link) (L.told e.0) []
            (command ∷ []) e.1) }
    {
        let mut client = self;
        match client.dialogue.ask(alloc, &command) {
            Ok(reply) => Ok((client, reply)),
            Err(error) => Err((client.dialogue.link, error)),
        }
    }

    /// Writes the frames of commands in one piece, and then reads all their replies, so that they
    /// take one round trip together; their replies in order.
    pub fn send_ahead(
        self,
        alloc: Global,
        commands: &[Command],
    ) -> Result<(Client<L>, Vec<Reply>), (L, ClientError)>
        requires form { All IsWellFormed commands.now }
        requires few { self.read < 2 ^ 62 }
        requires places { length commands.now ≤ 2 ^ 40 }
        // What was written are the frames, what was read are the replies, each at its own place.
        ensures ok { IfOk result (λ r. Exchanged (L.told self.link) (L.told r.0.link)
            (paired commands.now r.1.items)) }
        ensures count { IfOk result (λ r. length r.1.items ≡ length commands.now) }
        ensures rest { IfOk result (λ r. r.0
            ≡ after r.0.link (sent (paired commands.now r.1.items)) self) }
        ensures err { IfErr result (λ e. BrokeAhead self.read (L.told self.link) (L.told e.0)
            commands.now e.1) }
    {
        let mut client = self;
        match client.dialogue.send_ahead(alloc, commands) {
            Ok(replies) => Ok((client, replies)),
            Err(error) => Err((client.dialogue.link, error)),
        }
    }

    /// Asks a connection for an answer, by a message with this payload; a deadline of the bus's
    /// clock. The cookie is the number of the request among those that were asked for, refused ones
    /// with them.
    #[tactic(auto, using(crate::proofs::Spoken::broke_none))]
    pub fn request(
        self,
        alloc: Global,
        dst: ConnId,
        payload: Vec<u8>,
        deadline: Moment,
    ) -> Result<(Client<L>, Result<Cookie, Refusal>), (L, ClientError)>
        requires some { dst ≢ 0 }
        requires one { dst ≢ any }
        requires payload { length payload.items ≤ 130960 }
        requires few { self.read < 2 ^ 62 }
        requires cookies { self.requests < 2 ^ 62 }
        // What was written is the frame of the request, what was read is its reply.
        ensures ok { IfOk result (λ r. Exchanged (L.told self.link) (L.told r.0.link)
            (placing (request_to (self.requests + 1) dst) payload.items deadline r.1 ∷ [])) }
        ensures cookie { IfOk result (λ r. IfOk r.1 (λ c. c ≡ self.requests + 1)) }
        ensures size { IfOk result (λ r. reply_length (outcome replies.Send r.1) ≤ 2097152) }
        ensures rest { IfOk result (λ r. r.0
            ≡ after r.0.link (requested dst payload.items deadline r.1) self) }
        ensures err { IfErr result (λ e. Broke self.read (L.told self.link) (L.told e.0) []
            (request_command (request_to (self.requests + 1) dst) payload.items deadline ∷ [])
            e.1) }
    {
        let Client {
            mut dialogue,
            mut outstanding,
            requests,
        } = self;
        let requests = requests + 1;
        let cookie = Cookie(requests);
        let Ok(()) = outstanding.reserve(1) else {
            return Err((dialogue.link, ClientError::OutOfMemory));
        };
        match dialogue.request(alloc, cookie, dst, payload, deadline) {
            Ok(answer) => {
                record(&mut outstanding, cookie, dst, &answer);
                let client = Client {
                    dialogue,
                    outstanding,
                    requests,
                };
                Ok((client, answer))
            }
            Err(error) => Err((dialogue.link, error)),
        }
    }

    /// Looks for the next message.
    pub fn next(self, alloc: Global) -> Result<(Client<L>, Next), (L, ClientError)>
        requires few { self.read < 2 ^ 62 }
        // What was asked and answered, and what was found by it.
        ensures ok { IfOk result (λ r. (c : Reception) × IsReading c
            × (r.1 ≡ found self.outstanding c)
            × Exchanged (L.told self.link) (L.told r.0.link) (exchanges c)
            × (r.0 ≡ after r.0.link (looked c) self)) }
        ensures err { IfErr result (λ e. Stopped self.read (L.told self.link) (L.told e.0) e.1) }
    {
        let Client {
            mut dialogue,
            mut outstanding,
            requests,
        } = self;
        match dialogue.next(alloc, &outstanding) {
            Ok(next) => {
                settle(&mut outstanding, &next);
                let client = Client {
                    dialogue,
                    outstanding,
                    requests,
                };
                Ok((client, next))
            }
            Err(error) => Err((dialogue.link, error)),
        }
    }

    /// How many bytes were read since the client was made: the place where the next reply begins.
    pub fn place(&self) -> u64
        ensures { result ≡ self.now.read }
    {
        self.dialogue.read
    }

    /// How many requests were asked for, those that were refused with them: the cookie of the last
    /// one.
    pub fn requests(&self) -> u64
        ensures { result ≡ self.now.requests }
    {
        self.requests
    }

    /// The link. What was asked so far was answered.
    pub fn into_link(self) -> L
        ensures { result ≡ self.link }
    {
        self.dialogue.link
    }
}

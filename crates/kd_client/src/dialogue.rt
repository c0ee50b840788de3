//! The dialogue over a link: frames are written, and their replies are read.

ghost use Rattle.std.specs.Prelude.{◌≡◌, ◌+◌, ◌^◌, ◌<◌, ◌≤◌, [], ◌∷◌, length, All, IfOk, IfErr, OnOk};
ghost use Rattle.std.specs.Io.KnownBytes.{Appends, Consumes};
ghost use Rattle.kd_wire.specs.Refusals.{IsWellFormed};
ghost use Rattle.kd_wire.specs.Replies.{IsReplyTo, reply_frame, reply_length};
ghost use Rattle.kd_client.specs.Exchanges.{Exchanged, exchange, number_of, frames, replies};
ghost use Rattle.kd_client.specs.Causes.{Broke, HasNone, IsUnsent};

use crate::error::ClientError;
use crate::reading::read_reply_to;
use crate::sending::{put_frames, send_whole};
use kd_outside::Link;
use kd_wire::{Command, Reply};
use std::alloc::Global;
use std::slice;

/// Room for the frames and replies of a conversation without payloads, so that most calls take no
/// memory for them.
const ROOM: usize = 512;

/// A link, and how far the dialogue over it came.
#[derive(Drop)]
pub(crate) struct Dialogue<L: Link + Drop> {
    pub(crate) link: L,
    /// How many bytes were read.
    pub(crate) read: u64,
    /// The bytes of what is written or read; between two of them they mean nothing.
    bytes: Vec<u8>,
}

impl<L: Link + Drop> Dialogue<L> {
    /// A dialogue in which nothing was said yet. The link comes back where memory runs out.
    pub(crate) fn make(alloc: Global, link: L) -> Result<Dialogue<L>, L>
        ensures link { IfOk result (λ d. d.link ≡ link) }
        ensures none { IfOk result (λ d. d.read ≡ 0) }
        ensures err { IfErr result (λ l. l ≡ link) }
    {
        match Vec::with_capacity(alloc, ROOM) {
            Ok(bytes) => Ok(Dialogue {
                link,
                read: 0,
                bytes,
            }),
            Err(_) => Err(link),
        }
    }

    /// Writes the frames of the commands, in order.
    pub(crate) fn write(&mut self, commands: &[Command]) -> Result<(), ClientError>
        requires { All IsWellFormed commands.now }
        ensures ok { OnOk result (Appends (L.told self.old.link).writing.bytes
            (L.told self.new.link).writing.bytes (frames commands.now)) }
        ensures err { IfErr result (IsUnsent (L.told self.old.link).writing
            (L.told self.new.link).writing (frames commands.now)) }
        ensures faults { OnOk result ((L.told self.new.link).writing.faults
            ≡ (L.told self.old.link).writing.faults) }
        ensures kept { (L.told self.new.link).reading ≡ (L.told self.old.link).reading }
        ensures read { self.new.read ≡ self.old.read }
    {
        self.bytes.clear();
        put_frames(&mut self.bytes, commands)?;
        send_whole(&mut self.link, &self.bytes)
    }

    /// Reads the reply to a command.
    pub(crate) fn hear(&mut self, alloc: Global, command: &Command) -> Result<Reply, ClientError>
        requires { self.old.read < 2 ^ 63 }
        ensures read { IfOk result (λ r. Consumes (L.told self.old.link).reading.bytes
            (L.told self.new.link).reading.bytes (reply_frame (number_of command.now) 0 r)) }
        ensures answers { IfOk result (IsReplyTo (number_of command.now)) }
        ensures place { IfOk result (λ r. self.new.read
            ≡ self.old.read + length (reply_frame (number_of command.now) 0 r)) }
        ensures size { IfOk result (λ r. reply_length r ≤ 2097152) }
        ensures few { self.new.read ≤ self.old.read + 2097152 }
        ensures err { IfErr result (HasNone (number_of command.now) self.old.read
            (L.told self.old.link).reading (L.told self.new.link).reading) }
        ensures faults { OnOk result ((L.told self.new.link).reading.faults
            ≡ (L.told self.old.link).reading.faults) }
        ensures kept { (L.told self.new.link).writing ≡ (L.told self.old.link).writing }
    {
        let opcode = command.opcode();
        let reply = read_reply_to(alloc, &mut self.link, &mut self.bytes, opcode, self.read)?;
        self.read += self.bytes.len() as u64;
        Ok(reply)
    }

    /// Asks a command, and waits for its reply.
    #[tactic(auto, using(crate::proofs::Spoken::broke_unsent, crate::proofs::Spoken::broke_first, crate::proofs::Spoken::exchanged_one, crate::proofs::Spoken::replies_one))]
    pub(crate) fn ask(&mut self, alloc: Global, command: &Command) -> Result<Reply, ClientError>
        requires form { IsWellFormed command.now }
        requires few { self.old.read < 2 ^ 63 }
        ensures ok { IfOk result (λ r. Exchanged (L.told self.old.link) (L.told self.new.link)
            (exchange command.now r ∷ [])) }
        ensures read { IfOk result (λ r. self.new.read
            ≡ self.old.read + length (replies (exchange command.now r ∷ []))) }
        ensures answers { IfOk result (IsReplyTo (number_of command.now)) }
        ensures size { IfOk result (λ r. reply_length r ≤ 2097152) }
        ensures few { self.new.read ≤ self.old.read + 2097152 }
        ensures err { IfErr result (Broke self.old.read (L.told self.old.link)
            (L.told self.new.link) [] (command.now ∷ [])) }
    {
        self.write(slice::from_ref(command))?;
        self.hear(alloc, command)
    }
}

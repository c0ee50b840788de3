//! Commands that are written ahead of their replies.

ghost use Rattle.std.specs.Prelude.{◌≡◌, ◌+◌, ◌*◌, ◌^◌, ◌≤◌, [], length, All, IfOk, IfErr, OnOk, vec_capacity};
ghost use Rattle.kd_wire.specs.Refusals.{IsWellFormed};
ghost use Rattle.kd_client.specs.Exchanges.{Heard, Went, paired};
ghost use Rattle.kd_client.specs.Causes.{BrokeAhead, HeardFront};

use crate::dialogue::Dialogue;
use crate::error::ClientError;
use kd_outside::Link;
use kd_wire::{Command, Reply};
use std::alloc::Global;

impl<L: Link + Drop> Dialogue<L> {
    /// Reads the replies to the commands, in order.
    fn hear_each(
        &mut self,
        alloc: Global,
        commands: &[Command],
        heard: &mut Vec<Reply>,
    ) -> Result<(), ClientError>
        requires none { heard.old.items ≡ [] }
        requires room { length commands.now ≤ vec_capacity heard.old }
        requires few { self.old.read + 2097152 * length commands.now ≤ 2 ^ 63 }
        ensures heard { OnOk result (Heard (L.told self.old.link).reading
            (L.told self.new.link).reading self.old.read self.new.read
            (paired commands.now heard.new.items)) }
        ensures count { OnOk result (length heard.new.items ≡ length commands.now) }
        ensures err { IfErr result (HeardFront self.old.read (L.told self.old.link).reading
            (L.told self.new.link).reading commands.now) }
        ensures kept { (L.told self.new.link).writing ≡ (L.told self.old.link).writing }
    {
        'commands: for command in commands {
            let reply = self.hear(alloc, command)?;
            heard.push_reserved(reply);
        }
        Ok(())
    }

    /// Writes the frames of the commands in one piece, and then reads all their replies.
    pub(crate) fn send_ahead(
        &mut self,
        alloc: Global,
        commands: &[Command],
    ) -> Result<Vec<Reply>, ClientError>
        requires form { All IsWellFormed commands.now }
        requires few { self.old.read + 2097152 * length commands.now ≤ 2 ^ 63 }
        ensures ok { IfOk result (λ v. Went (L.told self.old.link) (L.told self.new.link)
            self.old.read self.new.read (paired commands.now v.items)) }
        ensures count { IfOk result (λ v. length v.items ≡ length commands.now) }
        ensures err { IfErr result (BrokeAhead self.old.read (L.told self.old.link)
            (L.told self.new.link) commands.now) }
    {
        let mut heard = Vec::with_capacity(alloc, commands.len())?;
        self.write(commands)?;
        self.hear_each(alloc, commands, &mut heard)?;
        Ok(heard)
    }
}

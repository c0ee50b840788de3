//! Writing frames.

ghost use Rattle.std.specs.Prelude.{◌≡◌, ℕ, ◌++◌, take, All, IfErr, OnOk, OnErr};
ghost use Rattle.std.specs.Io.KnownBytes.{Appends};
ghost use Rattle.kd_outside.specs.Causes.{HasCause};
ghost use Rattle.kd_wire.specs.Refusals.{IsWellFormed};
ghost use Rattle.kd_client.specs.Exchanges.{frames};
ghost use Rattle.kd_client.specs.Causes.{IsUnsent};

use crate::error::ClientError;
use kd_outside::{Failed, Link};
use kd_wire::{Command, write_command};
use std::alloc::AllocError;

/// Adds the frames of the commands, in order.
#[tactic(auto, unfolding(crate::specs::Exchanges::frames))]
pub(crate) fn put_frames(bytes: &mut Vec<u8>, commands: &[Command]) -> Result<(), AllocError>
    requires { All IsWellFormed commands.now }
    ensures { OnOk result (bytes.new.items ≡ bytes.old.items ++ frames commands.now) }
{
    'frames: for command in commands {
        write_command(bytes, 0, command)?;
    }
    Ok(())
}

/// Writes all of a piece. A fault leaves a front of it written.
fn write_all<L: Link>(link: &mut L, piece: &[u8]) -> Result<(), Failed>
    ensures ok { OnOk result
        (Appends (L.told link.old).writing.bytes (L.told link.new).writing.bytes piece.now) }
    ensures err { OnErr result ((n : ℕ) × Appends (L.told link.old).writing.bytes
        (L.told link.new).writing.bytes (take n piece.now)) }
    ensures cause { HasCause (L.told link.old).writing.faults (L.told link.new).writing.faults
        result }
    ensures kept { (L.told link.new).reading ≡ (L.told link.old).reading }
{
    let mut rest = piece;
    'writing: while !rest.is_empty() {
        let count = link.send(rest)?;
        rest = rest.split_at(count).1;
    }
    Ok(())
}

/// Writes all of a piece, and hands on what the link gathered of it.
#[tactic(auto, using(crate::proofs::Spoken::unsent_whole))]
pub(crate) fn send_whole<L: Link>(link: &mut L, piece: &[u8]) -> Result<(), ClientError>
    ensures ok { OnOk result
        (Appends (L.told link.old).writing.bytes (L.told link.new).writing.bytes piece.now) }
    ensures err { IfErr result (IsUnsent (L.told link.old).writing (L.told link.new).writing
        piece.now) }
    ensures faults { OnOk result
        ((L.told link.new).writing.faults ≡ (L.told link.old).writing.faults) }
    ensures kept { (L.told link.new).reading ≡ (L.told link.old).reading }
{
    write_all(link, piece)?;
    match link.finish() {
        Ok(()) => Ok(()),
        Err(Failed) => Err(ClientError::LinkFault),
    }
}

//! The line of a frame or a reply.

ghost use Rattle.std.specs.Prelude.{◌≡◌, ◌++◌, ℕ, List, length, OnOk, IfOk, IfErr};
ghost use Rattle.kd_wire.specs.declared.frame.Cut.TheVariants as cuts;
ghost use Rattle.kd_wire.specs.Frames.{cut_of};
ghost use Rattle.kd_lines.specs.Pieces.{IsPiece};
ghost use Rattle.kd_lines.specs.Lines.{port_of, refused_line, IsLine};

use crate::commands::put_command;
use crate::kind::Kind;
use crate::marks::{put_quoted, put_text};
use crate::names::put_refusal;
use crate::replies::{put_head, put_reply_line};
use kd_types::Refusal;
use kd_wire::{Port, head, read_command};
use std::alloc::{AllocError, Global};

/// Where a frame comes from: one from the caller 0 from a session, any other from a recorded
/// input.
fn port_of(frame: &[u8]) -> Port
    requires { IsPiece Kind.Frames frame.now }
    ensures { result ≡ port_of frame.now }
{
    if head(frame).caller == 0 {
        Port::Session
    } else {
        Port::Replay
    }
}

/// A frame that is refused, as a line.
fn put_refused(out: &mut Vec<u8>, frame: &[u8], why: &Refusal) -> Result<(), AllocError>
    requires { IsPiece Kind.Frames frame.now }
    ensures { OnOk result (out.new.items ≡ out.old.items ++ refused_line frame.now why.now) }
{
    put_head(out, frame)?;
    put_text(out, " refused ")?;
    put_refusal(out, why)?;
    put_text(out, " FRAME")?;
    put_quoted(out, frame)?;
    put_text(out, "\n")
}

/// A frame as a line.
fn put_frame_line(out: &mut Vec<u8>, alloc: Global, frame: &[u8]) -> Result<(), AllocError>
    requires { IsPiece Kind.Frames frame.now }
    ensures { OnOk result ((line : List ℕ) × IsLine Kind.Frames frame.now line
        × (out.new.items ≡ out.old.items ++ line)) }
{
    match read_command(alloc, frame, port_of(frame)) {
        Ok((caller, command)) => put_command(out, caller, &command),
        Err(Refusal::OutOfMemory) => Err(AllocError),
        Err(why) => put_refused(out, frame, &why),
    }
}

/// A frame or a reply as a line.
pub(crate) fn put_line(
    out: &mut Vec<u8>,
    alloc: Global,
    kind: Kind,
    piece: &[u8],
) -> Result<(), AllocError>
    requires { IsPiece kind piece.now }
    ensures { OnOk result ((line : List ℕ) × IsLine kind piece.now line
        × (out.new.items ≡ out.old.items ++ line)) }
{
    match kind {
        Kind::Frames => put_frame_line(out, alloc, piece),
        Kind::Replies => put_reply_line(out, alloc, piece),
    }
}

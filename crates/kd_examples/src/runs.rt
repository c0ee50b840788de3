//! Whether one text comes of another.

ghost use Rattle.std.specs.Prelude.{◌≡◌, ◌≤◌, [], length, IfOk};
ghost use Rattle.kd_types.specs.declared.status.Status.TheVariants as statuses;
ghost use Rattle.kd_lines.specs.declared.kind.Kind.TheVariants.{Replies};
ghost use Rattle.kd_lines.specs.declared.end.End.TheVariants as ends;
ghost use Rattle.kd_lines.specs.Lines.{ShowsSo};
ghost use Rattle.kd_lines.specs.Making.{MakesSo};
ghost use Rattle.kd_replay.specs.Transcript.{ReplayResult};
ghost use Rattle.kd_outside.specs.Memory.{new_shelf};
ghost use Rattle.kd_examples.specs.Examples.{ComesTo};

use kd_lines::{End, Kind, make, show};
use kd_outside::MemSink;
use kd_replay::replay_frames;
use kd_types::Status;
use std::alloc::{AllocError, Global};

/// How many bytes one of them has room to write.
const ROOM: usize = 1_048_576;

/// Room for what is written.
fn empty_sink(alloc: Global) -> Result<MemSink, AllocError>
    ensures { IfOk result (λ sink. sink ≡ new_shelf 1048576 []) }
{
    Ok(MemSink::make(vec![in alloc; 0u8; ROOM]?, Vec::new(alloc)))
}

/// Whether the lines make these frames.
pub fn makes(alloc: Global, lines: &[u8], frames: &[u8]) -> Result<bool, AllocError>
    requires { length lines.now ≤ 16777216 }
    ensures { IfOk result (ComesTo (MakesSo lines.now) ends.Done frames.now) }
{
    let mut sink = empty_sink(alloc)?;
    let end = make(alloc, lines, &mut sink);
    if end != End::Done {
        return Ok(false);
    }
    Ok(sink.held() == frames)
}

/// Whether a bus answers the frames so.
pub fn answers(alloc: Global, frames: &[u8], replies: &[u8]) -> Result<bool, AllocError>
    requires { length frames.now ≤ 16777216 }
    ensures { IfOk result (ComesTo (ReplayResult frames.now) statuses.Done replies.now) }
{
    let mut sink = empty_sink(alloc)?;
    let end = replay_frames(alloc, frames, &mut sink);
    if end != Status::Done {
        return Ok(false);
    }
    Ok(sink.held() == replies)
}

/// Whether the replies are told in these lines.
pub fn tells(alloc: Global, replies: &[u8], told: &[u8]) -> Result<bool, AllocError>
    requires { length replies.now ≤ 16777216 }
    ensures { IfOk result (ComesTo (ShowsSo Replies replies.now) ends.Done told.now) }
{
    let mut sink = empty_sink(alloc)?;
    let end = show(alloc, Kind::Replies, replies, &mut sink);
    if end != End::Done {
        return Ok(false);
    }
    Ok(sink.held() == told)
}

//! A run over recorded frames.

ghost use Rattle.std.specs.Prelude.{◌≡◌, ◌≤◌, length, IfOk};
ghost use Rattle.kd_outside.specs.Causes.{Rose};
ghost use Rattle.kd_replay.specs.Turns.{replay_world, IsReady};
ghost use Rattle.kd_replay.specs.Transcript.{ReplayResult};

use crate::frames::frame_size;
use crate::replying::put_answer;
use kd_bloom::Param;
use kd_core::World;
use kd_outside::{Sink, write_whole};
use kd_types::Status;
use std::alloc::{AllocError, Global};

/// The user who made the bus of a replay.
const CREATOR: u32 = 1000;

/// The bus of a replay, on which nothing was done: the user 1000 made it, with filters of 64 bytes
/// and 8 hashes.
pub fn open(alloc: Global) -> Result<World, AllocError>
    ensures world { IfOk result (λ w. w.world ≡ replay_world) }
    ensures steps { IfOk result (λ w. w.steps ≡ 0) }
    ensures ready { IfOk result (λ w. IsReady w.world) }
{
    World::make(
        alloc,
        CREATOR,
        Param {
            size: 64,
            hashes: 8,
        },
    )
}

/// Answers frame after frame, each with one reply, which is written whole before the next frame is
/// run.
///
/// It ends `Done` where the bytes are whole frames, else `BadFrame` with the first place where none
/// stands, and earlier only where the sink fails or memory is wanting.
pub fn replay_frames<K: Sink>(alloc: Global, bytes: &[u8], sink: &mut K) -> Status
    requires { length bytes.now ≤ 16777216 }
    // The replies are those of the transcript of the frames, or a front of them: the frames are run
    // by events that are legal one after the other and tell these replies.
    ensures answers { ReplayResult bytes.now (K.held sink.old) (K.held sink.new) result }
    ensures fault { result ≡ Status.WriteFault → Rose (K.faults sink.old) (K.faults sink.new) }
    ensures later { K.faults sink.old ≤ K.faults sink.new }
{
    let Ok(mut world) = open(alloc) else {
        return Status::OutOfMemory;
    };
    let mut rest = bytes;
    let mut at = 0;
    let mut reply = Vec::new(alloc);
    'frames: while let Some(size) = frame_size(rest) {
        let (frame, behind) = rest.split_at(size);
        reply.clear();
        let Ok(()) = put_answer(&mut world, alloc, frame, &mut reply) else {
            return Status::OutOfMemory;
        };
        let Ok(()) = write_whole(sink, &reply) else {
            return Status::WriteFault;
        };
        rest = behind;
        at += size;
    }
    if rest.is_empty() {
        Status::Done
    } else {
        Status::BadFrame { at: at as u64 }
    }
}

//! What a frame is answered.

ghost use Rattle.std.specs.Prelude.{◌≡◌, ◌++◌, List, IfOk, OnOk};
ghost use Rattle.kd_world.specs.Legal as legal;
ghost use Rattle.kd_replay.specs.Turns.{Turn, IsReady};
ghost use Rattle.kd_replay.specs.Frames.{IsFrame};
ghost use Rattle.kd_replay.specs.Transcript.{IsFrameRun, IsTurn, reply_bytes};
ghost use Rattle.kd_replay.specs.Hearing.{heard_along, Hears};

use crate::fitting::{is_answer, is_short};
use crate::running::run;
use crate::witness::{Nobody, Witness};
use kd_core::World;
use kd_types::Refusal;
use kd_wire::{Port, Reply, head, read_command, write_reply};
use std::alloc::{AllocError, Global};

/// Runs a frame, or refuses it. The witness is told of each event of a frame that is run.
pub fn run_frame<W: Witness>(
    world: &mut World,
    alloc: Global,
    frame: &[u8],
    witness: &mut W,
) -> Result<Reply, AllocError>
    requires frame { IsFrame frame.now }
    requires ready { IsReady world.old.world }
    ensures turn { IfOk result (λ r.
        IsTurn world.old.world frame.now (record { next = world.new.world; reply = r })) }
    ensures ready { OnOk result (IsReady world.new.world) }
    // The events by which it is run, which are none where it is refused, were heard with their
    // answers.
    ensures told { IfOk result (λ r. (es : List legal.Event)
        × IsFrameRun world.old.world frame.now es (record { next = world.new.world; reply = r })
        × Hears (W.has_heard witness.old) (W.has_heard witness.new)
        (heard_along world.old.world es)) }
{
    match read_command(alloc, frame, Port::Replay) {
        Ok((caller, command)) => run(world, alloc, caller, command, witness),
        Err(Refusal::OutOfMemory) => Err(AllocError),
        Err(refusal) => Ok(Reply::Refused(refusal)),
    }
}

/// Runs a frame, or refuses it, and appends the bytes of its reply. A reply that is too long for
/// any memory is not written, as if memory were wanting.
pub fn put_answer(
    world: &mut World,
    alloc: Global,
    frame: &[u8],
    out: &mut Vec<u8>,
) -> Result<(), AllocError>
    requires frame { IsFrame frame.now }
    requires ready { IsReady world.old.world }
    ensures turn { OnOk result ((t : Turn) × IsTurn world.old.world frame.now t × (world.new.world ≡ t.next)
        × (out.new.items ≡ out.old.items ++ reply_bytes frame.now t.reply)) }
    ensures ready { OnOk result (IsReady world.new.world) }
{
    let reply = run_frame(world, alloc, frame, &mut Nobody)?;
    let head = head(frame);
    if !is_answer(head.command, &reply) || !is_short(&reply) {
        return Err(AllocError);
    }
    write_reply(out, head.caller, head.command, &reply)
}

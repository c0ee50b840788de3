//! A command, run whole. A witness is told of each of its events.

ghost use Rattle.std.specs.Prelude.{◌≡◌, ◌∷◌, [], length, true, IfOk, IsTrue, None, OnOk};
ghost use Rattle.kd_wire.specs.Ports.{takes_opcode};
ghost use Rattle.kd_wire.specs.Commands.{opcode_in};
ghost use Rattle.kd_wire.specs.Typed.{IsTyped};
ghost use Rattle.kd_wire.specs.WellFormed.{is_well_formed};
ghost use Rattle.kd_wire.specs.declared.port.Port.TheVariants.{Replay};
ghost use Rattle.kd_world.specs.Holding.{holds_desk};
ghost use Rattle.kd_world.specs.Legal.{is_caller, is_for_desk, legal, publishes};
ghost use Rattle.kd_world.specs.Step.{step};
ghost use Rattle.kd_world.specs.Answers.{says};
ghost use Rattle.kd_world.specs.Whole.{next_seat, part_count, pending_count, published, visits_run, whole};
ghost use Rattle.kd_core.specs.Running.{event_of, said};
ghost use Rattle.kd_replay.specs.Turns.{mode_of, reply_of, slice_number, turn, IsReady};
ghost use Rattle.kd_replay.specs.Events.{events_at_desk, events_of, publishes_of, visits_of};
ghost use Rattle.kd_replay.specs.Answering.{reply_with};
ghost use Rattle.kd_replay.specs.Hearing.{heard_along, Hears, IsTypedEvent};

use crate::witness::Witness;
use kd_core::{Answer, Event, World};
use kd_pool::RecvMode;
use kd_types::{RecvFlags, Refusal, Seat, SliceNo};
use kd_wire::{Command, Reply};
use std::alloc::{AllocError, Global};

/// How many events a world runs at most.
const MOST_EVENTS: u64 = 1 << 54;

/// The greatest number of 32 bits, which stands for all above it.
const GREATEST: u64 = 4_294_967_295;

/// One event. A world that has run as many as it may takes no further one, as if memory were
/// wanting.
///
/// It is always inlined: the kind of event is then known where it is run, and for a witness that
/// keeps nothing no value is put together or moved only to be told.
#[inline(always)]
#[tactic(auto, unfolding(kd_core::specs::Running::stepped))]
fn step<W: Witness>(
    world: &mut World,
    alloc: Global,
    event: Event,
    witness: &mut W,
) -> Result<Answer, AllocError>
    requires may { IsTrue (legal world.old.world (event_of event)) }
    requires typed { IsTypedEvent (event_of event) }
    ensures next { OnOk result (world.new.world ≡ step world.old.world (event_of event)) }
    ensures answer { IfOk result (λ a. a ≡ said (event_of event) (says world.old.world (event_of event))) }
    ensures told { OnOk result (Hears (W.has_heard witness.old) (W.has_heard witness.new)
        (heard_along world.old.world (event_of event ∷ []))) }
{
    if world.steps() >= MOST_EVENTS {
        return Err(AllocError);
    }
    witness.see(&event)?;
    let answer = world.step(alloc, event)?;
    witness.hear(&answer)?;
    Ok(answer)
}

/// One event whose answer no reply tells.
#[inline(always)]
fn advance<W: Witness>(
    world: &mut World,
    alloc: Global,
    event: Event,
    witness: &mut W,
) -> Result<(), AllocError>
    requires may { IsTrue (legal world.old.world (event_of event)) }
    requires typed { IsTypedEvent (event_of event) }
    ensures next { OnOk result (world.new.world ≡ step world.old.world (event_of event)) }
    ensures told { OnOk result (Hears (W.has_heard witness.old) (W.has_heard witness.new)
        (heard_along world.old.world (event_of event ∷ []))) }
{
    step(world, alloc, event, witness)?;
    Ok(())
}

/// The reply of a frame that ends with this answer.
#[tactic(auto, unfolding(crate::specs::Answering::reply_with))]
fn reply_of(answer: Answer) -> Reply
    ensures { result ≡ reply_with answer }
{
    match answer {
        Answer::Left(reply) => reply,
        Answer::Got(got) => Reply::Recv {
            number: u64::from(got.number.0),
            offset: u64::from(got.offset),
            length: u64::from(got.length),
            dropped: got.dropped,
        },
        Answer::Bytes(bytes) => Reply::Read { bytes },
        Answer::Freed => Reply::Free,
        Answer::Refused(refusal) => Reply::Refused(refusal),
        _ => Reply::Refused(Refusal::WrongState),
    }
}

/// Makes all visits of the caller that holds the desk.
fn visit<W: Witness>(
    world: &mut World,
    alloc: Global,
    caller: u64,
    witness: &mut W,
) -> Result<(), AllocError>
    requires caller { IsTrue (is_caller caller) }
    requires holds { holds_desk world.old.world caller ≡ true }
    ensures next { OnOk result (world.new.world ≡ visits_run world.old.world caller) }
    ensures holds { OnOk result (holds_desk world.new.world caller ≡ true) }
    ensures all { OnOk result (next_seat world.new.world ≡ None) }
    ensures callers { OnOk result (length world.new.world.callers ≡ length world.old.world.callers) }
    ensures told { OnOk result (Hears (W.has_heard witness.old) (W.has_heard witness.new)
        (heard_along world.old.world (visits_of (part_count world.old.world) caller world.old.world))) }
{
    'parts: while let Some(seat) = world.next_seat() {
        advance(world, alloc, Event::Visit { caller, seat }, witness)?;
    }
    Ok(())
}

/// The publishing of the message that is pending for this seat and slice.
#[inline(always)]
fn publishing(caller: u64, place: (Seat, SliceNo)) -> Event
    ensures { event_of result ≡ publishes caller place.0 place.1 }
{
    let (seat, number) = place;
    Event::Publish {
        caller,
        seat,
        number: number.0,
    }
}

/// Publishes all that the caller has pending.
fn publish<W: Witness>(
    world: &mut World,
    alloc: Global,
    caller: u64,
    witness: &mut W,
) -> Result<(), AllocError>
    requires caller { IsTrue (is_caller caller) }
    requires ready { IsReady world.old.world }
    ensures next { OnOk result (world.new.world ≡ published world.old.world caller) }
    ensures ready { OnOk result (IsReady world.new.world) }
    ensures told { OnOk result (Hears (W.has_heard witness.old) (W.has_heard witness.new)
        (heard_along world.old.world (publishes_of (pending_count world.old.world caller) caller world.old.world))) }
{
    'pendings: while let Some(place) = world.next_publish(caller) {
        advance(world, alloc, publishing(caller, place), witness)?;
    }
    Ok(())
}

/// Runs a command at the desk: the take, the visits, the leave and the publishes, unless it is
/// refused at the take.
fn run_at_desk<W: Witness>(
    world: &mut World,
    alloc: Global,
    caller: u64,
    command: Command,
    witness: &mut W,
) -> Result<Reply, AllocError>
    requires caller { IsTrue (is_caller caller) }
    requires desk { IsTrue (is_for_desk command) }
    requires form { IsTrue (is_well_formed command) }
    requires typed { IsTyped command }
    requires ready { IsReady world.old.world }
    ensures next { OnOk result (world.new.world ≡ (whole world.old.world caller command).next) }
    ensures reply { IfOk result (λ r. r ≡ reply_of (whole world.old.world caller command).answer) }
    ensures ready { OnOk result (IsReady world.new.world) }
    ensures told { OnOk result (Hears (W.has_heard witness.old) (W.has_heard witness.new)
        (heard_along world.old.world (events_at_desk world.old.world caller command))) }
{
    let taken = step(world, alloc, Event::Take { caller, command }, witness)?;
    if let Answer::Refused(refusal) = taken {
        return Ok(Reply::Refused(refusal));
    }
    visit(world, alloc, caller, witness)?;
    let answer = step(world, alloc, Event::Leave { caller }, witness)?;
    publish(world, alloc, caller, witness)?;
    Ok(reply_of(answer))
}

/// Runs an event that is a frame's only one.
#[inline(always)]
fn run_alone<W: Witness>(
    world: &mut World,
    alloc: Global,
    event: Event,
    witness: &mut W,
) -> Result<Reply, AllocError>
    requires may { IsTrue (legal world.old.world (event_of event)) }
    requires typed { IsTypedEvent (event_of event) }
    ensures next { OnOk result (world.new.world ≡ step world.old.world (event_of event)) }
    ensures reply { IfOk result
        (λ r. r ≡ reply_with (said (event_of event) (says world.old.world (event_of event)))) }
    ensures told { OnOk result (Hears (W.has_heard witness.old) (W.has_heard witness.new)
        (heard_along world.old.world (event_of event ∷ []))) }
{
    let answer = step(world, alloc, event, witness)?;
    Ok(reply_of(answer))
}

/// How a receive with these flags takes its message.
fn mode_of(flags: RecvFlags, limit: i64) -> RecvMode
    ensures { result ≡ mode_of flags limit }
{
    RecvMode {
        peek: flags.peeks(),
        drop_it: flags.drops(),
        limit: if flags.has_limit() { Some(limit) } else { None },
    }
}

/// The number of a slice as an event has it.
fn slice_number(number: u64) -> u32
    ensures { result ≡ slice_number number }
{
    number.min(GREATEST) as u32
}

/// Runs a command of a caller whole, with nothing between its events.
#[tactic(auto, unfolding(crate::specs::Turns::turn, crate::specs::Events::events_of))]
pub fn run<W: Witness>(
    world: &mut World,
    alloc: Global,
    caller: u64,
    command: Command,
    witness: &mut W,
) -> Result<Reply, AllocError>
    requires caller { IsTrue (is_caller caller) }
    requires command { takes_opcode Replay (opcode_in command) ≡ true }
    requires form { IsTrue (is_well_formed command) }
    requires typed { IsTyped command }
    requires ready { IsReady world.old.world }
    ensures next { OnOk result (world.new.world ≡ (turn world.old.world caller command).next) }
    ensures reply { IfOk result (λ r. r ≡ (turn world.old.world caller command).reply) }
    ensures ready { OnOk result (IsReady world.new.world) }
    ensures told { OnOk result (Hears (W.has_heard witness.old) (W.has_heard witness.new)
        (heard_along world.old.world (events_of world.old.world caller command))) }
{
    match command {
        Command::Recv { flags, limit } => {
            let mode = mode_of(flags, limit);
            run_alone(world, alloc, Event::Receive { caller, mode }, witness)
        }
        Command::Read { sealed, number } => {
            let number = slice_number(number);
            run_alone(
                world,
                alloc,
                Event::Read {
                    caller,
                    number,
                    sealed,
                },
                witness,
            )
        }
        Command::Free { number } => {
            let number = slice_number(number);
            run_alone(world, alloc, Event::Free { caller, number }, witness)
        }
        command => run_at_desk(world, alloc, caller, command, witness),
    }
}

//! Lists of events.

ghost use Rattle.std.specs.Prelude.{◌≡◌, ◌<◌, ◌≤◌, ◌+◌, ◌^◌, ◌∷◌, ◌++◌, [], Err, IfOk, IsNone, None, OnErr, OnOk, Some, false, length, map, true, ℕ};
ghost use Rattle.kd_core.specs.Along.{events_run, first_barred, ran, said_along};
ghost use Rattle.kd_core.specs.Running.{event_of, said, stepped};
ghost use Rattle.kd_world.specs.State.{new_world};
ghost use Rattle.kd_world.specs.Runs.{IsReached};
ghost use Rattle.kd_world.specs.Answers.{says};
ghost use Rattle.kd_world.specs.Tie.{IsOffered, IsOfferedSoFar};
ghost use Rattle.kd_world.specs.Agreed.{HandsAgree};
ghost use Rattle.kd_pairs.specs.Paired.{IsPairedAlong};
ghost use Rattle.kd_world.specs.Legal.{legal};

use crate::event::{Answer, Event};
use crate::world::World;
use std::alloc::Global;

/// Why not all events were run.
#[derive(Clone, Copy, Debug, PartialEq, Eq)]
pub enum RunError {
    /// The event at this place, counted from 0, isn't legal where those before it were run.
    Illegal { index: u64 },
    /// Memory was wanting at the event at this place; those before it were run.
    OutOfMemory { index: u64 },
}

/// Runs the event at a place of a list, and keeps its answer.
fn run_next(
    world: &mut World,
    alloc: Global,
    event: Event,
    answers: &mut Vec<Answer>,
    index: u64,
) -> Result<(), RunError>
    requires steps { world.old.steps < 2 ^ 54 }
    ensures may { OnOk result (legal world.old.world (event_of event) ≡ true) }
    ensures ok { OnOk result (world.new ≡ stepped world.old (event_of event)) }
    ensures answer { OnOk result (answers.new.items
        ≡ answers.old.items
        ++ said (event_of event) (says world.old.world (event_of event)) ∷ []) }
    ensures err { OnErr result (world.new ≡ world.old) }
    ensures illegal { (n : ℕ) → result ≡ Err (RunError.Illegal n)
        → (n ≡ index) × (legal world.old.world (event_of event) ≡ false) }
    ensures memory { (n : ℕ) → result ≡ Err (RunError.OutOfMemory n) → n ≡ index }
{
    if !world.may(&event) {
        return Err(RunError::Illegal { index });
    }
    let Ok(()) = answers.reserve(1) else {
        return Err(RunError::OutOfMemory { index });
    };
    let Ok(answer) = world.step(alloc, event) else {
        return Err(RunError::OutOfMemory { index });
    };
    answers.push(answer).unwrap();
    Ok(())
}

/// Runs one event after the other.
fn run_all(alloc: Global, world: &mut World, events: Vec<Event>) -> Result<Vec<Answer>, RunError>
    requires steps { world.old.steps + length events.items ≤ 2 ^ 54 }
    ensures ok { IfOk result
        (λ answers. answers.items ≡ said_along world.old.world (map event_of events.items)) }
    ensures legal { first_barred world.old.world (events_run result (map event_of events.items))
        ≡ None }
    ensures run { world.new ≡ ran world.old (events_run result (map event_of events.items)) }
    ensures illegal { (index : ℕ) → result ≡ Err (RunError.Illegal index)
        → first_barred world.old.world (map event_of events.items) ≡ Some index }
    ensures memory { (index : ℕ) → result ≡ Err (RunError.OutOfMemory index)
        → index < length events.items }
{
    let mut answers = Vec::new(alloc);
    let mut index = 0;
    'events: for event in events {
        run_next(world, alloc, event, &mut answers, index)?;
        index += 1;
    }
    Ok(answers)
}

/// Runs one event after the other, and gives their answers, until one may not happen or memory is
/// wanting; those before it were run.
pub fn run_events(
    alloc: Global,
    world: &mut World,
    events: Vec<Event>,
) -> Result<Vec<Answer>, RunError>
    requires steps { world.old.steps + length events.items ≤ 2 ^ 54 }
    ensures ok { IfOk result
        (λ answers. answers.items ≡ said_along world.old.world (map event_of events.items)) }
    ensures legal { first_barred world.old.world (events_run result (map event_of events.items))
        ≡ None }
    ensures run { world.new ≡ ran world.old (events_run result (map event_of events.items)) }
    // From the opening of a bus, whenever the desk is free: each pool was made just what the desk's
    // history addresses to it.
    ensures offered { (creator size hashes c : ℕ) → world.old.world ≡ new_world creator size hashes
        → IsNone world.new.world.holder
        → IsOffered creator size hashes c (events_run result (map event_of events.items)) }
    // And whoever holds it, that and what its holder has visited.
    ensures held { (creator size hashes c : ℕ) → world.old.world ≡ new_world creator size hashes
        → IsOfferedSoFar creator size hashes c (events_run result (map event_of events.items)) }
    // Each publish that isn't gone is of the last offer before it at its pool that reserved its
    // number: by the same caller, with that offer's content, and no other stands between the two.
    ensures paired { (creator size hashes : ℕ) → world.old.world ≡ new_world creator size hashes
        → IsPairedAlong creator size hashes (events_run result (map event_of events.items)) }
    // Where legal events led to the world, they lead on, and hands agree with pools.
    ensures hands { IsReached world.old.world
        → IsReached world.new.world × HandsAgree world.new.world }
    ensures illegal { (index : ℕ) → result ≡ Err (RunError.Illegal index)
        → first_barred world.old.world (map event_of events.items) ≡ Some index }
    ensures memory { (index : ℕ) → result ≡ Err (RunError.OutOfMemory index)
        → index < length events.items }
{
    run_all(alloc, world, events)
}

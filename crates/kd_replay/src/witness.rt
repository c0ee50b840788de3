//! Whoever is told what happens in a run.

ghost use Rattle.std.specs.Prelude.{◌++◌, ◌∷◌, [], List, OnOk, ⊤};
ghost use Rattle.kd_core.specs.Running.{event_of};
ghost use Rattle.kd_world.specs.Legal as legal;
ghost use Rattle.kd_replay.specs.Hearing.{Heard, MayHappen};

use kd_core::{Answer, Event};
use std::alloc::AllocError;

/// Whoever is told of the events of a run: of each before it happens, and then what it was
/// answered.
pub trait Witness {
    /// It has heard these events with their answers, and nothing else.
    ghost has_heard: { Self → List Heard → Type 0 };

    /// Behind them it has seen this event, and hasn't heard its answer.
    ghost has_seen: { Self → List Heard → legal.Event → Type 0 };

    /// Sees the event that happens next.
    fn see(&mut self, event: &Event) -> Result<(), AllocError>
        requires may { MayHappen (event_of event.now) }
        ensures { OnOk result ((hs : List Heard) → has_heard self.old hs
            → has_seen self.new hs (event_of event.now)) };

    /// Hears what the event was answered.
    fn hear(&mut self, answer: &Answer) -> Result<(), AllocError>
        ensures { OnOk result ((hs : List Heard) (e : legal.Event) → has_seen self.old hs e
            → has_heard self.new (hs ++ record { event = e; answer = answer.now } ∷ [])) };
}

/// Nobody: it keeps nothing of what it is told.
#[derive(Drop)]
pub struct Nobody;

impl Witness for Nobody {
    ghost has_heard = { λ _ _. ⊤ };

    ghost has_seen = { λ _ _ _. ⊤ };

    fn see(&mut self, _: &Event) -> Result<(), AllocError> {
        Ok(())
    }

    fn hear(&mut self, _: &Answer) -> Result<(), AllocError> {
        Ok(())
    }
}

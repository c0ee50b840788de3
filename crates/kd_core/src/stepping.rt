//! One event.

ghost use Rattle.std.specs.Prelude.{◌≡◌, ◌<◌, ◌^◌, IfOk, IsTrue, OnErr, OnOk};
ghost use Rattle.kd_core.specs.Running.{event_of, said, stepped};
ghost use Rattle.kd_world.specs.Legal.{reads, legal};
ghost use Rattle.kd_world.specs.Runs.{IsReached};
ghost use Rattle.kd_world.specs.Answers.{says};
ghost use Rattle.kd_world.specs.Agreed.{HandsAgree, SlicesStay};

use crate::event::{Answer, Event};
use crate::world::World;
use std::alloc::{AllocError, Global};

impl World {
    /// Reads a slice, which changes nothing but the count of events.
    fn read_once(
        &mut self,
        alloc: Global,
        caller: u64,
        number: u32,
        sealed: bool,
    ) -> Result<Answer, AllocError>
        requires may { IsTrue (legal self.old.world (reads caller number sealed)) }
        requires steps { self.old.steps < 2 ^ 54 }
        ensures ok { OnOk result (self.new ≡ stepped self.old (reads caller number sealed)) }
        ensures answer { IfOk result (λ a.
            a
            ≡ said (reads caller number sealed)
            (says self.old.world (reads caller number sealed))) }
        ensures err { OnErr result (self.new ≡ self.old) }
    {
        let answer = self.read(alloc, caller, number, sealed)?;
        self.steps += 1;
        Ok(answer)
    }

    /// Runs an event by its kind.
    #[inline(always)]
    fn run(&mut self, alloc: Global, event: Event) -> Result<Answer, AllocError>
        requires may { IsTrue (legal self.old.world (event_of event)) }
        requires steps { self.old.steps < 2 ^ 54 }
        ensures ok { OnOk result (self.new ≡ stepped self.old (event_of event)) }
        ensures answer { IfOk result
            (λ a. a ≡ said (event_of event) (says self.old.world (event_of event))) }
        ensures err { OnErr result (self.new ≡ self.old) }
    {
        match event {
            Event::Take { caller, command } => self.take(alloc, caller, command),
            Event::Visit { caller, seat } => self.visit(caller, seat),
            Event::Leave { caller } => self.leave(caller),
            Event::Publish {
                caller,
                seat,
                number,
            } => Ok(self.publish(caller, seat, number)),
            Event::Receive { caller, mode } => Ok(self.receive(caller, mode)),
            Event::Read {
                caller,
                number,
                sealed,
            } => self.read_once(alloc, caller, number, sealed),
            Event::Free { caller, number } => Ok(self.free(caller, number)),
        }
    }

    /// Runs an event that may happen now, and answers it. Where memory is wanting nothing changes.
    ///
    /// It is always inlined: a caller that makes an event of one kind runs that kind's code alone.
    #[inline(always)]
    pub fn step(&mut self, alloc: Global, event: Event) -> Result<Answer, AllocError>
        requires may { IsTrue (legal self.old.world (event_of event)) }
        requires steps { self.old.steps < 2 ^ 54 }
        ensures ok { OnOk result (self.new ≡ stepped self.old (event_of event)) }
        ensures answer { IfOk result
            (λ a. a ≡ said (event_of event) (says self.old.world (event_of event))) }
        ensures err { OnErr result (self.new ≡ self.old) }
        // Where legal events led to the world: they lead on, and a number is handed in a
        // connection's hand exactly where that slice is handed in its open pool.
        ensures hands { IsReached self.old.world
            → IsReached self.new.world × HandsAgree self.new.world }
        // Each slice that isn't freed keeps its place and its bytes until it is let go, but for the
        // publishing of its own message.
        ensures slices { IsReached self.old.world → SlicesStay self.old.world (event_of event) }
    {
        self.run(alloc, event)
    }
}

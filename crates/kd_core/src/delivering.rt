//! The events of callers that don't need the desk.

ghost use Rattle.std.specs.Prelude.{◌≡◌, ◌<◌, ◌^◌, IfOk, IsTrue};
ghost use Rattle.kd_core.specs.Running.{said, stepped};
ghost use Rattle.kd_world.specs.Legal.{frees, publishes, reads, receives, legal};
ghost use Rattle.kd_world.specs.Answers.{says};

use crate::event::Answer;
use crate::world::World;
use kd_pool::RecvMode;
use kd_types::Seat;
use std::alloc::{AllocError, Global};

impl World {
    /// Publishes the caller's oldest message for the seat and number.
    #[tactic(auto, unfolding(kd_world::specs::Legal::legal))]
    pub(crate) fn publish(&mut self, caller: u64, seat: Seat, number: u32) -> Answer
        requires may { IsTrue (legal self.old.world (publishes caller seat number)) }
        requires steps { self.old.steps < 2 ^ 54 }
        ensures after { self.new ≡ stepped self.old (publishes caller seat number) }
        ensures answer { result
            ≡ said (publishes caller seat number)
            (says self.old.world (publishes caller seat number)) }
    {
        self.steps += 1;
        self.callers[(caller - 1) as usize].publish(&mut self.pools, seat, number)
    }

    /// Receives the next message of the caller's pool.
    #[tactic(auto, unfolding(kd_world::specs::Legal::legal))]
    pub(crate) fn receive(&mut self, caller: u64, mode: RecvMode) -> Answer
        requires may { IsTrue (legal self.old.world (receives caller mode)) }
        requires steps { self.old.steps < 2 ^ 54 }
        ensures after { self.new ≡ stepped self.old (receives caller mode) }
        ensures answer { result
            ≡ said (receives caller mode) (says self.old.world (receives caller mode)) }
    {
        self.steps += 1;
        self.callers[(caller - 1) as usize].receive(&mut self.pools, mode)
    }

    /// Reads a slice of the caller's pool, or the share of one.
    #[tactic(auto, unfolding(kd_world::specs::Legal::legal))]
    pub(crate) fn read(
        &self,
        alloc: Global,
        caller: u64,
        number: u32,
        sealed: bool,
    ) -> Result<Answer, AllocError>
        requires may { IsTrue (legal self.now.world (reads caller number sealed)) }
        ensures answer { IfOk result (λ a.
            a
            ≡ said (reads caller number sealed)
            (says self.now.world (reads caller number sealed))) }
    {
        self.caller(caller).read(&self.pools, alloc, number, sealed)
    }

    /// Frees a slice that the caller received.
    #[tactic(auto, unfolding(kd_world::specs::Legal::legal))]
    pub(crate) fn free(&mut self, caller: u64, number: u32) -> Answer
        requires may { IsTrue (legal self.old.world (frees caller number)) }
        requires steps { self.old.steps < 2 ^ 54 }
        ensures after { self.new ≡ stepped self.old (frees caller number) }
        ensures answer { result
            ≡ said (frees caller number) (says self.old.world (frees caller number)) }
    {
        self.steps += 1;
        self.callers[(caller - 1) as usize].free(&mut self.pools, number)
    }
}

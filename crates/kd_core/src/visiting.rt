//! The holder of the desk visits a pool.

ghost use Rattle.std.specs.Prelude.{◌≡◌, ◌<◌, ◌-◌, ◌^◌, ◌∷◌, IfOk, IfSome, IsSome, IsTrue, List, OnErr, OnOk, Some, drop, length};
ghost use Rattle.std.specs.List.{AllByRecursion};
ghost use Rattle.kd_tables.specs.declared.part.Part as part;
ghost use Rattle.kd_holds.specs.declared.holder.Holder as code;
ghost use Rattle.kd_holds.specs.Counts.{IsBelow};
ghost use Rattle.kd_holds.specs.Visits.{HasVisited, IsReady, IsSameHolder, IsVisited};
ghost use Rattle.kd_core.specs.Running.{said, stepped};
ghost use Rattle.kd_world.specs.Legal.{visit, legal};
ghost use Rattle.kd_world.specs.Answers.{says};

use crate::event::Answer;
use crate::world::World;
use kd_desk::Out;
use kd_holds::{Hold, Holder};
use kd_types::Seat;
use std::alloc::AllocError;

/// The holder visits its next part.
fn visit_next(holder: &mut Option<Holder>, pools: &mut Vec<Hold>) -> Result<Out, AllocError>
    requires ready { (h : code.Holder) × (holder.old ≡ Some h) × IsReady h }
    requires counts { AllByRecursion (IsBelow (2 ^ 63 - 1)) pools.old.items }
    ensures holder { IfOk result (λ out.
        (h : code.Holder) → holder.old ≡ Some h
        → IfSome holder.new (λ k. HasVisited h k out)) }
    ensures some { IsSome holder.new }
    ensures pools { IfOk result (λ out.
        (h k : code.Holder) (p : part.Part) (rest : List part.Part) → holder.old ≡ Some h
        → holder.new ≡ Some k → drop (length h.outs.items) h.plan.parts ≡ p ∷ rest
        → IsVisited p pools.old.items pools.new.items out h.made.drained k.made.drained) }
    ensures same { OnErr result
        ((h : code.Holder) → holder.old ≡ Some h → IfSome holder.new (IsSameHolder h)) }
    ensures pools_same { OnErr result (pools.new.items ≡ pools.old.items) }
{
    match holder {
        Some(holder) => holder.visit(pools),
        None => unreachable!(),
    }
}

impl World {
    /// The holder of the desk visits the pool of its next part, which is at this seat.
    pub(crate) fn visit(&mut self, caller: u64, seat: Seat) -> Result<Answer, AllocError>
        requires may { IsTrue (legal self.old.world (visit caller seat)) }
        requires steps { self.old.steps < 2 ^ 54 }
        ensures ok { OnOk result (self.new ≡ stepped self.old (visit caller seat)) }
        ensures answer { IfOk result
            (λ a. a ≡ said (visit caller seat) (says self.old.world (visit caller seat))) }
        ensures err { OnErr result (self.new ≡ self.old) }
    {
        let out = visit_next(&mut self.holder, &mut self.pools)?;
        self.steps += 1;
        Ok(Answer::Visited(out))
    }
}

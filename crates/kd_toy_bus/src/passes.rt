//! The passes of a gate, as they were made and as they come back.
ghost use Rattle.std.specs.Prelude.{◌≡◌, ℕ, [], ◌∷◌, length, IfOk, map};
ghost use Rattle.kd_turn.specs.Told.{Ended};
ghost use Rattle.kd_hands.specs.Locks.{Fact};
ghost use Rattle.kd_toy_bus.specs.Rests.{AreBack, AreNew, IsNew, Rests};

use kd_turn::gate::Gate;
use kd_turn::pass::Pass;
use kd_turn::standing::Standing;
use std::alloc::{AllocError, Global};

/// The two passes of a gate that has two.
pub fn two_of<T: Standing>(gate: &Gate<T>, mut passes: Vec<Pass<T>>) -> (Pass<T>, Pass<T>)
    requires two { gate.now.passes ≡ 2 }
    requires new { AreNew gate.now passes.items }
    ensures first { IsNew gate.now 0 result.0 }
    ensures second { IsNew gate.now 1 result.1 }
{
    let _ = gate;
    let Some(second) = passes.pop() else {
        unreachable!()
    };
    let Some(first) = passes.pop() else {
        unreachable!()
    };
    (first, second)
}

/// The two passes again, as closing wants them.
pub fn both<T: Standing>(
    alloc: Global,
    gate: &Gate<T>,
    first: Pass<T>,
    second: Pass<T>,
) -> Result<Vec<Pass<T>>, AllocError>
    requires two { gate.now.passes ≡ 2 }
    requires first { Rests gate.now first × (first.view.name ≡ 0) }
    requires second { Rests gate.now second × (second.view.name ≡ 1) }
    ensures back { IfOk result (λ all. AreBack gate.now all.items) }
    ensures items { IfOk result (λ all. all.items ≡ first ∷ second ∷ []) }
{
    let _ = gate;
    let mut all = Vec::with_capacity(alloc, 2)?;
    all.push_reserved(first);
    all.push_reserved(second);
    Ok(all)
}

/// The values, once all passes came back; at want of memory they are dropped.
pub fn values_of<T: Standing + Drop>(
    alloc: Global,
    gate: Gate<T>,
    passes: Vec<Pass<T>>,
) -> Result<Vec<T>, AllocError>
    requires back { AreBack gate passes.items }
    ensures count { IfOk result (λ values. length values.items ≡ gate.locks) }
    ensures ended { IfOk result (λ values.
        Ended T.stands (Fact T.tie T.lends T.out T.keeper) gate.passes
        (map (λ p. p.view) passes.items) values.items) }
{
    match gate.close(alloc, passes) {
        Ok(values) => Ok(values),
        Err(_) => Err(AllocError),
    }
}

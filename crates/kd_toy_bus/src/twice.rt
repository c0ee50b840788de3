//! Two counted values that are tied: of the second one's turns there are twice as many as of the
//! first one's, and as many more as the holder of the first has made since it took it.
ghost use Rattle.std.specs.Prelude.{◌≡◌, ℕ, ◌+◌, ◌*◌, ◌^◌, ◌<◌, ◌≤◌, length, IfOk};
ghost use Rattle.kd_toy_bus.specs.Rests.{AreBack, AreNew, HaveTaken, Rests};

use kd_turn::gate::Gate;
use kd_turn::pass::Pass;
use kd_turn::standing::Standing;
use std::alloc::{AllocError, Global};
use std::snapshot::Snapshot;
use std::sync::Wait;
use std::thread;
use std::thread::Threads;

/// How many turns were taken on the lock.
#[derive(Drop)]
pub struct Twice {
    pub turns: u64,
}

impl Standing for Twice {
    type Entry = Snapshot<u64>;

    ghost use Rattle.std.specs.Prelude.{◌≡◌, ◌+◌, ◌*◌, length, None};

    ghost stands = { λ l list x. x.turns ≡ length list };

    ghost tie = { λ h. length (h.lists 1) ≡ 2 * length (h.lists 0) + length h.opened };

    ghost lends = { λ l list n. ⊥ };

    ghost out = { λ l list n. ⊥ };

    ghost keeper = { λ l list. None };

    ghost hand_after = { λ l e hand. hand };

    ghost empties = { λ e. None };
}

/// A gate of the two values, and its passes.
pub fn make(alloc: Global, passes: u32) -> Result<(Gate<Twice>, Vec<Pass<Twice>>), AllocError>
    requires passes { (0 < passes) × (passes ≤ 1024) }
    ensures locks { IfOk result (λ r. r.0.locks ≡ 2) }
    ensures passes { IfOk result (λ r. r.0.passes ≡ passes) }
    ensures new { IfOk result (λ r. AreNew r.0 r.1.items) }
{
    let mut values = Vec::with_capacity(alloc, 2)?;
    values.push_reserved(Twice { turns: 0 });
    values.push_reserved(Twice { turns: 0 });
    let made = Gate::make(alloc, values, passes)?;
    Ok(made)
}

/// Takes the first lock, the second one twice, and passes the first on.
pub fn round<R: Wait>(rt: &R, gate: &Gate<Twice>, pass: &mut Pass<Twice>)
    requires rests { Rests gate.now pass.old }
    requires locks { gate.now.locks ≡ 2 }
    requires turns { pass.old.view.turns + 3 ≤ 2 ^ 43 }
    ensures rests { Rests gate.now pass.new }
    ensures name { pass.new.view.name ≡ pass.old.view.name }
    ensures turns { pass.new.view.turns ≡ pass.old.view.turns + 3 }
{
    let Twice { turns: first } = pass.take(rt, gate, 0);
    let Twice { turns } = pass.take(rt, gate, 1);
    pass.put(gate, 1, Twice { turns: turns + 1 }, Snapshot::of(&turns));
    let Twice { turns } = pass.take(rt, gate, 1);
    pass.put(gate, 1, Twice { turns: turns + 1 }, Snapshot::of(&turns));
    pass.put(gate, 0, Twice { turns: first + 1 }, Snapshot::of(&first));
}

/// Takes as many rounds.
pub fn rounds<R: Wait>(rt: &R, gate: &Gate<Twice>, mut pass: Pass<Twice>, count: u32) -> Pass<Twice>
    requires rests { Rests gate.now pass }
    requires locks { gate.now.locks ≡ 2 }
    requires turns { pass.view.turns + 3 * count ≤ 2 ^ 43 }
    ensures rests { Rests gate.now result }
    ensures name { result.view.name ≡ pass.view.name }
    ensures turns { result.view.turns ≡ pass.view.turns + 3 * count }
{
    'turning: for turn in 0..count {
        round(rt, gate, &mut pass);
    }
    pass
}

/// Each pass takes its rounds in a thread of its own.
pub fn rounds_of_all<R: Threads + Wait + Sync>(
    rt: &R,
    gate: &Gate<Twice>,
    passes: Vec<Pass<Twice>>,
    count: u32,
) -> Result<Vec<Pass<Twice>>, AllocError>
    requires new { AreNew gate.now passes.items }
    requires locks { gate.now.locks ≡ 2 }
    ensures back { IfOk result (λ all. AreBack gate.now all.items) }
    ensures turns { IfOk result (λ all. HaveTaken (3 * count) all.items) }
{
    let work = |pass: Pass<Twice>| -> Pass<Twice>
        requires rests { Rests gate.now pass × (gate.now.locks ≡ 2) }
        requires turns { pass.view.turns ≡ 0 }
        ensures rests { Rests gate.entry.now result }
        ensures name { result.view.name ≡ pass.view.name }
        ensures turns { result.view.turns ≡ 3 * count }
    { rounds(rt, gate, pass, count) };
    let all = thread::map_vec(rt, passes, &work)?;
    Ok(all)
}

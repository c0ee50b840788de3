//! Closing: all passes come back, and the desk and the pools come out.
ghost use Rattle.std.specs.Prelude.{◌≡◌, ◌<◌, ◌≤◌, ℕ, All, Any, IfErr, IfOk, [], length, map, vec_capacity};
ghost use Rattle.std.specs.List.{AllByRecursion};
ghost use Rattle.kd_turn.specs.Told.{Ended};
ghost use Rattle.kd_histories.specs.Puts.{BusFact};
ghost use Rattle.kd_bus.specs.Closing.{IsPool, IsWhole, aims_of, bare, joined, pools_as_values, values_in};
ghost use Rattle.kd_bus.specs.Sight.{Rests};
ghost use Rattle.kd_bus.specs.Values.{stands};

use crate::bus::{Bus, BusPass};
use crate::locked::{Locked, Slot};
use kd_desk::{Desk, SEATS};
use kd_holds::Hold;
use kd_turn::pass::Pass;
use std::alloc::Global;

/// What a slot has come to: its desk with its generation, and the pools by seat.
#[derive(Drop)]
pub struct Closed {
    pub generation: u64,
    pub desk: Desk,
    pub pools: Vec<Hold>,
}

/// A pass without its aim, and this by itself.
fn part(pass: BusPass) -> (Pass<Locked>, Option<u64>)
    ensures pass { result.0 ≡ bare pass }
    ensures rests { Rests result.0 }
    ensures aim { result.1 ≡ pass.aim }
{
    let BusPass { pass, aim } = pass;
    (pass, aim)
}

/// The passes without their aims, and these by themselves.
fn bared(
    passes: Vec<BusPass>,
    mut bares: Vec<Pass<Locked>>,
    mut aims: Vec<Option<u64>>,
) -> (Vec<Pass<Locked>>, Vec<Option<u64>>)
    requires passes { (bares.items ≡ []) × (length passes.items ≤ vec_capacity bares) }
    requires aims { (aims.items ≡ []) × (length passes.items ≤ vec_capacity aims) }
    ensures passes { result.0.items ≡ map bare passes.items }
    ensures rest { AllByRecursion Rests result.0.items }
    ensures aims { result.1.items ≡ aims_of passes.items }
{
    'passes: for pass in passes {
        let (bare, aim) = part(pass);
        bares.push_reserved(bare);
        aims.push_reserved(aim);
    }
    (bares, aims)
}

/// The passes with their aims again.
fn aimed(passes: Vec<Pass<Locked>>, aims: &[Option<u64>], mut all: Vec<BusPass>) -> Vec<BusPass>
    requires rest { AllByRecursion Rests passes.items }
    requires aims { length passes.items ≡ length aims.now }
    requires room { (all.items ≡ []) × (length passes.items ≤ vec_capacity all) }
    ensures { result.items ≡ joined passes.items aims.now }
{
    let mut place = 0;
    'passes: for pass in passes {
        let aim = aims[place];
        all.push_reserved(BusPass { pass, aim });
        place += 1;
    }
    all
}

/// The pools of which values are.
fn pools_in(values: Vec<Locked>, mut pools: Vec<Hold>) -> Vec<Hold>
    requires pools { AllByRecursion IsPool values.items }
    requires room { (pools.items ≡ []) × (length values.items ≤ vec_capacity pools) }
    ensures { pools_as_values result.items ≡ values.items }
{
    'pools: for value in values {
        let Locked::Pool(pool) = value else {
            unreachable!()
        };
        pools.push_reserved(pool);
    }
    pools
}

/// The desk and the pools among the values of all locks.
fn emptied(mut values: Vec<Locked>, pools: Vec<Hold>) -> Closed
    requires whole { IsWhole values.items }
    requires room { (pools.items ≡ []) × (64 ≤ vec_capacity pools) }
    ensures { values_in result ≡ values.items }
{
    let Locked::Desk(slot) = values.remove(0) else {
        unreachable!()
    };
    let pools = pools_in(values, pools);
    let Slot { generation, desk } = slot;
    Closed {
        generation,
        desk,
        pools,
    }
}

impl Bus {
    /// The desk and the pools, once all passes came back; want of memory leaves all untouched.
    pub fn close(self, alloc: Global, passes: Vec<BusPass>) -> Result<Closed, (Bus, Vec<BusPass>)>
        requires gate { All (λ p. p.gate ≡ self.id) passes.items }
        requires all { (j : ℕ) → j < self.passes → Any (λ p. p.view.name ≡ j) passes.items }
        ensures ended { IfOk result (λ c.
            Ended stands BusFact self.passes (map (λ p. p.view) passes.items) (values_in c)) }
        ensures untouched { IfErr result (λ e. (e.0 ≡ self) × (e.1.items ≡ passes.items)) }
    {
        let count = passes.len();
        let Ok(bares) = Vec::with_capacity(alloc, count) else {
            return Err((self, passes));
        };
        let Ok(aims) = Vec::with_capacity(alloc, count) else {
            return Err((self, passes));
        };
        let Ok(back) = Vec::with_capacity(alloc, count) else {
            return Err((self, passes));
        };
        let Ok(pools) = Vec::with_capacity(alloc, SEATS) else {
            return Err((self, passes));
        };
        let Bus { gate } = self;
        let (bares, aims) = bared(passes, bares, aims);
        match gate.close(alloc, bares) {
            Ok(values) => Ok(emptied(values, pools)),
            Err((gate, bares)) => Err((Bus { gate }, aimed(bares, &aims, back))),
        }
    }
}

//! The bus and its passes.
ghost use Rattle.std.specs.Prelude.{◌≡◌, ℕ, suc, ◌<◌, ◌≤◌, List, [], None, Some, ◌%◌, All, IfOk, length, map};
ghost use mathlib.Core.Option.{some};
ghost use lib.ListN.{get_elem?};
ghost use Rattle.kd_turn.specs.Sight.{Sight};
ghost use Rattle.kd_turn.specs.Told.{IsFresh};
ghost use Rattle.kd_bus.specs.Sight.{BusSight, Rests, unaimed};
ghost use Rattle.kd_bus.specs.Values.{opening_values};
ghost use Rattle.kd_histories.specs.Turns.{Turn};

use crate::locked::{Locked, Slot};
use kd_bloom::Param;
use kd_desk::{Desk, SEATS};
use kd_holds::Hold;
use kd_turn::gate::Gate;
use kd_turn::pass::Pass;
use kd_types::Seat;
use std::alloc::{AllocError, Global};
use std::marker::Model;

/// The slot of a bus, which threads share: a lock for its desk, and one for the pool of each seat.
#[derive(Drop)]
pub struct Bus {
    pub(crate) gate: Gate<Locked>,
}

impl Model for Bus {
    ghost use Rattle.std.specs.Prelude.{◌≡◌};
    ghost use Rattle.kd_turn.specs.Sight.{GateSight};

    ghost Value = { GateSight };

    ghost view = { λ b. b.gate };

    ghost invariant = { λ b. b.gate.locks ≡ 65 };
}

/// The right of one thread to take turns on a bus, and what it knows of the lists.
#[derive(Drop)]
pub struct BusPass {
    pub(crate) pass: Pass<Locked>,
    pub(crate) aim: Option<u64>,
}

impl Model for BusPass {
    ghost use Rattle.kd_bus.specs.Sight.{BusSight, Rests};

    ghost Value = { BusSight };

    ghost view = { λ p. record { gate = p.pass.gate; view = p.pass.view; aim = p.aim } };

    ghost invariant = { λ p. Rests p.pass };
}

/// The lock of a seat's pool.
pub(crate) fn lock_of(seat: Seat) -> u32
    ensures { result ≡ suc seat }
{
    u32::from(seat.0) + 1
}

impl BusPass {
    /// How many turns it has taken.
    pub fn turns(&self) -> u64
        ensures { result ≡ self.now.view.turns }
    {
        self.pass.turns()
    }

    /// Its next HELLO or ENDPOINT_MAKE is for the slot's bus of this generation; where another one
    /// is there, or none, that command is `NoSuchBus`.
    pub fn aim(&mut self, generation: u64)
        requires { generation % 2 ≡ 1 }
        ensures { self.new ≡ record self.old { aim = Some generation } }
    {
        self.aim = Some(generation);
    }
}

/// A slot that never had a bus, and 64 pools that were never open.
fn values(alloc: Global) -> Result<Vec<Locked>, AllocError>
    ensures { IfOk result (λ v. v.items ≡ opening_values 64) }
{
    let Some(param) = Param::of(8, 1) else {
        unreachable!()
    };
    let desk = Desk::make(alloc, 0, param)?;
    let mut values = Vec::with_capacity(alloc, SEATS + 1)?;
    values.push_reserved(Locked::Desk(Slot {
        generation: 0,
        desk,
    }));
    'seats: for seat in 0..SEATS {
        values.push_reserved(Locked::Pool(Hold::closed()));
    }
    Ok(values)
}

/// Passes that are aimed at no bus.
fn unaimed(alloc: Global, passes: Vec<Pass<Locked>>) -> Result<Vec<BusPass>, AllocError>
    requires rest { All Rests passes.items }
    ensures { IfOk result (λ all. all.items ≡ map unaimed passes.items) }
{
    let mut all = Vec::with_capacity(alloc, passes.len())?;
    'passes: for pass in passes {
        all.push(BusPass { pass, aim: None })?;
    }
    Ok(all)
}

impl Bus {
    /// A slot without a bus, and its passes, numbered from 0 on. A slot that never had a bus has
    /// the generation 0.
    pub fn make(alloc: Global, passes: u32) -> Result<(Bus, Vec<BusPass>), AllocError>
        requires passes { (0 < passes) × (passes ≤ 1024) }
        ensures passes { IfOk result
            (λ r. (r.0.passes ≡ passes) × (length r.1.items ≡ passes)) }
        ensures fresh { IfOk result (λ r.
            (k : ℕ) (p : BusSight) → get_elem? r.1.items k ≡ some p
            → (p.gate ≡ r.0.id) × (p.aim ≡ None) × IsFresh k p.view) }
    {
        let values = values(alloc)?;
        let (gate, passes): (Gate<Locked>, Vec<Pass<Locked>>) = Gate::make(alloc, values, passes)?;
        let passes = unaimed(alloc, passes)?;
        Ok((Bus { gate }, passes))
    }
}

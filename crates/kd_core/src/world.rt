//! A world: one desk, its holder, 64 pools and 64 callers.

ghost use Rattle.std.specs.Prelude.{◌≡◌, IfOk, replicate, sum_by};
ghost use Rattle.std.specs.List.{AllByRecursion};
ghost use Rattle.kd_world.specs.State.{closed_pool, new_world, stranger};
ghost use Rattle.kd_world.specs.Runs.{IsReached};
ghost use Rattle.kd_world.specs.Agreed.{IsSoundHold, used_in};

use crate::caller::Caller;
use kd_bloom::Param;
use kd_desk::{Desk, SEATS};
use kd_holds::{Hold, Holder};
use std::alloc::{AllocError, Global};
use std::marker::Model;

/// The callers of a world, numbered from 1.
pub(crate) const CALLERS: usize = 64;

/// A world, which runs one event after the other.
#[derive(Drop)]
pub struct World {
    pub(crate) desk: Desk,
    pub(crate) holder: Option<Holder>,
    /// By seat.
    pub(crate) pools: Vec<Hold>,
    /// By number, the first being 1.
    pub(crate) callers: Vec<Caller>,
    pub(crate) steps: u64,
}

impl Model for World {
    ghost use Rattle.kd_core.specs.Held.{IsWhole, world_of};
    ghost use Rattle.kd_core.specs.Running as running;

    ghost Value = { running.Running };

    ghost view = { world_of };

    ghost invariant = { IsWhole };
}

fn closed_pools(alloc: Global) -> Result<Vec<Hold>, AllocError>
    ensures { IfOk result (λ pools. pools.items ≡ replicate 64 closed_pool) }
{
    let mut pools = Vec::with_capacity(alloc, SEATS)?;
    'seats: for _ in 0..SEATS {
        pools.push(Hold::closed())?;
    }
    Ok(pools)
}

fn strangers(alloc: Global) -> Result<Vec<Caller>, AllocError>
    ensures { IfOk result (λ callers. callers.items ≡ replicate 64 stranger) }
{
    let mut callers = Vec::with_capacity(alloc, CALLERS)?;
    'numbers: for _ in 0..CALLERS {
        callers.push(Caller::stranger(alloc)?)?;
    }
    Ok(callers)
}

impl World {
    /// The world of a new bus, by the user who makes it and the parameter of its filters: 64
    /// callers of whom nothing is known, and no connection.
    #[tactic(auto, unfolding(kd_world::specs::State::new_world, kd_commands::specs::State::opening_desk))]
    pub fn make(alloc: Global, creator: u32, param: Param) -> Result<World, AllocError>
        ensures opening { IfOk result (λ w.
            w ≡ record { world = new_world creator param.size param.hashes; steps = 0 }) }
        ensures reached { IfOk result (λ w. IsReached w.world) }
    {
        Ok(World {
            desk: Desk::make(alloc, creator, param)?,
            holder: None,
            pools: closed_pools(alloc)?,
            callers: strangers(alloc)?,
            steps: 0,
        })
    }

    /// How many events it has run.
    pub fn steps(&self) -> u64
        ensures { result ≡ self.now.steps }
    {
        self.steps
    }

    /// How many bytes all slices of all pools take, freed ones that aren't swept included. Every
    /// pool is sound.
    pub fn used(&self) -> u64
        ensures sum { result ≡ sum_by used_in self.now.world.pools }
        ensures sound { AllByRecursion IsSoundHold self.now.world.pools }
    {
        let mut sum = 0;
        'pools: for pool in &self.pools {
            sum += u64::from(pool.used());
        }
        sum
    }
}
